//! Career pages: what is written, what opens, and the total of a span.

ghost use Rattle.pages_spec.specs.Promises as law;

/// With room, and at most 268,435,456 values, writing answers the page's length and leaves the page
/// in front of the destination; it opens, and holds what was written.
pub fn written_opens()
    ensures { law.Page-opens }
{}

/// A page that opens is, byte for byte, the page of the values that it holds, at most 268,435,456
/// of them.
pub fn opens_only()
    ensures { law.Page-only }
{}

/// Beyond the length that is answered no byte of the destination changes, nor does its length.
pub fn beyond_untouched()
    ensures { law.Page-beyond }
{}

/// Writing has a refusal's number exactly where its condition holds and none before it does: 2, 6.
pub fn writing_refused_exactly()
    ensures { law.Page-refused-exactly }
{}

/// Refused writing answers its number alone, and writes nothing.
pub fn writing_refused()
    ensures { law.Page-refused }
{}

/// A page of n values has 8 n + 12 ⌈n / 64⌉ + 16 bytes, and 8 more above 1,048,576 values.
pub fn length()
    ensures { law.Page-length }
{}

/// The summary of group g stands at byte 8 n + 12 g.
pub fn summaries()
    ensures { law.Page-summary }
{}

/// A summary says where the highest and the lowest bit of its group's terms lie, and of which class
/// the group is.
pub fn summarizes()
    ensures { law.Page-summarizes }
{}

/// A span from `start` to `end` has `end` − `start` values, from the one at `start` on.
pub fn span_values()
    ensures { law.Span-values }
{}

/// The record of a span of a written page is that of the plain sum of the same values.
pub fn span_of_written()
    ensures { law.Page-span }
{}

/// The record of a span of any page that opens is that of the plain sum of the values that the page
/// holds there.
pub fn span_of_opened()
    ensures { law.Page-span-read }
{}

/// An accepted empty span is the record of +0.
pub fn empty_span()
    ensures { law.Page-empty }
{}

/// A span has a refusal's number exactly where its condition holds and none before it does: 12, 13,
/// and then those of the plain sum.
pub fn span_refused_exactly()
    ensures { law.Page-span-refused-exactly }
{}

/// Of the plain sum's numbers only 4 can come of a span.
pub fn span_numbers()
    ensures { law.Page-span-numbers }
{}

/// The record of a refused span is zero but for the number.
pub fn span_refused()
    ensures { law.Page-span-refused }
{}

/// The entry of a span returns 2 before the span's own numbers, each exactly under its condition.
pub fn entry_refused_exactly()
    ensures { law.Page-entry-refused-exactly }
{}

/// A refused entry of a span leaves every byte of the buffer as it was.
pub fn entry_refused()
    ensures { law.Page-entry-refused }
{}

/// After an accepted entry of a span the buffer reads as the record of the span's values.
pub fn entry_read_back()
    ensures { law.Page-entry-read-back }
{}

/// Up to 1,048,576 values a page is, byte for byte, what it was when there was one trailer.
pub fn as_before()
    ensures { law.Page-as-before }
{}

/// A longer page has the trailer of 24 bytes, which ends in CPG2.
pub fn longer()
    ensures { law.Page-longer }
{}

/// A page whose count lies outside of the range of its own trailer does not open.
pub fn counts_in_range()
    ensures { law.Page-range }
{}

/// A reader that knows the short trailer alone opens nothing that ends in CPG2.
pub fn earlier_reader()
    ensures { law.Page-earlier }
{}

/// What the reader that knows the short trailer alone opens still opens, and holds the same values.
pub fn both_readers()
    ensures { law.Page-both }
{}
