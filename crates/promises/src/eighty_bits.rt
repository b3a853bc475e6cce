//! Values of ten bytes, kind 4: the promises of a total, of its sums and dots.

ghost use Rattle.targets_spec.specs.formats.Promises as further;
ghost use Rattle.totals_spec.specs.ten_bytes.Promises as plain;

/// A total of kind 4 has a refusal's number exactly where its condition holds and none before it
/// does: 3, 4, 6 of a sum and 3, 4, 5, 6 of a dot.
pub fn refused_exactly()
    ensures { plain.Extended-refused-exactly }
{}

/// A call of an exported entry with kind 4 returns 1 or 2 before these, each exactly under its
/// condition.
pub fn call_refused_exactly()
    ensures { plain.Extended-call-refused-exactly }
{}

/// The record of a refused total of kind 4 is zero but for the number.
pub fn refused()
    ensures { plain.Extended-refused }
{}

/// Lists of words and pence refuse kind 4 with 3.
pub fn refused_elsewhere()
    ensures { plain.Extended-elsewhere }
{}

/// A total within an allowance refuses kind 4 with 3.
pub fn refused_within()
    ensures { further.Extended-elsewhere }
{}

/// In every record the result has 80 bits, the flags 8, the side 2 and the passes 64, of refused
/// calls too.
pub fn fits()
    ensures { plain.Extended-fits }
{}

/// After an accepted call the buffer reads as the record: ten bytes of result, flags, side and
/// passes in their bytes, 0 between them, and all behind as it was.
pub fn read_back()
    ensures { plain.Extended-read-back }
{}

/// A value stands in each ten bytes of a list, the lowest byte first.
pub fn values_of_ten_bytes()
    ensures { plain.Tens-values }
{}

/// An accepted list with an unsupported encoding gives the default NaN and flag 1, whatever else
/// stands in it.
pub fn unsupported()
    ensures { plain.Extended-unsupported }
{}

/// Of finite values of kind 4 with a non-zero term the record is that of the exact sum rounded once
/// to 64 digits.
pub fn exact()
    ensures { plain.Extended-exact }
{}

/// Of finite values of kind 4 without such a term the record is that of a zero.
pub fn zeros()
    ensures { plain.Extended-zeros }
{}

/// What is written out is read as it was meant, with the leading bit of its significand.
pub fn encodes_back()
    ensures { plain.Extended-back }
{}

/// The leading bit of a result is 0 exactly where its exponent field is 0: no result is
/// unsupported, and none a pseudo-denormal.
pub fn canonical()
    ensures { plain.Extended-canonical }
{}

/// A pseudo-denormal is the number with the same significand under a field of 1, and counts as
/// subnormal, where that does not.
pub fn pseudo_denormal()
    ensures { plain.Pseudo-denormal }
{}

/// The side of a total of kind 4 says how its result, read again, lies beside the exact sum.
pub fn side()
    ensures { plain.Extended-side }
{}

/// A total of kind 4 that is a NaN or an infinity has side 3, which is none.
pub fn no_side()
    ensures { plain.Extended-no-side }
{}

/// What the passes over values of kind 4 end with, rounded once, is the exact sum rounded once.
pub fn by_chain()
    ensures { plain.Extended-by-chain }
{}

/// A rearrangement of an accepted list of which no NaN decides has the same whole record; the pairs
/// of a dot move together.
pub fn order()
    ensures { plain.Extended-order }
{}

/// Through the exported entries with kind 4 a rearrangement returns the same number and leaves the
/// same whole buffer.
pub fn call_order()
    ensures { plain.Extended-call-order }
{}

/// A total of kind 4 never takes more passes than the limit, which at 64 digits is 1 + ⌈(T − 702 −
/// B) / 633⌉.
pub fn limit()
    ensures { plain.Extended-limit }
{}

/// A sum or magnitude sum of kind 4 takes at most 52 passes, a square sum or dot at most 104.
pub fn most_passes()
    ensures { plain.Extended-most }
{}

/// The chain of passes of kind 4 ends by its own rule.
pub fn chain_ends()
    ensures { plain.Extended-ends }
{}

/// Each subtraction in the edges of the passes of kind 4 is a true difference.
pub fn edges()
    ensures { plain.Extended-edges }
{}
