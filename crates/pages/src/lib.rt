//! Career pages, as bytes: values, a summary of each group of 64 of them, a trailer. A page opens
//! where it is the page of its own values (the specification, "Career pages").
#![tactic(auto)]

pub mod entry;
pub mod span;

ghost use Rattle.std.specs.Prelude.{◌≡◌, ◌↔◌, IsTrue, IfOk, [], ◌∷◌, length, take, drop};
ghost use Rattle.std.specs.Prelude.{◌+◌, ◌-◌, ◌*◌, ◌/◌, ◌%◌, ◌^◌, ◌<◌, ◌≤◌, ltb};
ghost use Rattle.totals_spec.specs.Basics.{least};
ghost use Rattle.totals_spec.specs.entries.Bytes.{values_from, values_in};
ghost use Rattle.totals_spec.specs.chain.Limit.{low_of};
ghost use Rattle.totals_spec.specs.terms.Terms.{terms};
ghost use Rattle.pages_spec.specs.Pages as spec;
ghost use Rattle.pages_spec.proofs.PartsOfAPage.{AllBytes, Stands};
ghost use Rattle.pages.specs.Paged.{seen_of, both, AllStand, Summarized, Counts, ShortSizes};
ghost use Rattle.pages.specs.Paged.{LongSizes, Trails, Opens, Fills, code_of};
ghost use Rattle.totals.specs.Laid.{laid_over};

use binary::operand;
use binary::summand::Summand;
use binary::term::{Item, item_of, looked_term};
use format::env::Env;
use format::flags::flag;
use std::error::Error;
use std::fmt;
use totals::entry::VALUE_BYTES;
use totals::formats::layout;
use values::{LIMIT, put_word, word_at};

// The values of a group.
const GROUP: usize = 64;

// The bytes of a summary.
const SUMMARY: usize = 12;

// The lengths of the two trailers, and the most values of a page with the short one.
const SHORT: usize = 16;

const LONG: usize = 24;

const SHORT_MOST: usize = 1048576;

// The last word of a trailer: 64, and above it the letters CPG1 or CPG2.
const SHORT_ENDING: u64 = 3550895079897956416;

const LONG_ENDING: u64 = 3622952673935884352;

// A word has two numbers of 32 bits.
const HALF: u64 = 4294967296;

// The position of the bit worth 1, counted from the unit.
const ONE: u64 = 2098;

// The lower of a position and the lowest set bit of a value.
fn lower(bits: u64, low: u64) -> u64
    ensures { result ≡ least low low_of (terms (spec.page_items (bits ∷ []))) }
{
    let env = Env::default();
    let term = looked_term(layout(), env, Summand::Value, bits);
    if term.significand == 0 {
        return low;
    }
    low.min(u64::from(term.significand.trailing_zeros()) + term.shift)
}

// The lowest set bit of some values, no higher than a position.
fn bottom(values: &[u8], top: u64) -> u64
    ensures { result ≡ least top low_of (terms (spec.page_items (values_in values.now))) }
{
    let mut low = top;
    for i in 0..values.len() / 8 {
        low = lower(word_at(values, i), low);
    }
    low
}

// A position as a word below 2^32: the bit worth 1 stands at 0.
fn position(at: u64) -> u64
    requires { at < 4294967296 }
    ensures { result ≡ (4294967296 + at - 2098) % 4294967296 }
{
    (HALF + at - ONE) % HALF
}

// Some values: where the highest bit lies, 0 where no value has one, and what is among them.
#[derive(Clone, Copy, Default)]
struct Content {
    top: u64,
    nan: bool,
    infinite: bool,
    zero: bool,
}

impl Content {
    // One value more.
    #[tactic(auto, using(binary::proofs::Elements::operands))]
    fn note(&mut self, bits: u64)
        ensures { self.new ≡ both self.old (seen_of (bits ∷ [])) }
    {
        let env = Env::default();
        match item_of(Summand::Value, operand(layout(), env, bits).value) {
            Item::Nan => self.nan = true,
            Item::Invalid => {}
            Item::Infinite(_) => self.infinite = true,
            Item::Zero(_) => self.zero = true,
            Item::Top(at) => self.top = self.top.max(at),
        }
    }
}

// A loop of its own: with a second caller the scan of the totals would be a call in their walk,
// which every sum would pay for.
fn seen_in(values: &[u8]) -> Content
    ensures { result ≡ seen_of (values_in values.now) }
{
    let mut seen = Content::default();
    for i in 0..values.len() / 8 {
        seen.note(word_at(values, i));
    }
    seen
}

// A summary: the word of the highest and the lowest set bit, and the class.
#[derive(Clone, Copy)]
struct Summary {
    extent: u64,
    class: u64,
}

impl Summary {
    // The summary of some values.
    fn of(values: &[u8]) -> Summary
        ensures { Summarized (values_in values.now) result }
    {
        let seen = seen_in(values);
        let class = flag(1, seen.nan) + flag(2, seen.infinite) + flag(4, seen.zero);
        if seen.top == 0 {
            return Summary { extent: 0, class };
        }
        let high = position(seen.top);
        let low = position(bottom(values, seen.top));
        Summary {
            extent: high + HALF * low,
            class,
        }
    }
}

// The groups of some values.
#[tactic(auto, unfolding(totals_spec::specs::chain::Limit::ceil_div))]
fn groups_of(count: usize) -> usize
    ensures { result ≡ spec.groups count }
{
    count.div_ceil(GROUP)
}

#[tactic(auto, unfolding(pages_spec::specs::Pages::trailer_length))]
fn trailer_length(count: usize) -> usize
    ensures { result ≡ spec.trailer_length count }
{
    if count > SHORT_MOST { LONG } else { SHORT }
}

// The length of the page of some values.
#[tactic(auto, unfolding(totals_spec::specs::chain::Limit::ceil_div, pages_spec::specs::Pages::page_length, pages_spec::specs::Pages::trailer_length))]
fn page_length(count: usize) -> usize
    requires { count ≤ 268435456 }
    ensures { (result ≡ spec.page_length count) × (result < 2 ^ 32) }
{
    VALUE_BYTES * count + SUMMARY * groups_of(count) + trailer_length(count)
}

// Bytes with room for the page of as many values as stand in front.
#[derive(Clone, Copy)]
struct Page<'a> {
    bytes: &'a [u8],
    count: usize,
    ghost few: { count ≤ 268435456 },
    ghost room: { spec.page_length count ≤ length bytes.now },
    ghost fit: { AllBytes bytes.now },
}

impl Page<'_> {
    // The summary of the group g.
    #[tactic(auto, unfolding(pages_spec::specs::Pages::page_length))]
    fn group(&self, g: usize) -> Summary
        requires { 64 * g < self.now.count }
        ensures { Summarized
            (take spec.group_size (drop (spec.group_size * g)
            (values_from self.now.count self.now.bytes.now))) result }
    {
        let first = GROUP * g;
        let end = (first + GROUP).min(self.count);
        Summary::of(&self.bytes[VALUE_BYTES * first..VALUE_BYTES * end])
    }

    // Whether the summary of a group stands where it should. The trailer lies behind, so that two
    // words can be read.
    #[tactic(auto, unfolding(totals_spec::specs::chain::Limit::ceil_div, pages_spec::specs::Pages::page_length, pages_spec::specs::Pages::trailer_length))]
    fn stands(&self, g: usize) -> bool
        requires { 64 * g < self.now.count }
        ensures { IsTrue result ↔ Stands self.now.count self.now.bytes.now g }
    {
        let summary = self.group(g);
        let at = VALUE_BYTES * self.count + SUMMARY * g;
        word_at(&self.bytes[at..], 0) == summary.extent
            && word_at(&self.bytes[at + 8..], 0) % HALF == summary.class
    }

    #[tactic(auto, unfolding(totals_spec::specs::chain::Limit::ceil_div))]
    fn all_stand(&self) -> bool
        ensures { IsTrue result
            ↔ AllStand self.now.count self.now.bytes.now (spec.groups self.now.count) }
    {
        (0..groups_of(self.count)).all(|g| self.stands(g))
    }
}

// The number of values of a short trailer, by the word that has it above the offset.
fn short_count(sizes: u64) -> Option<usize>
    ensures { Counts (ShortSizes sizes) result }
{
    let count = sizes / HALF;
    if count > SHORT_MOST as u64 || sizes % HALF != 8 * count {
        return None;
    }
    Some(count as usize)
}

// The same of a long one, by the words that it has for both.
fn long_count(offset: u64, count: u64) -> Option<usize>
    ensures { Counts (LongSizes offset count) result }
{
    if count <= SHORT_MOST as u64 || count > LIMIT as u64 || offset != 8 * count {
        return None;
    }
    Some(count as usize)
}

// The number of values whose trailer a page ends in.
fn counted(page: &[u8]) -> Option<usize>
    ensures { Counts (Trails page.now) result }
{
    let (rest, ending) = page.split_last_chunk()?;
    let (rest, sizes) = rest.split_last_chunk()?;
    let sizes = u64::from_le_bytes(*sizes);
    match u64::from_le_bytes(*ending) {
        SHORT_ENDING => short_count(sizes),
        LONG_ENDING => {
            let (_, offset) = rest.split_last_chunk()?;
            long_count(u64::from_le_bytes(*offset), sizes)
        }
        _ => None,
    }
}

/// The number of values of a page, and none exactly where it does not open: where its bytes are not
/// those of the page of its own values.
pub fn open(page: &[u8]) -> Option<usize>
    ensures { Opens page.now result }
{
    let count = counted(page)?;
    if page.len() != page_length(count) {
        return None;
    }
    let page = Page { bytes: page, count };
    page.all_stand().then_some(count)
}

// Whether the page of some values has no room.
#[tactic(auto, unfolding(totals_spec::specs::chain::Limit::ceil_div, pages_spec::specs::Pages::page_length, pages_spec::specs::Pages::trailer_length))]
fn no_room(count: usize, room: usize) -> bool
    ensures { result ≡ ltb room (spec.page_length count) }
{
    if room / VALUE_BYTES < count {
        return true;
    }
    let rest = room - VALUE_BYTES * count;
    rest < SUMMARY * groups_of(count) + trailer_length(count)
}

fn write_values(values: &[u64], page: &mut [u8])
    requires { spec.page_length (length values.now) ≤ length page.old }
    ensures { Fills (spec.page_of values.now) (8 * length values.now) page.old page.new }
{
    for (i, bits) in values.iter().enumerate() {
        put_word(page, VALUE_BYTES * i, *bits);
    }
}

// A class is laid as a whole word: the summary or the trailer behind it is laid after it.
#[tactic(auto, unfolding(totals_spec::specs::chain::Limit::ceil_div, pages_spec::specs::Pages::page_length, pages_spec::specs::Pages::trailer_length))]
fn write_summaries(count: usize, page: &mut [u8])
    requires { (count ≤ 268435456) × (spec.page_length count ≤ length page.old) }
    ensures { Fills (spec.page_of (values_from count page.old))
        (8 * count + 12 * spec.groups count) page.old page.new }
{
    for g in 0..groups_of(count) {
        let summary = Page { bytes: page, count }.group(g);
        let at = VALUE_BYTES * count + SUMMARY * g;
        put_word(page, at, summary.extent);
        put_word(page, at + 8, summary.class);
    }
}

#[tactic(auto, unfolding(totals_spec::specs::chain::Limit::ceil_div, pages_spec::specs::Pages::page_length, pages_spec::specs::Pages::trailer_length))]
fn write_trailer(count: usize, page: &mut [u8])
    requires { (count ≤ 268435456) × (spec.page_length count ≤ length page.old) }
    ensures { page.new
        ≡ laid_over page.old (8 * count + 12 * spec.groups count) (spec.trailer count) }
{
    let at = VALUE_BYTES * count + SUMMARY * groups_of(count);
    let number = count as u64;
    if count > SHORT_MOST {
        put_word(page, at, 8 * number);
        put_word(page, at + 8, number);
        put_word(page, at + 16, LONG_ENDING);
    } else {
        put_word(page, at, 8 * number + HALF * number);
        put_word(page, at + 8, SHORT_ENDING);
    }
}

/// Why no page is written.
#[derive(Clone, Copy, Debug, PartialEq, Eq)]
pub enum PageError {
    /// The destination is shorter than the page would be.
    NoRoom,
    /// There are more values than a page has.
    TooMany,
}

impl fmt::Display for PageError {
    fn fmt<W: fmt::Write>(&self, formatter: &mut fmt::Formatter<W>) -> fmt::Result {
        formatter.write_str(match self {
            PageError::NoRoom => "the destination is shorter than the page",
            PageError::TooMany => "a page has at most 268,435,456 values",
        })
    }
}

impl Error for PageError {}

/// Writes the page of some values, encodings of binary64, into the first bytes of the destination;
/// its length. What stands behind them stays as it was.
#[tactic(auto, unfolding(pages_spec::specs::Pages::page_written, pages_spec::specs::Pages::write_refusal))]
pub fn write(values: &[u64], page: &mut [u8]) -> Result<usize, PageError>
    ensures code { code_of result ≡ (spec.page_written values.now page.old).code }
    ensures short { IfOk result (λ length. length < 2 ^ 32) }
    ensures page { page.new ≡ (spec.page_written values.now page.old).buffer }
{
    let count = values.len();
    if no_room(count, page.len()) {
        return Err(PageError::NoRoom);
    }
    if count > LIMIT {
        return Err(PageError::TooMany);
    }
    write_values(values, page);
    write_summaries(count, page);
    write_trailer(count, page);
    Ok(page_length(count))
}
