// The lower and the upper total of amounts known within a range.
ghost use Rattle.std.specs.Prelude.{◌≡◌, not, false, ◌<◌, ◌≤◌, T, length};
ghost use Rattle.std.specs.Float.{binary64};
ghost use Rattle.std.specs.Float.Ieee.{to_bits};
ghost use Rattle.totals_spec.specs.Basics.{any};
ghost use Rattle.totals_spec.specs.formats.Format as format;
ghost use Rattle.totals_spec.specs.formats.Settings as env;
ghost use Rattle.totals_spec.specs.sums.Totals as totals;
ghost use Rattle.figures_spec.specs.tables.Table.{plain_total};
ghost use Rattle.format.specs.Modes.{rounding_number};
ghost use Rattle.figures_spec.specs.ranges.Ranges as spec;
ghost use Rattle.totals_spec.specs.formats.Ordered.{at_most};
ghost use Rattle.totals.specs.Refusal.{refusal_number};
ghost use Rattle.figures.specs.Ranges.{amount_in, lows, highs, Totalled};

use binary::summand::Summand;
use format::env::Env;
use format::modes::Rounding;
use totals::formats::layout;
use totals::lists::sum;
use totals::refusal::{Refusal, result_of};
use values::LIMIT;
use values::elements::Words;

/// An amount: known exactly, between two figures, or missing.
#[derive(Clone, Copy)]
pub enum Amount {
    Known(f64),
    Between(f64, f64),
    Missing,
}

/// The lower and the upper total of amounts. No zero is -0.
#[derive(Clone, Copy)]
pub struct Bounds {
    pub lower: f64,
    pub upper: f64,
}

// The encoding of -0: from here on the sign is set.
const SIGN: u64 = 9223372036854775808;

// In an encoding of binary64: the bits of the fraction, how many fields there are, and the field of
// infinities and NaNs.
const FRACTION_BITS: u32 = 52;

const FIELDS: u64 = 2048;

const LAST_FIELD: u64 = 2047;

// A finite double.
fn finite(bits: u64) -> bool
    ensures { result ≡ spec.good_figure bits }
{
    (bits >> FRACTION_BITS) % FIELDS != LAST_FIELD
}

// Finite doubles are ordered by their bits below the sign, upwards or downwards by the sign; the
// two zeros are equal.
fn at_most(low: u64, high: u64) -> bool
    requires { T (spec.good_figure low) × T (spec.good_figure high) }
    ensures { result ≡ at_most (spec.figure_worth low) (spec.figure_worth high) }
{
    match (low < SIGN, high < SIGN) {
        (true, true) => low <= high,
        (true, false) => low == 0 && high == SIGN,
        (false, true) => true,
        (false, false) => high <= low,
    }
}

// An entry's used figures are finite, and its low is not above its high.
fn good_entry(tag: u64, first: u64, second: u64) -> bool
    ensures { result ≡ spec.good_amount (spec.amount_of tag first second) }
{
    match tag {
        0 => finite(first),
        1 => finite(first) && finite(second) && at_most(first, second),
        2 => true,
        _ => false,
    }
}

// Finite, and not below zero.
fn good_ceiling(ceiling: u64) -> bool
    ensures { result ≡ spec.good_ceiling ceiling }
{
    finite(ceiling) && at_most(0, ceiling)
}

fn all_good(tags: &[u64], firsts: &[u64], seconds: &[u64]) -> bool
    requires { (length firsts.now ≡ length tags.now) × (length seconds.now ≡ length tags.now) }
    ensures { not result
        ≡ any (λ a. not (spec.good_amount a)) (spec.entries tags.now firsts.now seconds.now) }
{
    tags.iter()
        .zip(firsts)
        .zip(seconds)
        .all(|((tag, first), second)| good_entry(*tag, *first, *second))
}

// An entry, whose tag is at most 2 and whose used figures are finite.
fn amount_of(tag: u64, first: u64, second: u64) -> Amount
    requires { T (spec.good_amount (spec.amount_of tag first second)) }
    ensures { amount_in result ≡ spec.amount_of tag first second }
{
    match tag {
        0 => Amount::Known(f64::from_bits(first)),
        1 => Amount::Between(f64::from_bits(first), f64::from_bits(second)),
        _ => Amount::Missing,
    }
}

// The least amount that an entry allows.
fn low_of(amount: Amount) -> f64
    ensures { to_bits binary64 result ≡ spec.low_of (amount_in amount) }
{
    match amount {
        Amount::Known(figure) => figure,
        Amount::Between(low, _) => low,
        Amount::Missing => 0.0,
    }
}

// And the greatest.
fn high_of(amount: Amount, ceiling: f64) -> f64
    ensures { to_bits binary64 result
        ≡ spec.high_of (to_bits binary64 ceiling) (amount_in amount) }
{
    match amount {
        Amount::Known(figure) => figure,
        Amount::Between(_, high) => high,
        Amount::Missing => ceiling,
    }
}

// Each entry's low takes the place of its first figure, and its high that of its second. Only
// figures that are not used change.
fn settle(tags: &[u64], firsts: &mut [u64], seconds: &mut [u64], ceiling: u64)
    requires firsts_len { (length firsts.old ≡ length tags.now)
        × (length seconds.old ≡ length tags.now) }
    requires t { T (spec.good_figure ceiling)
        × (any (λ a. not (spec.good_amount a)) (spec.entries tags.now firsts.old seconds.old)
        ≡ false) }
    ensures { (firsts.new ≡ lows tags.now firsts.old seconds.old)
        × (seconds.new ≡ highs ceiling tags.now firsts.old seconds.old) }
{
    let most = f64::from_bits(ceiling);
    for (i, tag) in tags.iter().enumerate() {
        let amount = amount_of(*tag, firsts[i], seconds[i]);
        firsts[i] = f64::to_bits(low_of(amount));
        seconds[i] = f64::to_bits(high_of(amount, most));
    }
}

// The plain sum of doubles, rounded by a mode; a zero is +0.
fn toward(rounding: Rounding, values: &[u64]) -> u64
    requires { length values.now ≤ totals.limit }
    ensures { result
        ≡ spec.plus_zero (plain_total format.binary64
        (env.with_rounding (rounding_number rounding)) values.now) }
{
    let mut env = Env::default();
    env.rounding = rounding;
    let bits = result_of(sum(layout(), env, Summand::Value, Words { values }));
    if bits == SIGN { 0 } else { bits }
}

// Why entries have no totals.
fn range_refusal(tags: &[u64], firsts: &[u64], seconds: &[u64], ceiling: u64) -> Result<(), Refusal>
    ensures { refusal_number result
        ≡ spec.range_refusal tags.now firsts.now seconds.now ceiling }
{
    let count = tags.len();
    if firsts.len() != count || seconds.len() != count {
        return Err(Refusal::DifferentLengths);
    }
    if count > LIMIT {
        return Err(Refusal::TooManyElements);
    }
    if !good_ceiling(ceiling) || !all_good(tags, firsts, seconds) {
        return Err(Refusal::BadAmount);
    }
    Ok(())
}

/// The lower and the upper total of entries: of each a tag (0 known, 1 between, 2 missing) and two
/// figures, encodings of binary64; a missing amount lies between 0 and the ceiling. Where they have
/// totals, each entry's low and high are left in the place of its figures. Refused with 5, 6 or 11,
/// and then both lists are as they were (the specification, "Ranges").
pub fn range_total(
    tags: &[u64],
    firsts: &mut [u64],
    seconds: &mut [u64],
    ceiling: u64,
) -> Result<Bounds, Refusal>
    ensures { Totalled tags.now firsts.old seconds.old ceiling result firsts.new seconds.new }
{
    range_refusal(tags, firsts, seconds, ceiling)?;
    settle(tags, firsts, seconds, ceiling);
    let lower = toward(Rounding::TowardNegative, firsts);
    let upper = toward(Rounding::TowardPositive, seconds);
    Ok(Bounds {
        lower: f64::from_bits(lower),
        upper: f64::from_bits(upper),
    })
}
