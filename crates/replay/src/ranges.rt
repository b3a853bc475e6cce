// Rows of amounts known within a range, each worked out by `range_total` and through the exported
// entry.
ghost use Rattle.std.specs.Prelude.{◌≤◌};

use crate::row::{FIGURES, at_most, words_at};
use figures::entry::enter_range;
use figures::range::{Bounds, range_total};
use hexadecimal::number;
use std::array;
use totals::refusal::Refusal;

// Where a row has the ceiling, the lower and the upper total, and the tags.
const CEILING: usize = 14;

const LOWER: usize = 31;

const UPPER: usize = 48;

const TAGS: usize = 65;

// A word of the pair before a call.
const BEFORE: u64 = 0xa5a5a5a5a5a5a5a5;

// The tag that a digit stands for: itself up to 2, and else a greater one. Some of these are 0, 1
// or 2 in their last byte, or their last four.
fn tag_of(digit: u64) -> u64 {
    let tags = [
        0,
        1,
        2,
        3,
        4,
        127,
        128,
        255,
        256,
        257,
        258,
        65538,
        4294967296,
        4294967298,
        9223372036854775809,
        18446744073709551615,
    ];
    tags[(digit % 16) as usize]
}

fn tags_at(row: &[u8]) -> [u64; 6] {
    array::from_fn(|i| tag_of(number(row, TAGS + i, 1)))
}

// Figures after a call, of which one begins the list: the first n are the lows, or the highs, where
// the call is accepted.
fn after(row: &[u8], first: usize, n: usize, accepted: bool) -> [u64; FIGURES]
    requires { (first ≤ 6) × (n ≤ 12) }
{
    let mut words = words_at(row, first);
    if accepted {
        let settled = words_at(row, first + 12);
        words[..n].copy_from_slice(&settled[..n]);
    }
    words
}

// Whether both lists are what a call leaves, one that is accepted or one that is not; what stands
// behind them is as it was.
fn left(row: &[u8], accepted: bool, firsts: [u64; FIGURES], seconds: [u64; FIGURES]) -> bool {
    firsts == after(row, 0, at_most(row, 3, 1, 6), accepted)
        && seconds == after(row, 6, at_most(row, 4, 1, 6), accepted)
}

// Whether a double has an encoding, which tells -0 from +0. A NaN has none here.
fn encoded(x: f64, bits: u64) -> bool {
    !x.is_nan() && x.to_bits() == bits
}

fn refusal_at(row: &[u8]) -> u64 {
    number(row, 8, 2)
}

// Whether totals are those that the row expects, or are refused as it says. A refusal has no place,
// and the row's totals are then 0.
fn told_as(row: &[u8], totals: Result<Bounds, Refusal>) -> bool {
    let lower = number(row, LOWER, 16);
    let upper = number(row, UPPER, 16);
    match totals {
        Ok(bounds) => {
            refusal_at(row) == 0 && encoded(bounds.lower, lower) && encoded(bounds.upper, upper)
        }
        Err(refusal) => {
            refusal.number() == refusal_at(row) && refusal.place() == 0 && lower == 0 && upper == 0
        }
    }
}

// What a function answers that is lent as much of the tags and of the lists as the row says, and
// told the ceiling.
fn asked<T, F: FnOnce(&[u64], &mut [u64], &mut [u64], u64) -> T>(
    row: &[u8],
    firsts: &mut [u64; FIGURES],
    seconds: &mut [u64; FIGURES],
    ask: F,
) -> T
    requires { F.IsAlwaysCallable ask }
{
    let tags = tags_at(row);
    let t = at_most(row, 2, 1, 6);
    let n = at_most(row, 3, 1, 6);
    let m = at_most(row, 4, 1, 6);
    let ceiling = number(row, CEILING, 16);
    ask(&tags[..t], &mut firsts[..n], &mut seconds[..m], ceiling)
}

// Asked a second time, with the lists as they were left, it answers the same and leaves the same.
pub(crate) fn by_function(row: &[u8]) -> bool {
    let mut firsts = words_at(row, 0);
    let mut seconds = words_at(row, 6);
    let accepted = refusal_at(row) == 0;
    let once = told_as(row, asked(row, &mut firsts, &mut seconds, range_total));
    let kept = left(row, accepted, firsts, seconds);
    let twice = told_as(row, asked(row, &mut firsts, &mut seconds, range_total));
    once && kept && twice && left(row, accepted, firsts, seconds)
}

// The pair after a call.
fn written(row: &[u8], accepted: bool) -> [u64; 4] {
    if accepted {
        [
            number(row, LOWER, 16),
            number(row, UPPER, 16),
            BEFORE,
            BEFORE,
        ]
    } else {
        [BEFORE; 4]
    }
}

// The entry with as much of the pair as the row says.
pub(crate) fn by_entry(row: &[u8]) -> bool {
    let mut firsts = words_at(row, 0);
    let mut seconds = words_at(row, 6);
    let mut pair = [BEFORE; 4];
    let lent = at_most(row, 6, 1, 4);
    let returned = asked(
        row,
        &mut firsts,
        &mut seconds,
        |tags, firsts, seconds, ceiling| enter_range(
            tags,
            firsts,
            seconds,
            ceiling,
            &mut pair[..lent],
        ),
    );
    let wanted = number(row, 11, 2);
    let accepted = wanted == 0;
    returned == wanted && pair == written(row, accepted) && left(row, accepted, firsts, seconds)
}

// Whether both ways agree with the row.
pub(crate) fn agrees(row: &[u8]) -> bool {
    by_function(row) && by_entry(row)
}
