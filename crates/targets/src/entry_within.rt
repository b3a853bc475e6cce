// The entries of a sum and of a dot within an allowance of passes, over records: eighteen words are
// written, the last twelve of them S.
ghost use Rattle.std.specs.Prelude.{◌≡◌, ◌||◌, ◌+◌, ◌*◌, ◌≤◌, length};
ghost use Rattle.totals_spec.specs.entries.Bytes.{value_bytes};
ghost use Rattle.targets_spec.specs.within.Estimate as spec;
ghost use Rattle.targets_spec.specs.entries.Lengths as kinds;
ghost use Rattle.targets_spec.proofs.within.Answers.{Windowed};
ghost use Rattle.format.specs.Settings.{settings_of};
ghost use Rattle.limbs.specs.Value.{value};
ghost use Rattle.reduction.specs.Answered.{answer_of};
ghost use Rattle.totals.specs.Laid.{laid_over};
ghost use Rattle.totals.specs.Entered.{Enters};
ghost use Rattle.totals.specs.Refusal.{refusal_number};
ghost use Rattle.targets.specs.Estimates.{estimate_of, estimate_in, FitsAnswer, FitsEstimate};
ghost use Rattle.targets.specs.Estimates.{Writes};
ghost use Rattle.targets.specs.Estimates.{within_numbers};

use crate::entry::cut_short;
use crate::estimate::{Estimate, Seen, dot_bytes_within, sum_bytes_within};
use format::settings::Settings;
use limbs::window::negate;
use reduction::total::Answer;
use totals::entry::{NamedFormat, SIDE, lengths};
use totals::refusal::{Refusal, refuse_if};
use values::put_word;

// The bytes of an answer: six words, and S.
const ESTIMATE_BYTES: usize = 144;

const HEAD_BYTES: usize = 48;

// In the word of the flags the mark is the second byte, the side the third, and the sign of the
// boundary the fourth.
const MARK: u64 = 256;

const MINUS: u64 = 16777216;

// What is written: six words, and S.
#[derive(Clone, Copy)]
struct Written {
    head: [u64; 6],
    sum: [u64; 12],
}

// Of an accepted total.
fn full_words(total: Answer) -> Written
    requires { FitsAnswer (answer_of total) }
    ensures { Writes (spec.full (answer_of total)) result }
{
    let edge = total.last_edge.cast_unsigned();
    let flags = total.flags + SIDE * total.side;
    Written {
        head: [total.result, flags, total.passes, edge, 0, 0],
        sum: [0; 12],
    }
}

// S as a window of 768 bits, a number below 0 counted down from 2^768.
fn signed_window(negative: bool, magnitude: [u64; 12]) -> [u64; 12]
    requires { Windowed (record { neg = negative; mag = value magnitude }) }
    ensures { value result
        ≡ spec.window_of (record { neg = negative; mag = value magnitude }) }
{
    if negative {
        negate(magnitude)
    } else {
        magnitude
    }
}

// And of a chain that is not finished. A boundary has one word.
fn seen_words(seen: Seen) -> Written
    requires { FitsEstimate (estimate_of (Estimate.Unfinished seen)) }
    ensures { Writes (estimate_of (Estimate.Unfinished seen)) result }
{
    let edge = seen.last_edge.cast_unsigned();
    let sum = signed_window(seen.negative, seen.sum);
    let head = match seen.boundary {
        Some(boundary) => {
            let minus = MINUS * u64::from(boundary.negative);
            let unit = boundary.unit.cast_unsigned();
            [0, MARK + minus, seen.passes, edge, boundary.whole[0], unit]
        }
        None => [0, MARK, seen.passes, edge, 0, 0],
    };
    Written { head, sum }
}

// Words one behind the other, from a place on.
fn put_words(answer: &mut [u8], at: usize, words: &[u64])
    requires { at + 8 * length words.now ≤ length answer.old }
    ensures { answer.new ≡ laid_over answer.old at (value_bytes words.now) }
{
    for (i, word) in words.iter().enumerate() {
        put_word(answer, at + 8 * i, *word);
    }
}

// What is written of an accepted answer.
#[inline(always)]
fn words_of(estimate: Estimate) -> Written
    requires { FitsEstimate (estimate_of estimate) }
    ensures { Writes (estimate_of estimate) result }
{
    match estimate {
        Estimate::Full(total) => full_words(total),
        Estimate::Unfinished(seen) => seen_words(seen),
    }
}

// An accepted answer is written; any other leaves the buffer as it was. Returns the refusal, plus
// 256 times the place.
fn enter_estimate(estimate: Result<Estimate, Refusal>, answer: &mut [u8]) -> u64
    requires { FitsEstimate (estimate_in estimate) × (144 ≤ length answer.old) }
    ensures { Enters (spec.estimate_entered (estimate_in estimate) answer.old) result answer.new }
{
    match estimate {
        Ok(accepted) => {
            let words = words_of(accepted);
            put_words(answer, 0, &words.head);
            put_words(answer, HEAD_BYTES, &words.sum);
            0
        }
        Err(refusal) => refusal.code(),
    }
}

// The refusals 1 and 2, and 16.
#[inline(always)]
fn tested(cut: bool, room: usize, allowance: u64) -> Result<(), Refusal>
    ensures { refusal_number result ≡ within_numbers cut room allowance }
{
    lengths(cut, room, ESTIMATE_BYTES)?;
    refuse_if(allowance == 0, Refusal::NoAllowance)
}

// Whether one of two lists ends within a value.
#[inline(always)]
fn either_cut_short(kind: u64, left: &[u8], right: &[u8]) -> bool
    ensures { result ≡ (kinds.cut_short kind left.now || kinds.cut_short kind right.now) }
{
    cut_short(kind, left) || cut_short(kind, right)
}

/// The entry of the sum of the values (summand 0), of their magnitudes (1) or of their squares (2),
/// within an allowance of passes: the answer's first 144 bytes are written. Returns 0, or the
/// refusal plus 256 times its place, and then nothing is written (the specification, "Within an
/// allowance").
pub fn enter_sum_within(
    format: NamedFormat,
    settings: Settings,
    summand: u64,
    allowance: u64,
    values: &[u8],
    answer: &mut [u8],
) -> u64
    ensures { Enters
        (spec.sum_within_entry format.kind format.exponent_bits format.width format.bias_named
        format.bias (settings_of settings) summand allowance values.now answer.old)
        result answer.new }
{
    let cut = cut_short(format.kind, values);
    if let Err(refusal) = tested(cut, answer.len(), allowance) {
        return refusal.number();
    }
    let Ok(format) = format.format() else {
        return Refusal::NoSuchFormat.number();
    };
    let estimate = sum_bytes_within(format, settings, summand, values, allowance);
    enter_estimate(estimate, answer)
}

/// The entry of the sum of the products of the pairs: all else is as in `enter_sum_within`.
pub fn enter_dot_within(
    format: NamedFormat,
    settings: Settings,
    allowance: u64,
    left: &[u8],
    right: &[u8],
    answer: &mut [u8],
) -> u64
    ensures { Enters
        (spec.dot_within_entry format.kind format.exponent_bits format.width format.bias_named
        format.bias (settings_of settings) allowance left.now right.now answer.old)
        result answer.new }
{
    let cut = either_cut_short(format.kind, left, right);
    if let Err(refusal) = tested(cut, answer.len(), allowance) {
        return refusal.number();
    }
    let Ok(format) = format.format() else {
        return Refusal::NoSuchFormat.number();
    };
    let estimate = dot_bytes_within(format, settings, left, right, allowance);
    enter_estimate(estimate, answer)
}
