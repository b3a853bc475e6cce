// The byte entries of sums, dots and pence, over records. `totals_c` exports them over numbers, for
// callers in other languages.
ghost use Rattle.std.specs.Prelude.{◌≡◌, true, not, ◌||◌, ◌%◌, ◌<◌, eqb, length};
ghost use Rattle.totals_spec.specs.entries.Bytes as bytes;
ghost use Rattle.totals_spec.specs.ten_bytes.Extended as ten;
ghost use Rattle.totals_spec.specs.pence.Entry.{pence_entry};
ghost use Rattle.format.specs.Formats.{format_of};
ghost use Rattle.format.specs.Settings.{settings_of};
ghost use Rattle.reduction.specs.Answered.{answer_as};
ghost use Rattle.totals.specs.Asked.{answer_in};
ghost use Rattle.totals.specs.Refusal.{refusal_number, length_numbers};
ghost use Rattle.totals.specs.Entered.{Enters, EntersFigure, Fits, FitsTens, Named};

use crate::pence::pence_of_sum;
use crate::refusal::{Refusal, number, refuse_if};
use crate::{dot_bytes, extended, sum_bytes};
use format::Format;
use format::settings::Settings;
use reduction::total::{Answer, Wide};
use values::put_word;

/// The bytes of an answer: result, flags and side, passes.
pub const ANSWER_BYTES: usize = 24;

/// The bytes of an answer in kind 4, whose result has ten.
pub const TEN_ANSWER_BYTES: usize = 32;

/// The bytes of a value, and of one in kind 4.
pub const VALUE_BYTES: usize = 8;

pub const TEN_BYTES: usize = 10;

/// The kind of the values of ten bytes.
pub const TENS: u64 = 4;

/// In an answer the side is the third byte of its word, above the flags.
pub const SIDE: u64 = 65536;

// In an answer of kind 4 both stand above the head, which has two bytes.
const TEN_FLAGS: u64 = 65536;

const TEN_SIDE: u64 = 16777216;

/// A format as callers in other languages give it. The bias is named by two numbers: 1 and the
/// bias, or 0 and 0. Anything else was not set up as a whole, and either reading would be a guess.
#[derive(Clone, Copy)]
pub struct NamedFormat {
    pub kind: u64,
    pub exponent_bits: u64,
    pub width: u64,
    pub bias_named: u64,
    pub bias: i64,
}

impl NamedFormat {
    /// The format that is named as a whole; refused with 3 where none is.
    pub fn format(self) -> Result<Format, Refusal>
        ensures { Named self result }
    {
        let named = match (self.bias_named, self.bias) {
            (0, 0) => None,
            (1, _) => Some(self.bias),
            _ => return Err(Refusal::NoSuchFormat),
        };
        Ok(Format {
            kind: self.kind,
            exponent_bits: self.exponent_bits,
            width: self.width,
            named,
        })
    }
}

/// An accepted record is written; any other leaves the buffer as it was. Returns the refusal, plus
/// 256 times the place.
pub fn enter(total: Result<Answer, Refusal>, answer: &mut [u8]) -> u64
    requires { Fits (answer_in total) answer.old }
    ensures { Enters (bytes.entered (answer_in total) answer.old) result answer.new }
{
    match total {
        Ok(record) => {
            put_word(answer, 0, record.result);
            put_word(answer, 8, record.flags + SIDE * record.side);
            put_word(answer, 16, record.passes);
            0
        }
        Err(refusal) => refusal.code(),
    }
}

// The same of an accepted record of kind 4.
fn enter_tens(total: Wide, answer: &mut [u8])
    requires { FitsTens (answer_as true total) answer.old }
    ensures { answer.new ≡ ten.extended_written (answer_as true total) answer.old }
{
    let record = total.answer;
    put_word(answer, 0, record.result);
    put_word(
        answer,
        8,
        u64::from(total.head) + TEN_FLAGS * record.flags + TEN_SIDE * record.side,
    );
    put_word(answer, 16, 0);
    put_word(answer, 24, record.passes);
}

// Whether one of two lists ends within a value of so many bytes.
#[inline(always)]
fn either_cut(left: &[u8], right: &[u8], size: usize) -> bool
    requires { 0 < size }
    ensures { result
        ≡ (not (eqb (length left.now % size) 0) || not (eqb (length right.now % size) 0)) }
{
    left.len() % size != 0 || right.len() % size != 0
}

/// Refusals 1 and 2 of an entry: whether a list ends within a value, and the answer's bytes, of
/// which some are needed.
#[inline(always)]
pub fn lengths(cut: bool, room: usize, needed: usize) -> Result<(), Refusal>
    ensures { refusal_number result ≡ length_numbers cut room needed }
{
    refuse_if(cut, Refusal::UnevenLength)?;
    refuse_if(room < needed, Refusal::ShortBuffer)
}

// A total of kind 4, whose values have ten bytes: the lengths first.
fn tens_sum(
    format: Format,
    settings: Settings,
    summand: u64,
    values: &[u8],
    answer: &mut [u8],
) -> Result<(), Refusal>
    ensures { Enters
        (ten.extended_sum_entry (format_of format) (settings_of settings) summand values.now
        answer.old) (refusal_number result) answer.new }
{
    lengths(
        values.len() % TEN_BYTES != 0,
        answer.len(),
        TEN_ANSWER_BYTES,
    )?;
    let (env, summand) = extended::sum_refusal(format, settings, summand, values)?;
    enter_tens(extended::sum(env, summand, values), answer);
    Ok(())
}

fn tens_dot(
    format: Format,
    settings: Settings,
    left: &[u8],
    right: &[u8],
    answer: &mut [u8],
) -> Result<(), Refusal>
    ensures { Enters
        (ten.extended_dot_entry (format_of format) (settings_of settings) left.now right.now
        answer.old) (refusal_number result) answer.new }
{
    lengths(
        either_cut(left, right, TEN_BYTES),
        answer.len(),
        TEN_ANSWER_BYTES,
    )?;
    let env = extended::dot_refusal(format, settings, left, right)?;
    enter_tens(extended::dot(env, left, right), answer);
    Ok(())
}

/// The entry of a sum of the values (summand 0), of their magnitudes (1) or of their squares (2):
/// an accepted total is written into the answer's first 24 bytes, 32 in kind 4, whose values have
/// ten bytes and all others eight. Returns 0, or the refusal plus 256 times its place, and then
/// nothing is written (the specification, "Byte entries").
//
// Kind 4 is told apart before anything else is looked at. It is not inlined: `sum_bytes` would have
// several callers then, and be compiled apart, and its records would go through memory once more,
// which takes a twentieth of a call with one element.
pub fn enter_sum(
    format: Format,
    settings: Settings,
    summand: u64,
    values: &[u8],
    answer: &mut [u8],
) -> u64
    ensures { Enters
        (ten.sum_call (format_of format) (settings_of settings) summand values.now answer.old)
        result answer.new }
{
    if format.kind == TENS {
        return number(tens_sum(format, settings, summand, values, answer));
    }
    if let Err(refusal) = lengths(values.len() % VALUE_BYTES != 0, answer.len(), ANSWER_BYTES) {
        return refusal.number();
    }
    enter(sum_bytes(format, settings, summand, values), answer)
}

/// The entry of the sum of the products of the pairs: all else is as in `enter_sum`.
pub fn enter_dot(
    format: Format,
    settings: Settings,
    left: &[u8],
    right: &[u8],
    answer: &mut [u8],
) -> u64
    ensures { Enters
        (ten.dot_call (format_of format) (settings_of settings) left.now right.now answer.old)
        result answer.new }
{
    if format.kind == TENS {
        return number(tens_dot(format, settings, left, right, answer));
    }
    if let Err(refusal) = lengths(
        either_cut(left, right, VALUE_BYTES),
        answer.len(),
        ANSWER_BYTES,
    ) {
        return refusal.number();
    }
    enter(dot_bytes(format, settings, left, right), answer)
}

/// The entry of the pence of the exact sum of a list: one encoding to a word. Returns 0 and writes
/// the figure, or the refusal plus 256 times its place, and then the figure is as it was (the
/// specification, "Pence").
pub fn enter_pence(format: NamedFormat, values: &[u64], figure: &mut i64) -> u64
    ensures { EntersFigure
        (pence_entry format.kind format.exponent_bits format.width format.bias_named
        format.bias values.now figure.old) result figure.new }
{
    let Ok(format) = format.format() else {
        return Refusal::NoSuchFormat.number();
    };
    match pence_of_sum(format, values) {
        Ok(pence) => {
            *figure = pence;
            0
        }
        Err(refusal) => refusal.code(),
    }
}
