//! Why a line is refused.

ghost use Rattle.std.specs.Prelude.{◌≡◌, ◌≤◌, take, IsTrue, IfSome, IsNone};
ghost use Rattle.std.proofs.Math.Option.{none};
ghost use Rattle.totals_spec.specs.program.Program.{lines, line_value};
ghost use Rattle.text.specs.Reading.{first_line};
ghost use Rattle.text.specs.Reasons.{AreDigits, StandsFirst, ReturnsLast, Tells, byte_order_mark};

use hexadecimal::digit;
use thiserror::Error;

/// The most lines that an input has.
pub(crate) const MOST_LINES: usize = 8192;

/// What is wrong with a line. A column is counted from 1, a byte a column.
#[derive(Clone, Copy, Debug, Error, PartialEq, Eq)]
pub enum Reason {
    /// There is no room for one line more.
    #[error("there are more than 8,192 lines")]
    TooManyLines,
    /// The first line begins with the mark that some editors put in front of UTF-8.
    #[error("it begins with a byte-order mark")]
    ByteOrderMark,
    /// It has no byte.
    #[error("it is empty")]
    Empty,
    /// Its end is that of another system.
    #[error("a carriage return stands before its end")]
    CarriageReturn,
    /// One of `A` to `F` stands at a column.
    #[error("column {0} has a capital letter, and hex digits are 0 to 9 and a to f")]
    Capital(usize),
    /// At a column, the first number, stands a byte, the second, that is no hex digit at all.
    #[error("column {0} has the byte {1:#04x}, and hex digits are 0 to 9 and a to f")]
    NotHex(usize, u8),
    /// It has so many digits, fewer than 16, and nothing else.
    #[error("it is too short: it has {0} of the 16 digits")]
    TooShort(usize),
    /// It goes on behind 16 digits.
    #[error("it is too long: it goes on behind 16 digits")]
    TooLong,
}

// The first of some bytes that is no digit: how many are before it.
fn first_stray(bytes: &[u8]) -> Option<usize>
    ensures none { IsNone result → AreDigits bytes.now }
    ensures some { IfSome result (λ place. StandsFirst place bytes.now) }
{
    for place in 0..bytes.len() {
        if digit(bytes[place]).is_none() {
            return Some(place);
        }
    }
    None
}

// What some bytes hold up to the first line end.
pub(crate) fn first_line(bytes: &[u8]) -> &[u8]
    ensures { result.now ≡ first_line (lines bytes.now) }
{
    for place in 0..bytes.len() {
        if bytes[place] == b'\n' {
            return &bytes[..place];
        }
    }
    bytes
}

// Whether a line begins with the three bytes of a byte-order mark.
fn is_marked(line: &[u8]) -> bool
    ensures { IsTrue result → take 3 line.now ≡ byte_order_mark }
{
    line.len() >= 3 && line[0] == 0xef && line[1] == 0xbb && line[2] == 0xbf
}

// Whether a carriage return stands last on a line of at most 17 bytes.
fn is_returned(line: &[u8]) -> bool
    ensures { IsTrue result → ReturnsLast line.now }
{
    0 < line.len() && line.len() <= 17 && line[line.len() - 1] == b'\r'
}

// Why a line is refused, by its number and its bytes.
pub(crate) fn reason_for(number: usize, line: &[u8]) -> Reason
    requires { number ≤ MOST_LINES → line_value line.now ≡ none }
    ensures { Tells result number line.now }
{
    if number > MOST_LINES {
        return Reason::TooManyLines;
    }
    if number == 1 && is_marked(line) {
        return Reason::ByteOrderMark;
    }
    if line.is_empty() {
        return Reason::Empty;
    }
    if is_returned(line) {
        return Reason::CarriageReturn;
    }
    match first_stray(&line[..line.len().min(16)]) {
        Some(place) => match line[place] {
            b'A'..=b'F' => Reason::Capital(place + 1),
            byte => Reason::NotHex(place + 1, byte),
        },
        None if line.len() < 16 => Reason::TooShort(line.len()),
        None => Reason::TooLong,
    }
}
