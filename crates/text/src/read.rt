//! Reading: a number a line, in 16 lower-case hex digits; the last line may lack its byte 10. A
//! good line is 17 bytes with its line end, so up to the first bad one the input is in pieces of 17
//! bytes.

ghost use Rattle.std.specs.Prelude.{◌≡◌, ◌≤◌, length};
ghost use Rattle.std.proofs.Math.Option.{some};
ghost use Rattle.totals_spec.specs.program.Program.{lines, hex_from, line_value, read_from};
ghost use Rattle.hexadecimal.specs.Digits.{option_of};
ghost use Rattle.text.specs.Reading.{first_line, result_of};

use arrayvec::ArrayVec;
use hexadecimal::digit;

/// The first line that is refused, counted from 1.
#[derive(Clone, Copy, Debug)]
pub(crate) struct BadLine {
    pub line: usize,
}

// The number that at most 16 digits write.
fn number(digits: &[u8]) -> Option<u64>
    requires { length digits.now ≤ 16 }
    ensures { result ≡ option_of (hex_from digits.now (some 0)) }
{
    let mut value: u64 = 0;
    for byte in digits {
        value = value * 16 + digit(*byte)?;
    }
    Some(value)
}

// The value of the line that some bytes begin with: 16 digits, and then a line end or the input's.
fn value(bytes: &[u8]) -> Option<u64>
    ensures { result ≡ option_of (line_value (first_line (lines bytes.now))) }
{
    let (digits, rest) = bytes.split_at_checked(16)?;
    if rest.first().is_some_and(|byte| *byte != b'\n') {
        return None;
    }
    number(digits)
}

// The values of the lines, or the first bad one. Line 8,193 is bad, whatever stands on it.
pub(crate) fn read_lines(input: &[u8]) -> Result<ArrayVec<u64, 8192>, BadLine>
    ensures { result ≡ result_of (read_from 1 (lines input.now)) }
{
    let mut values = ArrayVec::new();
    for piece in input.chunks(17) {
        let bad = BadLine {
            line: values.len() + 1,
        };
        if values.is_full() {
            return Err(bad);
        }
        values.push(value(piece).ok_or(bad)?);
    }
    Ok(values)
}
