// Rows of the pence of a list, each worked out by `pence_of_sum` and through the exported entry.
ghost use Rattle.std.specs.Prelude.{◌≤◌};

use crate::row::{Refused, at_most, format_at, is_number, pence_refused_at, signed_at, words_at};
use crate::ways::bias_of;
use format::Format;
use totals::entry::{NamedFormat, enter_pence};
use totals::pence::pence_of_sum;

// What a figure is before a call. A refused call leaves it.
const BEFORE: i64 = 7777777777777777777;

pub(crate) fn by_function(row: &[u8]) -> bool {
    let values = words_at(row, 0);
    let n = at_most(row, 10, 1, 12);
    is_number(
        pence_of_sum(format_at(row), &values[..n]),
        pence_refused_at(row, 12),
        signed_at(row, 12, 16),
    )
}

// A format as the entry is told it: by whether it names a bias.
pub fn named_format(format: Format) -> NamedFormat {
    let (bias_named, bias) = bias_of(format.named);
    NamedFormat {
        kind: format.kind,
        exponent_bits: format.exponent_bits,
        width: format.width,
        bias_named,
        bias,
    }
}

// Whether an entry returned the number and the place, and left the figure that a call with such an
// answer leaves.
fn left(wanted: Refused, pence: i64, returned: u64, figure: i64) -> bool {
    if wanted.number == 0 {
        returned == 0 && figure == pence
    } else {
        returned % 256 == wanted.number && returned / 256 == wanted.place && figure == BEFORE
    }
}

pub(crate) fn by_entry(row: &[u8]) -> bool {
    let values = words_at(row, 0);
    let n = at_most(row, 10, 1, 12);
    let mut figure = BEFORE;
    let returned = enter_pence(named_format(format_at(row)), &values[..n], &mut figure);
    left(
        pence_refused_at(row, 12),
        signed_at(row, 12, 16),
        returned,
        figure,
    )
}

// Whether both ways agree with the row.
pub(crate) fn agrees(row: &[u8]) -> bool {
    by_function(row) && by_entry(row)
}

// Whether the entry refuses a bias, said to be named by a number, with 3. The list is one of
// binary16, or has a stray bit.
fn refused_bias(bias_named: u64, bias: i64, bits: u64) -> bool {
    let values = [15360, bits];
    let mut figure = BEFORE;
    let format = NamedFormat {
        kind: 0,
        exponent_bits: 5,
        width: 16,
        bias_named,
        bias,
    };
    let returned = enter_pence(format, &values, &mut figure);
    returned == 3 && figure == BEFORE
}

// How many of eight answers are 3: a bias that is named neither by 1 nor, being 0, by 0.
pub fn misnamed() -> u64
    ensures { result ≤ 8 }
{
    let cases = [
        (0, 1, 15360),
        (0, -1, 15360),
        (0, 15, 65536),
        (0, 9223372036854775807, 31744),
        (2, 0, 15360),
        (2, 15, 65536),
        (256, 0, 15360),
        (18446744073709551615, -1, 32256),
    ];
    let refused = cases
        .iter()
        .filter(|&&(bias_named, bias, bits)| refused_bias(bias_named, bias, bits))
        .count();
    refused as u64
}
