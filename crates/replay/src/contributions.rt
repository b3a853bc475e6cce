// Rows of contributions, each worked out over words, over bytes and through the exported entry.
ghost use Rattle.std.specs.Prelude.{◌≡◌};
ghost use Rattle.totals_spec.specs.entries.Words.{misnamed};
ghost use Rattle.replay.specs.Row.{word_at, signed_at};

use crate::row::{
    at_most, bytes_in, is_number, laid_words, named_format_at, refused_at, returned_at,
    settings_at, signed_at, told_format_at, words_in,
};
use crate::ways::leaves;
use hexadecimal::number;
use targets::contribution::{contribution_bytes_to, contribution_to};
use targets::entry_contribution::enter_contribution;
use totals::refusal::Refusal;

// The length of a row.
pub const ROW: usize = 383;

// Where a row has the wanted total, the number found, the answer's buffer before the call and after
// it, and the values of the list.
const WANTED: usize = 79;

const NUMBER: usize = 96;

const BEFORE: usize = 113;

const AFTER: usize = 146;

const LIST: usize = 179;

// The most values of the list, the bytes that may be lent of them, and those of the buffer. A list
// of bytes may end within a value.
const VALUES: usize = 12;

const BYTES: usize = 104;

const BUFFER: usize = 16;

// Whether the five numbers of the row's format name none, which the entry alone can be asked for.
fn misnamed(row: &[u8]) -> bool
    ensures { result ≡ misnamed (word_at row.now 32 1) (signed_at row.now 34 16) }
{
    match number(row, 32, 1) {
        0 => signed_at(row, 34, 16) != 0,
        1 => false,
        _ => true,
    }
}

// The number that the row expects.
fn expected_at(row: &[u8]) -> u64
    ensures { result ≡ word_at row.now 96 16 }
{
    number(row, NUMBER, 16)
}

// Whether a contribution is the one that the row expects, or is refused as it says.
fn told_as(row: &[u8], contribution: Result<u64, Refusal>) -> bool {
    is_number(contribution, refused_at(row, 21, 77), expected_at(row))
}

pub(crate) fn by_words(row: &[u8]) -> bool {
    let values: [u64; VALUES] = words_in(row, LIST);
    let n = at_most(row, 23, 2, VALUES);
    let wanted = number(row, WANTED, 16);
    told_as(
        row,
        contribution_to(told_format_at(row), settings_at(row), &values[..n], wanted),
    )
}

// With the bytes that the row adds behind the values.
pub(crate) fn by_bytes(row: &[u8]) -> bool {
    let values: [u8; BYTES] = laid_words(row, LIST, VALUES);
    let n = 8 * at_most(row, 23, 2, VALUES) + at_most(row, 26, 2, 7);
    let wanted = number(row, WANTED, 16);
    told_as(
        row,
        contribution_bytes_to(told_format_at(row), settings_at(row), &values[..n], wanted),
    )
}

fn enter(row: &[u8], answer: &mut [u8]) -> u64 {
    let values: [u64; VALUES] = words_in(row, LIST);
    let n = at_most(row, 23, 2, VALUES);
    let format = named_format_at(row);
    let wanted = number(row, WANTED, 16);
    enter_contribution(format, settings_at(row), wanted, &values[..n], answer)
}

// Whether the entry agrees with the row, with as much of the buffer as that says.
pub(crate) fn by_entry(row: &[u8]) -> bool {
    leaves::<BUFFER, _>(
        |answer| enter(row, answer),
        bytes_in(row, BEFORE),
        at_most(row, 29, 2, BUFFER),
        returned_at(row),
        bytes_in(row, AFTER),
    )
}

// Whether all three ways agree with the row, or the entry alone, where the format is misnamed.
pub(crate) fn agrees(row: &[u8]) -> bool {
    by_entry(row) && (misnamed(row) || by_words(row) && by_bytes(row))
}
