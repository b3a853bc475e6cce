// Rows of totals within an allowance of passes, each worked out through an exported entry.
use crate::row::{
    at_most, bytes_in, is_dot, laid_words, named_format_at, returned_at, settings_at, summand_at,
};
use crate::ways::leaves;
use hexadecimal::number;
use targets::entry_within::{enter_dot_within, enter_sum_within};

// The length of a row.
pub const ROW: usize = 1112;

// Where a row has the allowance, the answer's buffer before the call and after it, the values of
// its lists, and those of a dot's right one.
const ALLOWANCE: usize = 77;

const BEFORE: usize = 94;

const AFTER: usize = 399;

const LISTS: usize = 704;

const RIGHT: usize = 908;

// The most values of a list, the bytes that may be lent of them, and those of the buffer. A list
// may end within a value.
const LIST: usize = 12;

const BYTES: usize = 104;

const BUFFER: usize = 152;

// The entry with as many bytes of the lists as the row says.
fn enter(row: &[u8], answer: &mut [u8]) -> u64 {
    let format = named_format_at(row);
    let settings = settings_at(row);
    let allowance = number(row, ALLOWANCE, 16);
    let left: [u8; BYTES] = laid_words(row, LISTS, LIST);
    let n = at_most(row, 23, 2, BYTES);
    if is_dot(row) {
        let right: [u8; BYTES] = laid_words(row, RIGHT, LIST);
        let m = at_most(row, 26, 2, BYTES);
        return enter_dot_within(format, settings, allowance, &left[..n], &right[..m], answer);
    }
    enter_sum_within(
        format,
        settings,
        summand_at(row),
        allowance,
        &left[..n],
        answer,
    )
}

// Whether the entry agrees with the row, with as much of the buffer as that says.
pub(crate) fn agrees(row: &[u8]) -> bool {
    leaves::<BUFFER, _>(
        |answer| enter(row, answer),
        bytes_in(row, BEFORE),
        at_most(row, 29, 2, BUFFER),
        returned_at(row),
        bytes_in(row, AFTER),
    )
}
