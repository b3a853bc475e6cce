// Rows of one total in several formats, each worked out through the exported entry.
use crate::row::{at_most, bytes_in, laid_words, signed_at};
use crate::ways::leaves;
use hexadecimal::number;
use targets::entry::enter_sum_into;
use totals::entry::NamedFormat;

// The length of a row.
pub const ROW: usize = 1371;

// Where a row has the numbers of the targets, the values, and the answer's buffer before the call
// and after it.
const TARGETS: usize = 69;

const VALUES: usize = 732;

const BEFORE: usize = 953;

const AFTER: usize = 1162;

// The numbers of three targets, and the bytes that may be lent of them: eight more, so that too
// many may be lent.
const NUMBERS: usize = 39;

const TARGET_BYTES: usize = 320;

// The most values, the bytes that may be lent of them, and those of the buffer. A list may end
// within a value.
const LIST: usize = 13;

const BYTES: usize = 104;

const BUFFER: usize = 104;

// The entry with as many bytes of the targets and of the values as the row says.
fn enter(row: &[u8], answer: &mut [u8]) -> u64 {
    let targets: [u8; TARGET_BYTES] = laid_words(row, TARGETS, NUMBERS);
    let n = at_most(row, 32, 3, TARGET_BYTES);
    let values: [u8; BYTES] = laid_words(row, VALUES, LIST);
    let m = at_most(row, 36, 2, BYTES);
    let format = NamedFormat {
        kind: number(row, 2, 1),
        exponent_bits: number(row, 4, 2),
        width: number(row, 7, 2),
        bias_named: number(row, 10, 1),
        bias: signed_at(row, 12, 16),
    };
    enter_sum_into(
        format,
        number(row, 30, 1),
        &targets[..n],
        &values[..m],
        answer,
    )
}

// Whether the entry agrees with the row, with as much of the buffer as that says.
pub(crate) fn agrees(row: &[u8]) -> bool {
    leaves::<BUFFER, _>(
        |answer| enter(row, answer),
        bytes_in(row, BEFORE),
        at_most(row, 39, 2, BUFFER),
        number(row, 42, 1),
        bytes_in(row, AFTER),
    )
}
