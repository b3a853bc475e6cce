// Rows of values of ten bytes, each worked out through an exported byte entry.
use crate::row::{at_most, bytes_in, is_dot, returned_at, settings_at, summand_at, told_format_at};
use crate::ways::leaves;
use promised_calls::entries::{enter_dot, enter_sum};

// The length of a row.
pub const ROW: usize = 496;

// Where a row has the answer's buffer before the call and after it, the bytes of its lists, and
// those of a dot's right one.
const BEFORE: usize = 77;

const AFTER: usize = 158;

const LISTS: usize = 239;

const RIGHT: usize = 367;

// The most bytes of a list, and the bytes of the buffer.
const BYTES: usize = 128;

const BUFFER: usize = 40;

fn enter(row: &[u8], answer: &mut [u8]) -> u64 {
    let format = told_format_at(row);
    let settings = settings_at(row);
    let left: [u8; BYTES] = bytes_in(row, LISTS);
    let n = at_most(row, 23, 2, BYTES);
    if is_dot(row) {
        let right: [u8; BYTES] = bytes_in(row, RIGHT);
        let m = at_most(row, 26, 2, BYTES);
        return enter_dot(format, settings, &left[..n], &right[..m], answer);
    }
    enter_sum(format, settings, summand_at(row), &left[..n], answer)
}

// Whether the entry agrees with the row, with as much of the buffer as that says.
pub(crate) fn agrees(row: &[u8]) -> bool {
    leaves::<BUFFER, _>(
        |answer| enter(row, answer),
        bytes_in(row, BEFORE),
        at_most(row, 29, 2, BUFFER),
        returned_at(row),
        bytes_in(row, AFTER),
    )
}
