// Rows of the pence of one encoding.
use crate::row::{format_at, is_number, pence_refused_at, signed_at};
use hexadecimal::number;
use totals::pence::pence_of;

// Whether figure, refusal and place are those of the row.
pub(crate) fn agrees(row: &[u8]) -> bool {
    is_number(
        pence_of(format_at(row), number(row, 10, 16)),
        pence_refused_at(row, 27),
        signed_at(row, 27, 16),
    )
}
