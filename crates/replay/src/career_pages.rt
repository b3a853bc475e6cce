// Rows of career pages: spans worked out by `page_sum` and through the exported entry, and pages
// written through theirs.
ghost use Rattle.std.specs.Prelude.{◌<◌, ◌≤◌};

use crate::row::{at_most, byte_in, is_told, settings_at, summand_at};
use crate::ways::entry_agrees;
use hexadecimal::number;
use pages::entry::{enter_page_sum, enter_page_write};
use pages::span::page_sum;
use std::array;

// The lengths of rows: of spans, and of pages that are written, each with pages of up to 208 bytes,
// and with longer ones.
pub const SPAN: usize = 530;

pub const LONG_SPAN: usize = 2306;

pub const WRITTEN: usize = 791;

pub const LONG_WRITTEN: usize = 4279;

// The most bytes of a page, and the most values of one that is written.
const MOST: usize = 1096;

const VALUES: usize = 129;

// A buffer has room for a page at each of its first eight places.
const BUFFER: usize = 1104;

// Where a row has the ends of a span, and the page.
const START: usize = 79;

const END: usize = 96;

const PAGE: usize = 113;

// Where a row of a page that is written has the values. The page stands behind them.
const LIST: usize = 21;

// A buffer before a call: no two bytes of it that lie side by side are alike.
fn before(first: u8) -> [u8; BUFFER] {
    array::from_fn(|i| ((usize::from(first) + i) % 256) as u8)
}

// The same with n bytes at a place, which the row has from a column on.
fn laid(row: &[u8], first: u8, column: usize, place: usize, n: usize) -> [u8; BUFFER]
    requires { (column < 4096) × (place ≤ 7) × (n ≤ 1096) }
{
    let mut bytes = before(first);
    for i in 0..n {
        bytes[place + i] = byte_in(row, column + 2 * i);
    }
    bytes
}

// ---- spans

fn page_at(row: &[u8]) -> [u8; BUFFER] {
    laid(
        row,
        0xa5,
        PAGE,
        at_most(row, 6, 1, 7),
        at_most(row, 2, 3, MOST),
    )
}

// What a function answers that is lent the row's page, and told the ends of the span.
fn asked<T, F: FnOnce(&[u8], usize, usize) -> T>(row: &[u8], ask: F) -> T
    requires { F.IsAlwaysCallable ask }
{
    let bytes = page_at(row);
    let a = at_most(row, 6, 1, 7);
    let e = a + at_most(row, 2, 3, MOST);
    let start = number(row, START, 16) as usize;
    let end = number(row, END, 16) as usize;
    ask(&bytes[a..e], start, end)
}

pub(crate) fn by_function(row: &[u8]) -> bool {
    let total = asked(
        row,
        |page, start, end| page_sum(settings_at(row), summand_at(row), page, start, end),
    );
    is_told(row, total)
}

pub(crate) fn by_entry(row: &[u8]) -> bool {
    entry_agrees(
        row,
        |answer| asked(
            row,
            |page, start, end| enter_page_sum(
                settings_at(row),
                summand_at(row),
                page,
                start,
                end,
                answer,
            ),
        ),
    )
}

// Whether both ways agree with a row of a span.
pub(crate) fn span_agrees(row: &[u8]) -> bool {
    by_function(row) && by_entry(row)
}

// ---- pages that are written

fn values_at(row: &[u8]) -> [u64; VALUES] {
    array::from_fn(|i| number(row, LIST + 16 * i, 16))
}

// The entry with as many values, and as much of the buffer, as the row says.
fn write_part(row: &[u8], page: &mut [u8; BUFFER]) -> u64 {
    let values = values_at(row);
    let n = at_most(row, 2, 2, VALUES);
    let a = at_most(row, 9, 1, 7);
    let e = a + at_most(row, 5, 3, MOST);
    enter_page_write(&values[..n], &mut page[a..e])
}

// Whether the entry agrees with a row of a page that is written. What lies before and behind the
// part that is lent is compared too.
pub(crate) fn page_agrees(row: &[u8]) -> bool {
    let first = byte_in(row, 11);
    let mut page = before(first);
    let returned = write_part(row, &mut page);
    let column = LIST + 16 * at_most(row, 2, 2, VALUES) + 1;
    let wanted = laid(
        row,
        first,
        column,
        at_most(row, 9, 1, 7),
        at_most(row, 5, 3, MOST),
    );
    returned == number(row, 14, 6) && page == wanted
}
