// Rows of tables, each worked out by `table` and through the exported entry.
ghost use Rattle.std.specs.Prelude.{◌^◌, ◌<◌, ◌≤◌};

use crate::lists::named_format;
use crate::row::{
    at_most, format_at, is_told, refused_at, returned_at, settings_at, words_at, words_in,
};
use crate::ways::entry_agrees;
use figures::entry::enter_table;
use figures::table::table;
use format::settings::Settings;
use hexadecimal::number;
use reduction::total::Answer;
use std::array;
use totals::entry::NamedFormat;
use totals::refusal::Refusal;

// Where a row has the number of its table's rows and of its columns, behind the cells; and the
// totals, those of the rows first.
const ROWS: usize = 283;

const COLUMNS: usize = 300;

const TOTALS: usize = 317;

// How many rows and columns a table is said to have.
#[derive(Clone, Copy)]
struct Sides {
    rows: usize,
    columns: usize,
}

fn sides_at(row: &[u8]) -> Sides {
    Sides {
        rows: number(row, ROWS, 16) as usize,
        columns: number(row, COLUMNS, 16) as usize,
    }
}

// A list for totals before a call, no two of its words alike.
fn before() -> [u64; 16] {
    array::from_fn(|i| 0xa5a5a5a5a5a5a500 + i as u64)
}

// The same after a call that wrote n totals, which the row has from one on.
fn after(row: &[u8], first: usize, n: usize) -> [u64; 16]
    requires { (first ≤ 16) × (n ≤ 16) }
{
    let mut words = before();
    let totals: [u64; 16] = words_in(row, TOTALS + 17 * first);
    words[..n].copy_from_slice(&totals[..n]);
    words
}

// Whether both lists are what a call leaves, one that is refused or one that is not.
fn left(row: &[u8], refused: bool, row_totals: [u64; 16], column_totals: [u64; 16]) -> bool {
    if refused {
        return row_totals == before() && column_totals == before();
    }
    let sides = sides_at(row);
    let rows = sides.rows.min(16);
    row_totals == after(row, 0, rows) && column_totals == after(row, rows, sides.columns.min(16))
}

// What a function answers that is lent as much of the cells and of the lists as the row says.
fn asked<T, F: FnOnce(&[u64], &mut [u64], &mut [u64]) -> T>(
    row: &[u8],
    row_totals: &mut [u64; 16],
    column_totals: &mut [u64; 16],
    ask: F,
) -> T
    requires { F.IsAlwaysCallable ask }
{
    let cells = words_at(row, 0);
    let n = at_most(row, 21, 1, 12);
    let r = at_most(row, 23, 1, 16);
    let k = at_most(row, 24, 1, 16);
    ask(&cells[..n], &mut row_totals[..r], &mut column_totals[..k])
}

fn worked(
    row: &[u8],
    row_totals: &mut [u64; 16],
    column_totals: &mut [u64; 16],
) -> Result<Answer, Refusal> {
    let format = format_at(row);
    let settings = settings_at(row);
    let sides = sides_at(row);
    asked(
        row,
        row_totals,
        column_totals,
        |cells, rows, columns| table(
            format,
            settings,
            sides.rows,
            sides.columns,
            cells,
            rows,
            columns,
        ),
    )
}

pub(crate) fn by_function(row: &[u8]) -> bool {
    let mut row_totals = before();
    let mut column_totals = before();
    let total = worked(row, &mut row_totals, &mut column_totals);
    let is_refused = refused_at(row, 69, 71).number != 0;
    is_told(row, total) && left(row, is_refused, row_totals, column_totals)
}

// Through the entry, which is told whether the format names a bias.
fn entered(
    row: &[u8],
    row_totals: &mut [u64; 16],
    column_totals: &mut [u64; 16],
    answer: &mut [u8],
) -> u64 {
    let format = named_format(format_at(row));
    let settings = settings_at(row);
    let sides = sides_at(row);
    asked(
        row,
        row_totals,
        column_totals,
        |cells, rows, columns| enter_table(
            format,
            settings,
            sides.rows,
            sides.columns,
            cells,
            rows,
            columns,
            answer,
        ),
    )
}

pub(crate) fn by_entry(row: &[u8]) -> bool {
    let mut row_totals = before();
    let mut column_totals = before();
    let agrees = entry_agrees(
        row,
        |answer| entered(row, &mut row_totals, &mut column_totals, answer),
    );
    agrees && left(row, returned_at(row) != 0, row_totals, column_totals)
}

// Whether both ways agree with the row.
pub(crate) fn agrees(row: &[u8]) -> bool {
    by_function(row) && by_entry(row)
}

// Whether the entry returns a number and writes nothing, at one row of two cells in binary16, said
// to be so many columns, a bias that is said to be named by a number, and a buffer of N bytes.
fn refuses<const N: usize>(
    returned: u64,
    bias_named: u64,
    bias: i64,
    bits: u64,
    columns: usize,
) -> bool
    requires { N < 2 ^ 63 }
{
    let cells = [15360, bits];
    let mut row_totals = before();
    let mut column_totals = before();
    let mut answer = [0xa5u8; N];
    let format = NamedFormat {
        kind: 0,
        exponent_bits: 5,
        width: 16,
        bias_named,
        bias,
    };
    let number = enter_table(
        format,
        Settings::default(),
        1,
        columns,
        &cells,
        &mut row_totals,
        &mut column_totals,
        &mut answer,
    );
    number == returned && answer == [0xa5; N] && row_totals == before() && column_totals == before()
}

// With 3, and with 2 where the buffer is a byte too short.
fn refused_bias(bias_named: u64, bias: i64, bits: u64, columns: usize) -> bool {
    refuses::<24>(3, bias_named, bias, bits, columns)
        && refuses::<23>(2, bias_named, bias, bits, columns)
}

// How many of eight biases are refused so: each is named neither by 1 nor, being 0, by 0. Some
// stand beside 7, 9 and 10.
pub fn misnamed() -> u64
    ensures { result ≤ 8 }
{
    let cases = [
        (0, 1, 15360, 2),
        (0, -1, 15360, 2),
        (0, 15, 65536, 2),
        (0, 9223372036854775807, 31744, 3),
        (2, 0, 15360, 2),
        (2, 15, 65536, 17),
        (256, 0, 15360, 2),
        (18446744073709551615, -1, 32256, 2),
    ];
    let refused = cases
        .iter()
        .filter(|&&(bias_named, bias, bits, columns)| refused_bias(bias_named, bias, bits, columns))
        .count();
    refused as u64
}
