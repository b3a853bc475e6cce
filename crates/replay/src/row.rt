// The fields of a row.
ghost use Rattle.std.specs.Prelude.{◌≡◌, ◌+◌, ◌*◌, ◌%◌, ◌^◌, ◌<◌, ◌≤◌, min, get_or};
ghost use Rattle.replay.specs.Row.{word_at, is_dot, named_in, format_in, told_format_in};
ghost use Rattle.replay.specs.Row.{settings_in, signed_at, answer_in, refused_in};
ghost use Rattle.replay.specs.Row.{words_in, laid_words, bytes_in, value_column, right_in};

use format::Format;
use format::settings::Settings;
use hexadecimal::number;
use reduction::total::Answer;
use std::array;
use totals::entry::NamedFormat;
use totals::refusal::Refusal;
use values::put_word;

// Where the values begin; and the length of a row of twelve of them, of a long one, of twenty-four,
// and of one that names a bias behind its twelve.
const VALUES: usize = 79;

// The values of a list in a row.
pub const FIGURES: usize = 12;

pub const ROW: usize = 283;

pub const LONG: usize = 487;

pub const BIASED: usize = 301;

// The length of a row of pence, and of one that names a bias.
pub const PENCE: usize = 49;

pub const BIASED_PENCE: usize = 67;

// The length of a row of a table that names a bias. Without one it is as long as a long row.
pub const BIASED_TABLE: usize = 505;

fn byte_at(row: &[u8], i: usize) -> u8
    ensures { result ≡ get_or row.now i 48 }
{
    row.get(i).copied().unwrap_or(b'0')
}

pub fn is_dot(row: &[u8]) -> bool
    ensures { result ≡ is_dot row.now }
{
    byte_at(row, 0) == b'd'
}

// The bias behind all else, in a row that names one.
fn named_at(row: &[u8]) -> Option<i64>
    ensures { result ≡ named_in row.now }
{
    match row.len() {
        BIASED => Some(signed_at(row, 283, 16)),
        BIASED_PENCE => Some(signed_at(row, 49, 16)),
        BIASED_TABLE => Some(signed_at(row, 487, 16)),
        _ => None,
    }
}

pub fn format_at(row: &[u8]) -> Format
    ensures { result ≡ format_in row.now }
{
    let named = named_at(row);
    Format {
        kind: number(row, 2, 1),
        exponent_bits: number(row, 4, 2),
        width: number(row, 7, 2),
        named,
    }
}

// The format of a row that tells whether it names a bias, and has the bias behind that.
pub fn told_format_at(row: &[u8]) -> Format
    ensures { result ≡ told_format_in row.now }
{
    let format = format_at(row);
    if number(row, 32, 1) == 0 {
        return format;
    }
    Format {
        named: Some(signed_at(row, 34, 16)),
        ..format
    }
}

// The format of such a row as its five numbers name it, or do not.
pub fn named_format_at(row: &[u8]) -> NamedFormat {
    NamedFormat {
        kind: number(row, 2, 1),
        exponent_bits: number(row, 4, 2),
        width: number(row, 7, 2),
        bias_named: number(row, 32, 1),
        bias: signed_at(row, 34, 16),
    }
}

pub fn settings_at(row: &[u8]) -> Settings
    ensures { result ≡ settings_in row.now }
{
    Settings {
        rounding: number(row, 10, 1),
        tininess: number(row, 11, 1),
        nan_propagation: number(row, 12, 1),
        default_nan_negative: number(row, 13, 1),
        flush_to_zero: number(row, 14, 1),
        denormals_are_zero: number(row, 15, 1),
        saturate: number(row, 16, 1),
        precision: number(row, 18, 2),
    }
}

pub fn summand_at(row: &[u8]) -> u64
    ensures { result ≡ word_at row.now 21 1 }
{
    number(row, 21, 1)
}

// A number of some digits, as that of a list's values, but no higher than another.
pub fn at_most(row: &[u8], at: usize, digits: usize, most: usize) -> usize
    ensures { result ≡ min (word_at row.now at digits) most }
{
    (number(row, at, digits) as usize).min(most)
}

// A sign, and n digits behind it.
pub fn signed_at(row: &[u8], at: usize, n: usize) -> i64
    requires { at < 512 }
    ensures { result ≡ signed_at row.now at n }
{
    let m = (number(row, at + 1, n) % 9223372036854775808) as i64;
    if byte_at(row, at) == b'-' { -m } else { m }
}

// The record that a row expects.
pub fn answer_at(row: &[u8]) -> Answer
    ensures { result ≡ answer_in row.now }
{
    Answer {
        result: number(row, 32, 16),
        flags: number(row, 49, 2),
        passes: number(row, 52, 6),
        last_edge: signed_at(row, 59, 8),
        side: number(row, 77, 1),
    }
}

// The record of a total that is refused.
const NOTHING: Answer = Answer {
    result: 0,
    flags: 0,
    passes: 0,
    last_edge: 0,
    side: 0,
};

// A refusal's number and place, both 0 where a call is accepted.
#[derive(Clone, Copy)]
pub struct Refused {
    pub number: u64,
    pub place: u64,
}

// What a row has of a refusal, at two columns.
pub fn refused_at(row: &[u8], number_column: usize, place_column: usize) -> Refused
    ensures { result ≡ refused_in row.now number_column place_column }
{
    Refused {
        number: number(row, number_column, 1),
        place: number(row, place_column, 1),
    }
}

// The same of a row of pence, behind the figure, its sign and 16 digits.
pub fn pence_refused_at(row: &[u8], column: usize) -> Refused
    requires { column < 512 }
    ensures { result ≡ refused_in row.now (column + 18) (column + 20) }
{
    Refused {
        number: number(row, column + 18, 1),
        place: number(row, column + 20, 1),
    }
}

// Whether a refusal is the one that a row expects.
pub fn is_refused(refusal: Refusal, wanted: Refused) -> bool {
    refusal.number() == wanted.number && refusal.place() == wanted.place
}

// Whether a total is the record that a row expects.
pub fn is_told(row: &[u8], total: Result<Answer, Refusal>) -> bool {
    let wanted = refused_at(row, 69, 71);
    match total {
        Ok(answer) => wanted.number == 0 && wanted.place == 0 && answer == answer_at(row),
        Err(refusal) => is_refused(refusal, wanted) && answer_at(row) == NOTHING,
    }
}

// Whether a number, as of pence, is the one that a row expects, or is refused as it says.
pub fn is_number<T: Copy + PartialEq>(
    told: Result<T, Refusal>,
    wanted: Refused,
    number: T,
) -> bool {
    match told {
        Ok(found) => wanted.number == 0 && wanted.place == 0 && found == number,
        Err(refusal) => is_refused(refusal, wanted),
    }
}

// What the byte entry returns.
pub fn returned_at(row: &[u8]) -> u64
    ensures { result ≡ word_at row.now 73 3 }
{
    number(row, 73, 3)
}

// ---- lists

// N words of sixteen digits, one every seventeen columns.
pub fn words_in<const N: usize>(row: &[u8], column: usize) -> [u64; N]
    requires { column + 17 * N < 2 ^ 64 }
    ensures { result ≡ words_in row.now column N }
{
    array::from_fn(|i| number(row, column + 17 * i, 16))
}

// n of these words in bytes, and 255 in each byte behind them.
pub fn laid_words<const N: usize>(row: &[u8], column: usize, n: usize) -> [u8; N]
    requires bytes { 8 * n ≤ N }
    requires columns { column + 17 * n < 2 ^ 64 }
    ensures { result ≡ laid_words row.now column n N }
{
    let mut bytes = [255u8; N];
    for i in 0..n {
        put_word(&mut bytes, 8 * i, number(row, column + 17 * i, 16));
    }
    bytes
}

// The byte of two digits.
pub fn byte_in(row: &[u8], column: usize) -> u8
    ensures { result ≡ word_at row.now column 2 % 256 }
{
    (number(row, column, 2) % 256) as u8
}

// N bytes, one every two columns.
pub fn bytes_in<const N: usize>(row: &[u8], column: usize) -> [u8; N]
    requires { column + 2 * N < 2 ^ 64 }
    ensures { result ≡ bytes_in row.now column N }
{
    array::from_fn(|i| byte_in(row, column + 2 * i))
}

// The first value of a dot's right list: behind the left one's six places, or twelve in a long row.
fn right_at(row: &[u8]) -> usize
    ensures { result ≡ right_in row.now }
{
    if row.len() < LONG { 6 } else { 12 }
}

// Twelve values from one on. A sum's list begins at the value 0, and so does a dot's left list.
pub fn words_at(row: &[u8], first: usize) -> [u64; FIGURES]
    requires { first ≤ 18 }
    ensures { result ≡ words_in row.now (value_column first) 12 }
{
    words_in(row, VALUES + 17 * first)
}

// The same in bytes, and eight bytes more, so that a list may end within a value.
pub fn bytes_at(row: &[u8], first: usize) -> [u8; 104]
    requires { first ≤ 12 }
    ensures { result ≡ laid_words row.now (value_column first) 12 104 }
{
    laid_words(row, VALUES + 17 * first, FIGURES)
}

pub fn right_words(row: &[u8]) -> [u64; FIGURES]
    ensures { result ≡ words_in row.now (value_column (right_in row.now)) 12 }
{
    words_at(row, right_at(row))
}

pub fn right_bytes(row: &[u8]) -> [u8; 104]
    ensures { result ≡ laid_words row.now (value_column (right_in row.now)) 12 104 }
{
    bytes_at(row, right_at(row))
}
