// A case worked out over words, over bytes and through the byte entries.
ghost use Rattle.std.specs.Prelude.{◌≡◌, ◌<◌, ◌≤◌, IsTrue, take, drop, replicate};
ghost use Rattle.std.specs.Fn.{FnOnceReturnsAtMut};
ghost use Rattle.replay.specs.Row.{IsTold, word_at, lent_in, written_in};

use crate::row::{
    answer_at, at_most, bytes_at, format_at, is_dot, is_told, returned_at, right_bytes,
    right_words, settings_at, summand_at, words_at,
};
use promised_calls::entries::{enter_dot, enter_sum};
use reduction::total::Answer;
use totals::refusal::Refusal;
use totals::{dot, dot_bytes, sum, sum_bytes};
use values::put_word;

// Whether a format names a bias, as the entries are told, and the bias, which is 0 where there is
// none.
pub fn bias_of(named: Option<i64>) -> (u64, i64)
    ensures { IsTold named result.0 result.1 }
{
    match named {
        Some(bias) => (1, bias),
        None => (0, 0),
    }
}

fn total_words(row: &[u8]) -> Result<Answer, Refusal> {
    let format = format_at(row);
    let settings = settings_at(row);
    let left = words_at(row, 0);
    let n = at_most(row, 23, 1, 12);
    if is_dot(row) {
        let right = right_words(row);
        let m = at_most(row, 24, 1, 12);
        return dot(format, settings, &left[..n], &right[..m]);
    }
    sum(format, settings, summand_at(row), &left[..n])
}

pub(crate) fn by_words(row: &[u8]) -> bool {
    is_told(row, total_words(row))
}

// The length of a list in bytes: its values, and the bytes that the row adds to them.
fn length_at(row: &[u8], at: usize, more: usize) -> usize
    ensures { result < 104 }
{
    8 * at_most(row, at, 1, 12) + at_most(row, more, 1, 7)
}

fn total_bytes(row: &[u8]) -> Result<Answer, Refusal> {
    let format = format_at(row);
    let settings = settings_at(row);
    let left = bytes_at(row, 0);
    let n = length_at(row, 23, 26);
    if is_dot(row) {
        let right = right_bytes(row);
        let m = length_at(row, 24, 27);
        return dot_bytes(format, settings, &left[..n], &right[..m]);
    }
    sum_bytes(format, settings, summand_at(row), &left[..n])
}

pub(crate) fn by_bytes(row: &[u8]) -> bool {
    is_told(row, total_bytes(row))
}

fn enter(row: &[u8], answer: &mut [u8]) -> u64 {
    let format = format_at(row);
    let settings = settings_at(row);
    let left = bytes_at(row, 0);
    let n = length_at(row, 23, 26);
    if is_dot(row) {
        let right = right_bytes(row);
        let m = length_at(row, 24, 27);
        return enter_dot(format, settings, &left[..n], &right[..m], answer);
    }
    enter_sum(format, settings, summand_at(row), &left[..n], answer)
}

// The buffer after the call: an accepted record is written, a refused one is not.
fn written_at(row: &[u8]) -> [u8; 32]
    ensures { result ≡ written_in row.now }
{
    let mut answer = [0xa5u8; 32];
    let a = answer_at(row);
    if returned_at(row) == 0 {
        put_word(&mut answer, 0, a.result);
        put_word(&mut answer, 8, a.flags);
        put_word(&mut answer, 16, a.passes);
        answer[10] = (a.side % 256) as u8;
    }
    answer
}

// Whether an entry that is lent the first bytes of a buffer returns a number, and leaves the buffer
// as it has to be. What stands behind these bytes is compared too.
pub fn leaves<const N: usize, F: FnOnce(&mut [u8]) -> u64>(
    enter: F,
    before: [u8; N],
    lent: usize,
    returned: u64,
    after: [u8; N],
) -> bool
    requires callable { F.IsAlwaysCallable enter }
    requires within { lent ≤ N }
    ensures called { IsTrue result
        → FnOnceReturnsAtMut F.FnOnce enter (take lent before.entry) returned
        (take lent after.entry) }
    ensures behind { IsTrue result → drop lent before.entry ≡ drop lent after.entry }
{
    let mut buffer = before;
    enter(&mut buffer[..lent]) == returned && buffer == after
}

// Whether an entry agrees with a row, with as much of the answer's buffer as that says.
pub fn entry_agrees<F: FnOnce(&mut [u8]) -> u64>(row: &[u8], enter: F) -> bool
    requires { F.IsAlwaysCallable enter }
    ensures { IsTrue result
        → FnOnceReturnsAtMut F.FnOnce enter (take (lent_in row.now) (replicate 32 165))
        (word_at row.now 73 3) (take (lent_in row.now) (written_in row.now)) }
{
    leaves(
        enter,
        [0xa5; 32],
        at_most(row, 29, 2, 32),
        returned_at(row),
        written_at(row),
    )
}

pub(crate) fn by_entry(row: &[u8]) -> bool {
    entry_agrees(row, |answer| enter(row, answer))
}
