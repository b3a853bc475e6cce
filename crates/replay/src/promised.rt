// The promises on the call of a row, by the functions whose contracts they are: a refused call is
// refused, and an accepted one without a NaN has the same record, and the same bytes in a second
// buffer, when its lists are given backwards. So have, of the list of a sum, its pence, a
// contribution, and its total in three targets, with a NaN too.
ghost use Rattle.std.specs.Prelude.{◌≤◌};

use crate::row::{
    FIGURES, at_most, format_at, is_dot, is_told, right_words, settings_at, summand_at, words_at,
};
use binary::decode;
use format::Format;
use format::layout::Layout;
use format::settings::Settings;
use format::unpacked::Unpacked;
use promised_calls::contributions::contributions_entered;
use promised_calls::entries::{dots_entered, sums_entered};
use promised_calls::order::{dots_of, sums_of};
use promised_calls::pence::pence_entered;
use promised_calls::refusals::{dot_or_refusal, sum_or_refusal};
use promised_calls::several_formats::targets_entered;
use promised_calls::told::told_bias;
use promised_calls::within_entries::{dots_within_entered, sums_within_entered};
use values::put_word;

// The bytes of a list, those of three targets, and what stands in a second buffer.
const BYTES: usize = 96;

const TARGETS: usize = 312;

const BEFORE: u8 = 0xa5;

// The passes that a total within an allowance may take.
const ALLOWANCE: u64 = 2;

fn holds_nan(format: Format, values: &[u64]) -> bool {
    let Some(layout) = Layout::new(format) else {
        return false;
    };
    values.iter().any(|&bits| matches!(decode(layout, bits), Unpacked::Nan { .. }))
}

// The first n of some words, the last of them first.
fn backwards(words: [u64; FIGURES], n: usize) -> [u64; FIGURES]
    requires { n ≤ 12 }
{
    let mut moved = words;
    moved[..n].reverse();
    moved
}

fn laid(words: [u64; FIGURES]) -> [u8; BYTES] {
    let mut bytes = [0u8; BYTES];
    for i in 0..FIGURES {
        put_word(&mut bytes, 8 * i, words[i]);
    }
    bytes
}

// Whether two accepted calls left the same answer, the second with what stood behind it.
fn same_answer(returned: (u64, u64), answer: &[u8], again: &[u8]) -> bool {
    let Some((front, behind)) = again.split_at_checked(answer.len()) else {
        return false;
    };
    returned == (0, 0) && front == answer && behind.iter().all(|&b| b == BEFORE)
}

fn sums_keep(
    format: Format,
    settings: Settings,
    summand: u64,
    values: [u64; FIGURES],
    n: usize,
) -> bool
    requires { n ≤ 12 }
{
    let moved = backwards(values, n);
    let (first, second) = sums_of(format, settings, summand, &values[..n], &moved[..n]);
    let mut answer = [0u8; 24];
    let mut again = [BEFORE; 40];
    let returned = sums_entered(
        format,
        settings,
        summand,
        &laid(values)[..8 * n],
        &laid(moved)[..8 * n],
        &mut answer,
        &mut again,
    );
    first == second && same_answer(returned, &answer, &again)
}

fn dots_keep(
    format: Format,
    settings: Settings,
    left: [u64; FIGURES],
    right: [u64; FIGURES],
    n: usize,
) -> bool
    requires { n ≤ 12 }
{
    let moved_left = backwards(left, n);
    let moved_right = backwards(right, n);
    let (first, second) = dots_of(
        format,
        settings,
        &left[..n],
        &right[..n],
        &moved_left[..n],
        &moved_right[..n],
    );
    let mut answer = [0u8; 24];
    let mut again = [BEFORE; 40];
    let returned = dots_entered(
        format,
        settings,
        &laid(left)[..8 * n],
        &laid(right)[..8 * n],
        &laid(moved_left)[..8 * n],
        &laid(moved_right)[..8 * n],
        &mut answer,
        &mut again,
    );
    first == second && same_answer(returned, &answer, &again)
}

fn sums_within_keep(
    format: Format,
    settings: Settings,
    summand: u64,
    values: [u64; FIGURES],
    n: usize,
) -> bool
    requires { n ≤ 12 }
{
    let moved = backwards(values, n);
    let mut answer = [0u8; 144];
    let mut again = [BEFORE; 160];
    let returned = sums_within_entered(
        format,
        settings,
        summand,
        ALLOWANCE,
        &laid(values)[..8 * n],
        &laid(moved)[..8 * n],
        &mut answer,
        &mut again,
    );
    same_answer(returned, &answer, &again)
}

fn dots_within_keep(
    format: Format,
    settings: Settings,
    left: [u64; FIGURES],
    right: [u64; FIGURES],
    n: usize,
) -> bool
    requires { n ≤ 12 }
{
    let mut answer = [0u8; 144];
    let mut again = [BEFORE; 160];
    let returned = dots_within_entered(
        format,
        settings,
        ALLOWANCE,
        &laid(left)[..8 * n],
        &laid(right)[..8 * n],
        &laid(backwards(left, n))[..8 * n],
        &laid(backwards(right, n))[..8 * n],
        &mut answer,
        &mut again,
    );
    same_answer(returned, &answer, &again)
}

// One number, and one figure written, or none.
fn pence_keep(format: Format, values: [u64; FIGURES], n: usize) -> bool
    requires { n ≤ 12 }
{
    let moved = backwards(values, n);
    let mut figure = 3;
    let mut again = 5;
    let returned = pence_entered(format, &values[..n], &moved[..n], &mut figure, &mut again);
    let written = if returned.0 == 0 {
        figure == again
    } else {
        (figure, again) == (3, 5)
    };
    returned.0 == returned.1 && written
}

// One number, and the same contribution to the first value, or nothing written.
fn contributions_keep(format: Format, settings: Settings, values: [u64; FIGURES], n: usize) -> bool
    requires { n ≤ 12 }
{
    let moved = backwards(values, n);
    let wanted = values[0];
    let mut answer = [BEFORE; 8];
    let mut again = [BEFORE; 24];
    let returned = contributions_entered(
        format,
        settings,
        wanted,
        &values[..n],
        &moved[..n],
        &mut answer,
        &mut again,
    );
    returned.0 == returned.1 && (returned.0 != 0 || same_answer(returned, &answer, &again))
}

// The bytes of three targets, each with the row's own format and settings.
fn own_targets(format: Format, settings: Settings) -> [u8; TARGETS] {
    let (bias_named, bias) = told_bias(format);
    let numbers = [
        format.kind,
        format.exponent_bits,
        format.width,
        bias_named,
        bias.cast_unsigned(),
        settings.rounding,
        settings.tininess,
        settings.nan_propagation,
        settings.default_nan_negative,
        settings.flush_to_zero,
        settings.denormals_are_zero,
        settings.saturate,
        settings.precision,
    ];
    let mut bytes = [0u8; TARGETS];
    for target in 0..3 {
        for i in 0..13 {
            put_word(&mut bytes, 104 * target + 8 * i, numbers[i]);
        }
    }
    bytes
}

fn targets_keep(format: Format, settings: Settings, values: [u64; FIGURES], n: usize) -> bool
    requires { n ≤ 12 }
{
    let moved = backwards(values, n);
    let mut answer = [0u8; 96];
    let mut again = [BEFORE; 112];
    let returned = targets_entered(
        format,
        settings.denormals_are_zero,
        &own_targets(format, settings),
        &laid(values)[..8 * n],
        &laid(moved)[..8 * n],
        &mut answer,
        &mut again,
    );
    same_answer(returned, &answer, &again)
}

fn dot_keeps(row: &[u8], format: Format, settings: Settings) -> bool {
    let left = words_at(row, 0);
    let right = right_words(row);
    let n = at_most(row, 23, 1, 12);
    let m = at_most(row, 24, 1, 12);
    let total = dot_or_refusal(format, settings, &left[..n], &right[..m]);
    if total.is_err() {
        return is_told(row, total);
    }
    if holds_nan(format, &left[..n]) || holds_nan(format, &right[..n]) {
        return true;
    }
    dots_keep(format, settings, left, right, n)
        && dots_within_keep(format, settings, left, right, n)
}

// Whether the promises show in what the functions return.
pub(crate) fn keeps(row: &[u8]) -> bool {
    let format = format_at(row);
    let settings = settings_at(row);
    if is_dot(row) {
        return dot_keeps(row, format, settings);
    }
    let summand = summand_at(row);
    let values = words_at(row, 0);
    let n = at_most(row, 23, 1, 12);
    let total = sum_or_refusal(format, settings, summand, &values[..n]);
    if total.is_err() {
        return is_told(row, total);
    }
    let figures = pence_keep(format, values, n)
        && contributions_keep(format, settings, values, n)
        && targets_keep(format, settings, values, n);
    if holds_nan(format, &values[..n]) {
        return figures;
    }
    figures
        && sums_keep(format, settings, summand, values, n)
        && sums_within_keep(format, settings, summand, values, n)
}
