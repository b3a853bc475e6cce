// The entry of one total in several formats, over records. `totals_c` exports it over numbers, for
// callers in other languages.
ghost use Rattle.std.specs.Prelude.{◌≡◌, ◌+◌, ◌*◌, ◌≤◌, length};
ghost use Rattle.totals_spec.specs.entries.Bytes.{values_in};
ghost use Rattle.totals_spec.specs.entries.Words as words;
ghost use Rattle.targets_spec.specs.several.Several as several;
ghost use Rattle.targets_spec.specs.entries.SignedWords.{signed_word};
ghost use Rattle.targets_spec.specs.entries.Lengths as kinds;
ghost use Rattle.format.specs.Settings.{settings_of};
ghost use Rattle.totals.specs.Asked.{answer_in};
ghost use Rattle.totals.specs.Entered.{Enters, Fits};
ghost use Rattle.totals.specs.Laid.{laid_over};
ghost use Rattle.targets.specs.Targets.{TargetAt, ThreeAnswers};

use crate::several::{Printed, Target, into_three};
use format::settings::Settings;
use reduction::total::Answer;
use totals::entry::{NamedFormat, SIDE, TEN_BYTES, TENS, VALUE_BYTES, lengths};
use totals::refusal::Refusal;
use values::{put_word, word_at};

// The numbers of a target, and the bytes of those of three.
const NUMBERS: usize = 13;

const TARGET_BYTES: usize = 312;

// The bytes of an answer's slot for one target, and of the three.
const SLOT: usize = 32;

const SLOTS: usize = 96;

// Whether a list ends within a value, which has ten bytes in kind 4 and eight in every other.
#[inline(always)]
pub(crate) fn cut_short(kind: u64, values: &[u8]) -> bool
    ensures { result ≡ kinds.cut_short kind values.now }
{
    if kind == TENS {
        values.len() % TEN_BYTES != 0
    } else {
        values.len() % VALUE_BYTES != 0
    }
}

// Eight bytes as a number with a sign.
fn signed_word(word: u64) -> i64
    ensures { result ≡ signed_word word }
{
    word.cast_signed()
}

// The settings of the target whose first number is the j-th.
fn settings_at(targets: &[u8], j: usize) -> Settings
    requires { 8 * (j + 13) ≤ length targets.now }
    ensures { settings_of result ≡ several.settings_at (values_in targets.now) j }
{
    Settings {
        rounding: word_at(targets, j + 5),
        tininess: word_at(targets, j + 6),
        nan_propagation: word_at(targets, j + 7),
        default_nan_negative: word_at(targets, j + 8),
        flush_to_zero: word_at(targets, j + 9),
        denormals_are_zero: word_at(targets, j + 10),
        saturate: word_at(targets, j + 11),
        precision: word_at(targets, j + 12),
    }
}

// That target, where it is named as a whole.
fn target_at(targets: &[u8], j: usize) -> Result<Target, Refusal>
    requires { 8 * (j + 13) ≤ length targets.now }
    ensures { TargetAt (values_in targets.now) j result }
{
    let named = NamedFormat {
        kind: word_at(targets, j),
        exponent_bits: word_at(targets, j + 1),
        width: word_at(targets, j + 2),
        bias_named: word_at(targets, j + 3),
        bias: signed_word(word_at(targets, j + 4)),
    };
    let format = named.format()?;
    Ok(Target {
        format,
        settings: settings_at(targets, j),
    })
}

// The records of the three targets: each is refused where the list's format is not named as a
// whole.
fn answers(format: NamedFormat, denormals_are_zero: u64, targets: &[u8], values: &[u8]) -> Printed
    requires { 312 ≤ length targets.now }
    ensures { ThreeAnswers (words.misnamed format.bias_named format.bias)
        (words.format_by format.kind format.exponent_bits format.width format.bias_named
        format.bias)
        denormals_are_zero (values_in values.now) (values_in targets.now) result }
{
    match format.format() {
        Ok(format) => into_three(
            format,
            denormals_are_zero,
            values,
            target_at(targets, 0),
            target_at(targets, NUMBERS),
            target_at(targets, 2 * NUMBERS),
        ),
        Err(refusal) => Printed {
            first: Err(refusal),
            second: Err(refusal),
            third: Err(refusal),
        },
    }
}

// Lays a record into 32 bytes from a place on: its refusal and place, and what a byte entry writes.
// Inlined: with calls of it the walk of the list takes three instructions more for each element.
#[inline(always)]
fn put_slot(answer: &mut [u8], at: usize, total: Result<Answer, Refusal>)
    requires { (at + 32 ≤ length answer.old) × Fits (answer_in total) answer.old }
    ensures { answer.new ≡ laid_over answer.old at (several.slot_of (answer_in total)) }
{
    match total {
        Ok(record) => {
            put_word(answer, at, 0);
            put_word(answer, at + 8, record.result);
            put_word(answer, at + 16, record.flags + SIDE * record.side);
            put_word(answer, at + 24, record.passes);
        }
        Err(refusal) => {
            put_word(answer, at, refusal.code());
            put_word(answer, at + 8, 0);
            put_word(answer, at + 16, 0);
            put_word(answer, at + 24, 0);
        }
    }
}

/// The entry of the plain sum of a list in three targets: each has 32 bytes of the answer, its
/// refusal plus 256 times the place first, and then what a byte entry writes. The targets have 13
/// numbers each, eight bytes to a number. Returns 0, or 1 or 2, and then nothing is written (the
/// specification, "Targets").
pub fn enter_sum_into(
    format: NamedFormat,
    denormals_are_zero: u64,
    targets: &[u8],
    values: &[u8],
    answer: &mut [u8],
) -> u64
    ensures { Enters
        (several.target_entry format.kind format.exponent_bits format.width format.bias_named
        format.bias denormals_are_zero targets.now values.now answer.old) result answer.new }
{
    if targets.len() != TARGET_BYTES {
        return Refusal::UnevenLength.number();
    }
    if let Err(refusal) = lengths(cut_short(format.kind, values), answer.len(), SLOTS) {
        return refusal.number();
    }
    let printed = answers(format, denormals_are_zero, targets, values);
    put_slot(answer, 0, printed.first);
    put_slot(answer, SLOT, printed.second);
    put_slot(answer, 2 * SLOT, printed.third);
    0
}
