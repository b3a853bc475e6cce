// Each refusal comes exactly under its condition, tells nothing but its number and its place, and
// writes nothing.
ghost use Rattle.std.specs.Prelude.{◌≡◌, ◌≢◌, ◌⊎◌, ◌%◌, ◌/◌};
ghost use Rattle.totals_spec.specs.entries.Bytes.{values_in};
ghost use Rattle.totals_spec.specs.refusals.Conditions as when;
ghost use Rattle.totals_spec.specs.ten_bytes.Conditions.{UnevenTens};
ghost use Rattle.totals_spec.specs.ten_bytes.Conditions.{extended_dot_conditions};
ghost use Rattle.totals_spec.specs.ten_bytes.Conditions.{extended_entry_conditions};
ghost use Rattle.totals_spec.specs.ten_bytes.Conditions.{extended_sum_conditions};
ghost use Rattle.totals_spec.specs.ten_bytes.Extended.{sum_call, dot_call, tens_in};
ghost use Rattle.totals_spec.specs.refusals.Places.{StrayAt, DotStrayAt};
ghost use Rattle.totals_spec.specs.sums.Totals as spec;
ghost use Rattle.format.specs.Formats.{format_of};
ghost use Rattle.format.specs.Settings.{settings_of};
ghost use Rattle.totals.specs.Asked.{answer_in};
ghost use Rattle.totals.specs.Entered.{Enters};
ghost use Rattle.promised_calls.specs.Refusals.{RefusesExactly, TellsNothingElse, PlacedAt};
ghost use Rattle.promised_calls.specs.Refusals.{WritesNothing};

use crate::entries::{enter_dot, enter_sum};
use format::Format;
use format::settings::Settings;
use reduction::total::Answer;
use totals::refusal::Refusal;
use totals::{dot, sum};

/// The sum of a list, or its refusal.
pub fn sum_or_refusal(f: Format, c: Settings, u: u64, values: &[u64]) -> Result<Answer, Refusal>
    ensures is { answer_in result ≡ spec.sum_answer (format_of f) (settings_of c) u values.now }
    ensures exactly { RefusesExactly (when.sum_conditions (format_of f)
        (settings_of c) u values.now)
        (answer_in result).refusal }
    ensures nothing_else { TellsNothingElse (answer_in result) }
    ensures place { PlacedAt (StrayAt (format_of f) values.now) (answer_in result).refusal
        (answer_in result).place }
{
    sum(f, c, u, values)
}

/// The dot product of two lists, or its refusal.
pub fn dot_or_refusal(
    f: Format,
    c: Settings,
    left: &[u64],
    right: &[u64],
) -> Result<Answer, Refusal>
    ensures is { answer_in result ≡ spec.dot_answer (format_of f)
        (settings_of c) left.now right.now }
    ensures exactly { RefusesExactly (when.dot_conditions (format_of f)
        (settings_of c) left.now right.now)
        (answer_in result).refusal }
    ensures nothing_else { TellsNothingElse (answer_in result) }
    ensures place { PlacedAt (DotStrayAt
        (format_of f) left.now right.now) (answer_in result).refusal (answer_in result).place }
{
    dot(f, c, left, right)
}

/// The exported sum of the values in some bytes, or its refusal: 1 and 2 before those of the sum.
/// Of kind 4 the number has no place.
pub fn sum_entry_or_refusal(f: Format, c: Settings, u: u64, values: &[u8], answer: &mut [u8]) -> u64
    ensures is { Enters (sum_call (format_of f) (settings_of c) u values.now answer.old)
        result answer.new }
    ensures exactly { f.kind ≢ 4
        → RefusesExactly (when.entry_conditions (when.Uneven values.now) answer.old
        (when.sum_conditions (format_of f) (settings_of c) u (values_in values.now)))
        (result % 256) }
    ensures exactly_tens { f.kind ≡ 4
        → RefusesExactly (extended_entry_conditions (UnevenTens values.now) answer.old
        (extended_sum_conditions (format_of f) (settings_of c) u
        (tens_in values.now))) result }
    ensures place { f.kind ≢ 4
        → PlacedAt (StrayAt (format_of f) (values_in values.now)) (result % 256) (result / 256) }
    ensures nothing_written { WritesNothing result answer.old answer.new }
{
    enter_sum(f, c, u, values, answer)
}

/// The exported dot product, likewise.
pub fn dot_entry_or_refusal(
    f: Format,
    c: Settings,
    left: &[u8],
    right: &[u8],
    answer: &mut [u8],
) -> u64
    ensures is { Enters (dot_call (format_of f) (settings_of c) left.now right.now answer.old)
        result answer.new }
    ensures exactly { f.kind ≢ 4
        → RefusesExactly
        (when.entry_conditions (when.Uneven left.now ⊎ when.Uneven right.now) answer.old
        (when.dot_conditions (format_of f) (settings_of c) (values_in left.now)
        (values_in right.now))) (result % 256) }
    ensures exactly_tens { f.kind ≡ 4
        → RefusesExactly
        (extended_entry_conditions (UnevenTens left.now ⊎ UnevenTens right.now)
        answer.old
        (extended_dot_conditions (format_of f) (settings_of c) (tens_in left.now)
        (tens_in right.now))) result }
    ensures place { f.kind ≢ 4
        → PlacedAt (DotStrayAt (format_of f) (values_in left.now) (values_in right.now))
        (result % 256) (result / 256) }
    ensures nothing_written { WritesNothing result answer.old answer.new }
{
    enter_dot(f, c, left, right, answer)
}
