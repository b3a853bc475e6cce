// Totals within an allowance of passes: when they are refused, and that the order does not matter.
ghost use Rattle.std.specs.Prelude.{◌≡◌, ◌≢◌, ◌⊎◌, ◌%◌};
ghost use Rattle.totals_spec.specs.entries.Bytes.{values_in};
ghost use Rattle.totals_spec.specs.refusals.Conditions as when;
ghost use Rattle.totals_spec.specs.refusals.Places.{StrayAt, DotStrayAt};
ghost use Rattle.totals_spec.specs.sums.Totals as totals;
ghost use Rattle.totals_spec.specs.entries.Words.{format_by};
ghost use Rattle.targets_spec.specs.entries.Lengths.{CutShort};
ghost use Rattle.targets_spec.specs.within.Conditions.{within_conditions};
ghost use Rattle.targets_spec.specs.within.Conditions.{within_entry_conditions};
ghost use Rattle.targets_spec.specs.within.Estimate as spec;
ghost use Rattle.format.specs.Formats.{format_of};
ghost use Rattle.format.specs.Settings.{settings_of};
ghost use Rattle.totals.specs.Entered.{Enters};
ghost use Rattle.targets.specs.Estimates.{estimate_in};
ghost use Rattle.promised_calls.specs.Order.{Rearranged, PairsRearranged, WithoutNan};
ghost use Rattle.promised_calls.specs.Refusals.{RefusesExactly, RefusalAlone};
ghost use Rattle.promised_calls.specs.Refusals.{PlacedAt, WritesNothing};

use format::Format;
use format::settings::Settings;
use targets::entry_within::{enter_dot_within, enter_sum_within};
use targets::estimate::{Estimate, dot_within, sum_within};
use totals::entry::NamedFormat;
use totals::refusal::Refusal;

/// A sum within an allowance of passes, or its refusal: an allowance of 0 before those of the sum.
pub fn sum_within_or_refusal(
    f: Format,
    c: Settings,
    u: u64,
    values: &[u64],
    allowance: u64,
) -> Result<Estimate, Refusal>
    ensures is { estimate_in result ≡ spec.sum_within (format_of f)
        (settings_of c) u values.now allowance }
    ensures exactly { RefusesExactly
        (within_conditions allowance
        (when.sum_conditions (format_of f) (settings_of c) u values.now))
        (estimate_in result).answer.refusal }
    ensures nothing_else { RefusalAlone (estimate_in result) }
    ensures place { let a = (estimate_in result).answer in
        PlacedAt (StrayAt (format_of f) values.now) a.refusal a.place }
{
    sum_within(f, c, u, values, allowance)
}

/// A dot product within an allowance of passes, likewise.
pub fn dot_within_or_refusal(
    f: Format,
    c: Settings,
    left: &[u64],
    right: &[u64],
    allowance: u64,
) -> Result<Estimate, Refusal>
    ensures is { estimate_in result
        ≡ spec.dot_within (format_of f) (settings_of c) left.now right.now allowance }
    ensures exactly { RefusesExactly
        (within_conditions allowance
        (when.dot_conditions (format_of f) (settings_of c) left.now right.now))
        (estimate_in result).answer.refusal }
    ensures nothing_else { RefusalAlone (estimate_in result) }
    ensures place { let a = (estimate_in result).answer in
        PlacedAt (DotStrayAt (format_of f) left.now right.now) a.refusal a.place }
{
    dot_within(f, c, left, right, allowance)
}

/// The exported sum within an allowance of passes, or its refusal: 1, 2, 16 and a misnamed bias
/// before those of the sum.
pub fn sum_within_entry_or_refusal(
    kind: u64,
    exponent_bits: u64,
    width: u64,
    bias_named: u64,
    bias: i64,
    c: Settings,
    u: u64,
    allowance: u64,
    values: &[u8],
    answer: &mut [u8],
) -> u64
    ensures is { Enters
        (spec.sum_within_entry kind exponent_bits width bias_named bias (settings_of c) u allowance
        values.now answer.old) result answer.new }
    ensures exactly { RefusesExactly
        (within_entry_conditions (CutShort kind values.now) answer.old allowance bias_named bias
        (when.sum_conditions (format_by kind exponent_bits width bias_named bias) (settings_of c) u
        (values_in values.now))) (result % 256) }
    ensures nothing_written { WritesNothing result answer.old answer.new }
{
    enter_sum_within(
        NamedFormat {
            kind,
            exponent_bits,
            width,
            bias_named,
            bias,
        },
        c,
        u,
        allowance,
        values,
        answer,
    )
}

/// The exported dot product within an allowance of passes, likewise.
pub fn dot_within_entry_or_refusal(
    kind: u64,
    exponent_bits: u64,
    width: u64,
    bias_named: u64,
    bias: i64,
    c: Settings,
    allowance: u64,
    left: &[u8],
    right: &[u8],
    answer: &mut [u8],
) -> u64
    ensures is { Enters
        (spec.dot_within_entry kind exponent_bits width bias_named bias (settings_of c) allowance
        left.now right.now answer.old) result answer.new }
    ensures exactly { RefusesExactly
        (within_entry_conditions (CutShort kind left.now ⊎ CutShort kind right.now) answer.old
        allowance bias_named bias
        (when.dot_conditions (format_by kind exponent_bits width bias_named bias) (settings_of c)
        (values_in left.now) (values_in right.now))) (result % 256) }
    ensures nothing_written { WritesNothing result answer.old answer.new }
{
    enter_dot_within(
        NamedFormat {
            kind,
            exponent_bits,
            width,
            bias_named,
            bias,
        },
        c,
        allowance,
        left,
        right,
        answer,
    )
}

/// The sums, within one allowance, of a list that the sum accepts, without a NaN, and of a
/// rearrangement of it are one record, finished or not.
pub fn sums_within(
    f: Format,
    c: Settings,
    u: u64,
    one: &[u64],
    other: &[u64],
    allowance: u64,
) -> (Result<Estimate, Refusal>, Result<Estimate, Refusal>)
    ensures first { estimate_in result.0 ≡ spec.sum_within (format_of f)
        (settings_of c) u one.now allowance }
    ensures second { estimate_in result.1
        ≡ spec.sum_within (format_of f) (settings_of c) u other.now allowance }
    ensures alike { Rearranged one.now other.now
        → totals.sum_refusal (format_of f) (settings_of c) u one.now ≡ 0
        → WithoutNan (format_of f) one.now → estimate_in result.0 ≡ estimate_in result.1 }
{
    let first = sum_within(f, c, u, one, allowance);
    let second = sum_within(f, c, u, other, allowance);
    (first, second)
}

/// The same of dot products, whose pairs move together.
pub fn dots_within(
    f: Format,
    c: Settings,
    left: &[u64],
    right: &[u64],
    moved_left: &[u64],
    moved_right: &[u64],
    allowance: u64,
) -> (Result<Estimate, Refusal>, Result<Estimate, Refusal>)
    ensures first { estimate_in result.0
        ≡ spec.dot_within (format_of f) (settings_of c) left.now right.now allowance }
    ensures second { estimate_in result.1
        ≡ spec.dot_within (format_of f) (settings_of c) moved_left.now moved_right.now allowance }
    ensures alike { PairsRearranged left.now right.now moved_left.now moved_right.now
        → totals.dot_refusal (format_of f) (settings_of c) left.now right.now ≡ 0
        → WithoutNan (format_of f) left.now → WithoutNan (format_of f) right.now
        → estimate_in result.0 ≡ estimate_in result.1 }
{
    let first = dot_within(f, c, left, right, allowance);
    let second = dot_within(f, c, moved_left, moved_right, allowance);
    (first, second)
}
