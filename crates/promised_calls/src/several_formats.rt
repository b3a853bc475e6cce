// One total in three formats: when a target is refused, and that the order does not matter.
ghost use Rattle.std.specs.Prelude.{◌≡◌, ◌≢◌, ◌≤◌, length};
ghost use Rattle.totals_spec.specs.entries.Bytes.{values_in};
ghost use Rattle.targets_spec.specs.several.Conditions.{target_entry_conditions};
ghost use Rattle.targets_spec.specs.several.Several.{target_entry};
ghost use Rattle.format.specs.Formats.{format_of};
ghost use Rattle.totals.specs.Entered.{Enters};
ghost use Rattle.promised_calls.specs.Entries.{values_of, Whole};
ghost use Rattle.promised_calls.specs.Lent.{target_call, targets_size, SameFirst, KeepsBehind};
ghost use Rattle.promised_calls.specs.Order.{Rearranged, WithoutStray};
ghost use Rattle.promised_calls.specs.Refusals.{RefusesExactly, WritesNothing};
ghost use Rattle.promised_calls.specs.Targets.{Prints, PrintsOrRefuses, AllAlike};

use crate::told::told_bias;
use format::Format;
use targets::entry::enter_sum_into;
use targets::several::{Printed, Target, in_three};
use totals::entry::NamedFormat;

/// The sum of the values in some bytes in three targets; each has its record, or its refusal.
pub fn targets_or_refusals(
    f: Format,
    denormals_are_zero: u64,
    values: &[u8],
    a: Target,
    b: Target,
    c: Target,
) -> Printed
    ensures is { Prints (format_of f) denormals_are_zero (values_in values.now) a b c result }
    ensures refusals { PrintsOrRefuses (format_of f) denormals_are_zero
        (values_in values.now) a b c result }
{
    in_three(f, denormals_are_zero, values, a, b, c)
}

/// The exported sum in three targets: the call itself is refused with 1 or 2 alone.
pub fn target_entry_or_refusal(
    kind: u64,
    exponent_bits: u64,
    width: u64,
    bias_named: u64,
    bias: i64,
    denormals_are_zero: u64,
    targets: &[u8],
    values: &[u8],
    answer: &mut [u8],
) -> u64
    ensures is { Enters
        (target_entry kind exponent_bits width bias_named bias denormals_are_zero targets.now
        values.now answer.old) result answer.new }
    ensures exactly { RefusesExactly
        (target_entry_conditions kind targets.now values.now answer.old) result }
    ensures nothing_written { WritesNothing result answer.old answer.new }
{
    enter_sum_into(
        NamedFormat {
            kind,
            exponent_bits,
            width,
            bias_named,
            bias,
        },
        denormals_are_zero,
        targets,
        values,
        answer,
    )
}

/// The records of a list and of a rearrangement of it, in three targets, are the same; only the
/// place of a stray bit can be another.
pub fn targets_of_both(
    f: Format,
    denormals_are_zero: u64,
    one: &[u8],
    other: &[u8],
    a: Target,
    b: Target,
    c: Target,
) -> (Printed, Printed)
    ensures first { Prints (format_of f) denormals_are_zero (values_in one.now) a b c result.0 }
    ensures second { Prints (format_of f) denormals_are_zero (values_in other.now) a b c result.1 }
    ensures alike { Rearranged (values_in one.now) (values_in other.now)
        → AllAlike result.0 result.1 }
{
    let first = in_three(f, denormals_are_zero, one, a, b, c);
    let second = in_three(f, denormals_are_zero, other, a, b, c);
    (first, second)
}

/// The exported sum in three targets, by the entry's numbers of the list's format.
pub fn enter_targets(
    format: Format,
    denormals_are_zero: u64,
    targets: &[u8],
    values: &[u8],
    answer: &mut [u8],
) -> u64
    ensures { Enters
        (target_call (format_of format) denormals_are_zero targets.now values.now answer.old)
        result answer.new }
{
    let (bias_named, bias) = told_bias(format);
    target_entry_or_refusal(
        format.kind,
        format.exponent_bits,
        format.width,
        bias_named,
        bias,
        denormals_are_zero,
        targets,
        values,
        answer,
    )
}

/// The exported sums, in three targets, of the values in some bytes and of a rearrangement of them,
/// with a buffer each: where no value has a stray bit and the first call is accepted, the second
/// is, and writes the same bytes. The bytes behind them are each buffer's own.
pub fn targets_entered(
    format: Format,
    denormals_are_zero: u64,
    targets: &[u8],
    one: &[u8],
    other: &[u8],
    answer: &mut [u8],
    again: &mut [u8],
) -> (u64, u64)
    ensures first { Enters
        (target_call (format_of format) denormals_are_zero targets.now one.now answer.old)
        result.0 answer.new }
    ensures second { Enters
        (target_call (format_of format) denormals_are_zero targets.now other.now again.old)
        result.1 again.new }
    ensures alike { let f = format_of format in
        Rearranged (values_of f one.now) (values_of f other.now)
        → WithoutStray f (values_of f one.now)
        → Whole f other.now → targets_size ≤ length again.old
        → result.0 ≡ 0 → (result.1 ≡ 0) × SameFirst targets_size answer.new again.new }
    ensures rest { KeepsBehind targets_size answer.old answer.new
        × KeepsBehind targets_size again.old again.new }
{
    let first = enter_targets(format, denormals_are_zero, targets, one, answer);
    let second = enter_targets(format, denormals_are_zero, targets, other, again);
    (first, second)
}
