// The exported totals within an allowance of passes: two calls, each with a buffer of its own, and
// one answer.
ghost use Rattle.std.specs.Prelude.{◌≡◌, ◌≤◌, length};
ghost use Rattle.totals_spec.specs.entries.Bytes.{values_in};
ghost use Rattle.format.specs.Formats.{format_of};
ghost use Rattle.format.specs.Settings.{settings_of};
ghost use Rattle.totals.specs.Entered.{Enters};
ghost use Rattle.promised_calls.specs.Entries.{Whole};
ghost use Rattle.promised_calls.specs.Lent.{sum_within_call, dot_within_call, estimate_size};
ghost use Rattle.promised_calls.specs.Lent.{SameFirst, KeepsBehind};
ghost use Rattle.promised_calls.specs.Order.{Rearranged, PairsRearranged, WithoutNan};

use crate::told::told_bias;
use crate::within::{dot_within_entry_or_refusal, sum_within_entry_or_refusal};
use format::Format;
use format::settings::Settings;

/// The exported sum within an allowance of passes, by the entry's numbers of a format.
pub fn enter_sum_within(
    format: Format,
    settings: Settings,
    summand: u64,
    allowance: u64,
    values: &[u8],
    answer: &mut [u8],
) -> u64
    ensures { Enters
        (sum_within_call (format_of format) (settings_of settings) summand allowance
        values.now answer.old) result answer.new }
{
    let (bias_named, bias) = told_bias(format);
    sum_within_entry_or_refusal(
        format.kind,
        format.exponent_bits,
        format.width,
        bias_named,
        bias,
        settings,
        summand,
        allowance,
        values,
        answer,
    )
}

/// The exported dot product within an allowance of passes, likewise.
pub fn enter_dot_within(
    format: Format,
    settings: Settings,
    allowance: u64,
    left: &[u8],
    right: &[u8],
    answer: &mut [u8],
) -> u64
    ensures { Enters
        (dot_within_call (format_of format) (settings_of settings) allowance
        left.now right.now answer.old) result answer.new }
{
    let (bias_named, bias) = told_bias(format);
    dot_within_entry_or_refusal(
        format.kind,
        format.exponent_bits,
        format.width,
        bias_named,
        bias,
        settings,
        allowance,
        left,
        right,
        answer,
    )
}

/// The exported sums, within one allowance, of the values in some bytes without a NaN and of a
/// rearrangement of them, with a buffer each: where the first call is accepted, the second is, and
/// its answer, finished or not, has the same bytes. The bytes behind them are each buffer's own.
pub fn sums_within_entered(
    format: Format,
    settings: Settings,
    summand: u64,
    allowance: u64,
    one: &[u8],
    other: &[u8],
    answer: &mut [u8],
    again: &mut [u8],
) -> (u64, u64)
    ensures first { Enters
        (sum_within_call (format_of format) (settings_of settings) summand allowance
        one.now answer.old) result.0 answer.new }
    ensures second { Enters
        (sum_within_call (format_of format) (settings_of settings) summand allowance
        other.now again.old) result.1 again.new }
    ensures alike { let f = format_of format in
        Rearranged (values_in one.now) (values_in other.now)
        → WithoutNan f (values_in one.now)
        → Whole f other.now → estimate_size ≤ length again.old
        → result.0 ≡ 0 → (result.1 ≡ 0) × SameFirst estimate_size answer.new again.new }
    ensures rest { KeepsBehind estimate_size answer.old answer.new
        × KeepsBehind estimate_size again.old again.new }
{
    let first = enter_sum_within(format, settings, summand, allowance, one, answer);
    let second = enter_sum_within(format, settings, summand, allowance, other, again);
    (first, second)
}

/// The same of the exported dot products, whose pairs move together.
pub fn dots_within_entered(
    format: Format,
    settings: Settings,
    allowance: u64,
    left: &[u8],
    right: &[u8],
    moved_left: &[u8],
    moved_right: &[u8],
    answer: &mut [u8],
    again: &mut [u8],
) -> (u64, u64)
    ensures first { Enters
        (dot_within_call (format_of format) (settings_of settings) allowance
        left.now right.now answer.old) result.0 answer.new }
    ensures second { Enters
        (dot_within_call (format_of format) (settings_of settings) allowance
        moved_left.now moved_right.now again.old) result.1 again.new }
    ensures alike { let f = format_of format in
        PairsRearranged (values_in left.now) (values_in right.now)
        (values_in moved_left.now) (values_in moved_right.now)
        → WithoutNan f (values_in left.now) → WithoutNan f (values_in right.now)
        → Whole f moved_left.now → Whole f moved_right.now → estimate_size ≤ length again.old
        → result.0 ≡ 0 → (result.1 ≡ 0) × SameFirst estimate_size answer.new again.new }
    ensures rest { KeepsBehind estimate_size answer.old answer.new
        × KeepsBehind estimate_size again.old again.new }
{
    let first = enter_dot_within(format, settings, allowance, left, right, answer);
    let second = enter_dot_within(format, settings, allowance, moved_left, moved_right, again);
    (first, second)
}
