// The exported byte entries: two calls, each with a buffer of its own, and one answer.
ghost use Rattle.std.specs.Prelude.{◌≡◌};
ghost use Rattle.totals_spec.specs.ten_bytes.Extended.{sum_call, dot_call};
ghost use Rattle.format.specs.Formats.{format_of};
ghost use Rattle.format.specs.Settings.{settings_of};
ghost use Rattle.totals.specs.Entered.{Enters};
ghost use Rattle.promised_calls.specs.Order.{Rearranged, PairsRearranged};
ghost use Rattle.promised_calls.specs.Entries.{values_of, Whole};
ghost use Rattle.promised_calls.specs.Entries.{HasRoom, NoNanDecides, NoNanDecidesPairs};
ghost use Rattle.promised_calls.specs.Entries.{SameAnswer, Keeps};

use format::Format;
use format::settings::Settings;
use totals::entry;

/// The exported sum, by the entry that names a bias where the format does.
pub fn enter_sum(f: Format, c: Settings, u: u64, values: &[u8], answer: &mut [u8]) -> u64
    ensures { Enters (sum_call (format_of f) (settings_of c) u values.now answer.old)
        result answer.new }
{
    entry::enter_sum(f, c, u, values, answer)
}

/// The exported dot product, likewise.
pub fn enter_dot(f: Format, c: Settings, left: &[u8], right: &[u8], answer: &mut [u8]) -> u64
    ensures { Enters (dot_call (format_of f) (settings_of c) left.now right.now answer.old)
        result answer.new }
{
    entry::enter_dot(f, c, left, right, answer)
}

/// The exported sums of the values in some bytes and of a rearrangement of them, with a buffer
/// each: where the first call is accepted, the second is, and its answer has the same bytes. The
/// bytes behind them are each buffer's own.
pub fn sums_entered(
    f: Format,
    c: Settings,
    u: u64,
    one: &[u8],
    other: &[u8],
    answer: &mut [u8],
    again: &mut [u8],
) -> (u64, u64)
    ensures first { Enters (sum_call (format_of f) (settings_of c) u one.now answer.old)
        result.0 answer.new }
    ensures second { Enters (sum_call (format_of f) (settings_of c) u other.now again.old)
        result.1 again.new }
    ensures alike { let f = format_of f in
        Rearranged (values_of f one.now) (values_of f other.now)
        → NoNanDecides f (values_of f one.now)
        → Whole f other.now → HasRoom f again.old
        → result.0 ≡ 0 → (result.1 ≡ 0) × SameAnswer f answer.new again.new }
    ensures rest { Keeps (format_of f) answer.old answer.new
        × Keeps (format_of f) again.old again.new }
{
    let first = enter_sum(f, c, u, one, answer);
    let second = enter_sum(f, c, u, other, again);
    (first, second)
}

/// The same of the exported dot products, whose pairs move together.
pub fn dots_entered(
    f: Format,
    c: Settings,
    left: &[u8],
    right: &[u8],
    moved_left: &[u8],
    moved_right: &[u8],
    answer: &mut [u8],
    again: &mut [u8],
) -> (u64, u64)
    ensures first { Enters (dot_call (format_of f) (settings_of c) left.now right.now answer.old)
        result.0 answer.new }
    ensures second { Enters
        (dot_call (format_of f) (settings_of c) moved_left.now moved_right.now again.old)
        result.1 again.new }
    ensures alike { let f = format_of f in
        PairsRearranged (values_of f left.now) (values_of f right.now)
        (values_of f moved_left.now) (values_of f moved_right.now)
        → NoNanDecidesPairs f (values_of f left.now) (values_of f right.now)
        → Whole f moved_left.now → Whole f moved_right.now → HasRoom f again.old
        → result.0 ≡ 0 → (result.1 ≡ 0) × SameAnswer f answer.new again.new }
    ensures rest { Keeps (format_of f) answer.old answer.new
        × Keeps (format_of f) again.old again.new }
{
    let first = enter_dot(f, c, left, right, answer);
    let second = enter_dot(f, c, moved_left, moved_right, again);
    (first, second)
}
