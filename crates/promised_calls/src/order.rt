// Two calls, with a list and with a rearrangement of it, and one record.
ghost use Rattle.std.specs.Prelude.{◌≡◌};
ghost use Rattle.totals_spec.specs.sums.Totals as spec;
ghost use Rattle.format.specs.Formats.{format_of};
ghost use Rattle.format.specs.Settings.{settings_of};
ghost use Rattle.totals.specs.Asked.{answer_in};
ghost use Rattle.promised_calls.specs.Order.{Rearranged, PairsRearranged, WithoutNan};

use format::Format;
use format::settings::Settings;
use reduction::total::Answer;
use totals::refusal::Refusal;
use totals::{dot, sum};

/// The sums of a list and of a rearrangement of it, of the summand u: where the first is accepted
/// and its list has no NaN, they are one record.
pub fn sums_of(
    f: Format,
    c: Settings,
    u: u64,
    one: &[u64],
    other: &[u64],
) -> (Result<Answer, Refusal>, Result<Answer, Refusal>)
    ensures first { answer_in result.0 ≡ spec.sum_answer (format_of f) (settings_of c) u one.now }
    ensures second { answer_in result.1 ≡ spec.sum_answer (format_of f)
        (settings_of c) u other.now }
    ensures alike { Rearranged one.now other.now → (answer_in result.0).refusal ≡ 0
        → WithoutNan (format_of f) one.now
        → result.0 ≡ result.1 }
{
    let first = sum(f, c, u, one);
    let second = sum(f, c, u, other);
    (first, second)
}

/// The same of dot products, whose pairs move together.
pub fn dots_of(
    f: Format,
    c: Settings,
    left: &[u64],
    right: &[u64],
    moved_left: &[u64],
    moved_right: &[u64],
) -> (Result<Answer, Refusal>, Result<Answer, Refusal>)
    ensures first { answer_in result.0 ≡ spec.dot_answer (format_of f)
        (settings_of c) left.now right.now }
    ensures second { answer_in result.1
        ≡ spec.dot_answer (format_of f) (settings_of c) moved_left.now moved_right.now }
    ensures alike { PairsRearranged left.now right.now moved_left.now moved_right.now
        → (answer_in result.0).refusal ≡ 0
        → WithoutNan (format_of f) left.now → WithoutNan (format_of f) right.now
        → result.0 ≡ result.1 }
{
    let first = dot(f, c, left, right);
    let second = dot(f, c, moved_left, moved_right);
    (first, second)
}
