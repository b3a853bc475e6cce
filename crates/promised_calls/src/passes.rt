// How many passes a call takes at most.
ghost use Rattle.std.specs.Prelude.{◌≡◌, ◌≢◌, ◌≤◌};
ghost use Rattle.totals_spec.specs.entries.Bytes.{values_in};
ghost use Rattle.totals_spec.specs.ten_bytes.Extended as ten;
ghost use Rattle.totals_spec.specs.formats.Format.{binary64};
ghost use Rattle.totals_spec.specs.formats.Settings.{summand_of};
ghost use Rattle.totals_spec.specs.sums.Totals as spec;
ghost use Rattle.format.specs.Formats.{format_of};
ghost use Rattle.format.specs.Settings.{settings_of};
ghost use Rattle.totals.specs.Asked.{answer_in};
ghost use Rattle.totals.specs.Entered.{Enters};
ghost use Rattle.promised_calls.specs.Entries.{passes_in, passes_in_tens};
ghost use Rattle.promised_calls.specs.Passes.{limit_at, limit_of};

use crate::entries::{enter_dot, enter_sum};
use format::Format;
use format::settings::Settings;
use reduction::total::Answer;
use totals::refusal::Refusal;
use totals::{dot, sum};

/// The sum of a list, of the summand u. Its passes are no more than the limit; of doubles they are
/// at most 4 in a sum or magnitude sum, and at most 7 in a square sum.
pub fn sum_in_passes(f: Format, c: Settings, u: u64, values: &[u64]) -> Result<Answer, Refusal>
    ensures is { answer_in result ≡ spec.sum_answer (format_of f) (settings_of c) u values.now }
    ensures limit { (answer_in result).passes
        ≤ limit_of (format_of f)
        (spec.sum_terms (format_of f) (settings_of c) (summand_of u) values.now) }
    ensures sums_of_doubles { format_of f ≡ binary64 → u ≤ 1 → (answer_in result).passes ≤ 4 }
    ensures squares_of_doubles { format_of f ≡ binary64 → (answer_in result).passes ≤ 7 }
{
    sum(f, c, u, values)
}

/// The dot product of two lists. Its passes are no more than the limit; of doubles they are at most
/// 7.
pub fn dot_in_passes(f: Format, c: Settings, left: &[u64], right: &[u64]) -> Result<Answer, Refusal>
    ensures is { answer_in result ≡ spec.dot_answer (format_of f)
        (settings_of c) left.now right.now }
    ensures limit { (answer_in result).passes
        ≤ limit_of (format_of f) (spec.dot_terms (format_of f) (settings_of c) left.now right.now) }
    ensures of_doubles { format_of f ≡ binary64 → (answer_in result).passes ≤ 7 }
{
    dot(f, c, left, right)
}

/// The passes that the exported sum writes, where it is accepted. Kind 4 has 64 digits: its limit
/// is at most 52 in a sum or magnitude sum, and at most 104 in a square sum.
pub fn sum_entry_in_passes(f: Format, c: Settings, u: u64, values: &[u8], answer: &mut [u8]) -> u64
    ensures is { Enters (ten.sum_call (format_of f) (settings_of c) u values.now answer.old)
        result answer.new }
    ensures limit { let ts = spec.sum_terms (format_of f) (settings_of c) (summand_of u)
        (values_in values.now) in
        f.kind ≢ 4 → result ≡ 0 → passes_in answer.new ≤ limit_of (format_of f) ts }
    ensures limit_of_tens { let ts = ten.extended_terms (settings_of c) (summand_of u)
        (ten.tens_in values.now) in
        f.kind ≡ 4 → result ≡ 0 → passes_in_tens answer.new ≤ limit_at 64 ts }
    ensures sums_of_tens { f.kind ≡ 4 → result ≡ 0 → u ≤ 1 → passes_in_tens answer.new ≤ 52 }
    ensures squares_of_tens { f.kind ≡ 4 → result ≡ 0 → passes_in_tens answer.new ≤ 104 }
{
    enter_sum(f, c, u, values, answer)
}

/// The passes that the exported dot product writes, likewise.
pub fn dot_entry_in_passes(
    f: Format,
    c: Settings,
    left: &[u8],
    right: &[u8],
    answer: &mut [u8],
) -> u64
    ensures is { Enters (ten.dot_call (format_of f) (settings_of c) left.now right.now answer.old)
        result answer.new }
    ensures limit { let ts =
        spec.dot_terms (format_of f) (settings_of c) (values_in left.now)
        (values_in right.now) in
        f.kind ≢ 4 → result ≡ 0 → passes_in answer.new ≤ limit_of (format_of f) ts }
    ensures limit_of_tens { let ts =
        ten.extended_dot_terms (settings_of c) (ten.tens_in left.now) (ten.tens_in right.now) in
        f.kind ≡ 4 → result ≡ 0 → passes_in_tens answer.new ≤ limit_at 64 ts }
    ensures of_tens { f.kind ≡ 4 → result ≡ 0 → passes_in_tens answer.new ≤ 104 }
{
    enter_dot(f, c, left, right, answer)
}
