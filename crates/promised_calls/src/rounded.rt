// The exact sum, rounded once.
ghost use Rattle.std.specs.Prelude.{◌≡◌, ◌≢◌, ◌<◌, true, ◌||◌, map, length};
ghost use Rattle.totals_spec.specs.Basics.{any};
ghost use Rattle.totals_spec.specs.entries.Bytes.{values_in};
ghost use Rattle.totals_spec.specs.formats.Decode.{decode};
ghost use Rattle.totals_spec.specs.ten_bytes.Extended as ten;
ghost use Rattle.totals_spec.specs.formats.Format.{grid};
ghost use Rattle.totals_spec.specs.sums.Promises.{AllFinite, zero_answer, zero_for};
ghost use Rattle.totals_spec.specs.ten_bytes.Promises.{AllNumbers};
ghost use Rattle.totals_spec.specs.formats.Settings.{summand_of};
ghost use Rattle.totals_spec.specs.rounding.Side.{side_of};
ghost use Rattle.totals_spec.specs.terms.Terms.{item, pair_item, exact_sum};
ghost use Rattle.totals_spec.specs.sums.Totals as spec;
ghost use Rattle.format.specs.Formats.{format_of};
ghost use Rattle.format.specs.Settings.{settings_of};
ghost use Rattle.promises.specs.Special.{Cancelled, some_subnormal};
ghost use Rattle.promises.specs.Statements.{RoundedOnce};
ghost use Rattle.totals.specs.Asked.{answer_in};
ghost use Rattle.totals.specs.Entered.{Enters};
ghost use Rattle.promised_calls.specs.Rounded.{exact, exact_dot};
ghost use Rattle.promised_calls.specs.Rounded.{grid_for, HoldsOnce, HoldsTensOnce};

use crate::entries::{enter_dot, enter_sum};
use format::Format;
use format::settings::Settings;
use reduction::total::Answer;
use totals::refusal::Refusal;
use totals::{dot, sum};

/// The sum of finite values, of the summand u, is the exact sum rounded once: to the number of the
/// format that IEEE 754-2019 says, with its flags. Terms that cancel give a zero of the mode's
/// sign, and a list of zeros one of theirs. The side says how the result lies beside the exact sum.
pub fn sum_rounded_once(f: Format, c: Settings, u: u64, values: &[u64]) -> Result<Answer, Refusal>
    ensures is { answer_in result ≡ spec.sum_answer (format_of f) (settings_of c) u values.now }
    ensures once { let f = format_of f in
        let c = settings_of c in
        let x = exact f c u values.now in
        (answer_in result).refusal ≡ 0 → AllFinite f values.now → 0 < x.mag
        → RoundedOnce f c (grid_for f u) (some_subnormal f values.now) x (answer_in result) }
    ensures cancelled { let f = format_of f in
        let c = settings_of c in
        (answer_in result).refusal ≡ 0 → AllFinite f values.now
        → 0 < length (spec.sum_terms f c (summand_of u) values.now)
        → (exact f c u values.now).mag ≡ 0
        → Cancelled f c (some_subnormal f values.now) (answer_in result) }
    ensures zeros { let f = format_of f in
        let c = settings_of c in
        (answer_in result).refusal ≡ 0 → AllFinite f values.now
        → length (spec.sum_terms f c (summand_of u) values.now) ≡ 0
        → answer_in result
        ≡ zero_answer f (some_subnormal f values.now)
        (zero_for c (map (item f c (summand_of u)) values.now)) }
    ensures side { let f = format_of f in
        let x = exact f (settings_of c) u values.now in
        (answer_in result).refusal ≡ 0 → AllFinite f values.now
        → (answer_in result).side ≡ side_of (grid_for f u) (decode f (answer_in result).result) x }
{
    sum(f, c, u, values)
}

/// The dot product of finite values is the exact sum of the products, rounded once, likewise.
pub fn dot_rounded_once(
    f: Format,
    c: Settings,
    left: &[u64],
    right: &[u64],
) -> Result<Answer, Refusal>
    ensures is { answer_in result ≡ spec.dot_answer (format_of f)
        (settings_of c) left.now right.now }
    ensures once { let f = format_of f in
        let c = settings_of c in
        let x = exact_dot f c left.now right.now in
        (answer_in result).refusal ≡ 0 → AllFinite f left.now → AllFinite f right.now → 0 < x.mag
        → RoundedOnce f c (grid f true) (some_subnormal f left.now || some_subnormal f right.now) x
        (answer_in result) }
    ensures cancelled { let f = format_of f in
        let c = settings_of c in
        (answer_in result).refusal ≡ 0 → AllFinite f left.now → AllFinite f right.now
        → 0 < length (spec.dot_terms f c left.now right.now)
        → (exact_dot f c left.now right.now).mag ≡ 0
        → Cancelled f c (some_subnormal f left.now || some_subnormal f right.now)
        (answer_in result) }
    ensures zeros { let f = format_of f in
        let c = settings_of c in
        (answer_in result).refusal ≡ 0 → AllFinite f left.now → AllFinite f right.now
        → length (spec.dot_terms f c left.now right.now) ≡ 0
        → answer_in result
        ≡ zero_answer f (some_subnormal f left.now || some_subnormal f right.now)
        (zero_for c (map (pair_item f c) (spec.pairs left.now right.now))) }
    ensures side { let f = format_of f in
        let x = exact_dot f (settings_of c) left.now right.now in
        (answer_in result).refusal ≡ 0 → AllFinite f left.now → AllFinite f right.now
        → (answer_in result).side ≡ side_of (grid f true) (decode f (answer_in result).result) x }
{
    dot(f, c, left, right)
}

/// What the exported sum writes for finite values with a sum that is not zero is the exact sum,
/// rounded once; of values of ten bytes too.
pub fn sum_entry_rounded_once(
    f: Format,
    c: Settings,
    u: u64,
    values: &[u8],
    answer: &mut [u8],
) -> u64
    ensures is { Enters (ten.sum_call (format_of f) (settings_of c) u values.now answer.old)
        result answer.new }
    ensures once { let f = format_of f in
        let c = settings_of c in
        let l = values_in values.now in
        let x = exact f c u l in
        f.kind ≢ 4 → result ≡ 0 → AllFinite f l → 0 < x.mag
        → HoldsOnce f c (grid_for f u) (some_subnormal f l) x answer.old answer.new }
    ensures tens_once { let c = settings_of c in
        let l = ten.tens_in values.now in
        let square = spec.is_square (summand_of u) in
        let ts = ten.extended_terms c (summand_of u) l in
        let x = spec.on_grid ten.extended square (exact_sum ts) in
        f.kind ≡ 4 → result ≡ 0 → AllNumbers l → 0 < x.mag
        → HoldsTensOnce c (grid ten.extended square) (any ten.subnormal_extended l) x answer.old
        answer.new }
{
    enter_sum(f, c, u, values, answer)
}

/// And what the exported dot product writes is the exact sum of the products, rounded once.
pub fn dot_entry_rounded_once(
    f: Format,
    c: Settings,
    left: &[u8],
    right: &[u8],
    answer: &mut [u8],
) -> u64
    ensures is { Enters (ten.dot_call (format_of f) (settings_of c) left.now right.now answer.old)
        result answer.new }
    ensures once { let f = format_of f in
        let c = settings_of c in
        let xs = values_in left.now in
        let ys = values_in right.now in
        let x = exact_dot f c xs ys in
        f.kind ≢ 4 → result ≡ 0 → AllFinite f xs → AllFinite f ys → 0 < x.mag
        → HoldsOnce f c (grid f true) (some_subnormal f xs || some_subnormal f ys) x answer.old
        answer.new }
    ensures tens_once { let c = settings_of c in
        let xs = ten.tens_in left.now in
        let ys = ten.tens_in right.now in
        let x = spec.on_grid ten.extended true (exact_sum (ten.extended_dot_terms c xs ys)) in
        f.kind ≡ 4 → result ≡ 0 → AllNumbers xs → AllNumbers ys → 0 < x.mag
        → HoldsTensOnce c (grid ten.extended true)
        (any ten.subnormal_extended xs || any ten.subnormal_extended ys) x answer.old answer.new }
{
    enter_dot(f, c, left, right, answer)
}
