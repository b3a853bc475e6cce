// The totals of lists that pass the tests that do not look at the elements: wherever these stand,
// and however they are encoded. These functions serve the crates beside this one.
ghost use Rattle.std.specs.Prelude.{◌≡◌, ◌<◌, map, length};
ghost use Rattle.std.specs.Result.{ForOk};
ghost use Rattle.totals_spec.specs.formats.Bounds.{SettingsBounds};
ghost use Rattle.totals_spec.specs.sums.Totals as totals;
ghost use Rattle.format.specs.Shapes.{shape_of};
ghost use Rattle.format.specs.Layouts.{layout_of};
ghost use Rattle.format.specs.Environments.{env_of};
ghost use Rattle.binary.specs.Summands.{summand_in, summand_number};
ghost use Rattle.reduction.specs.Answered.{answer_of, wide, Known, answer_as, given_as};
ghost use Rattle.reduction.specs.Encodings.{item_in, pair_in};
ghost use Rattle.reduction.specs.Held.{Summable};
ghost use Rattle.totals.specs.Refusal.{sum_numbers, dot_numbers};
ghost use Rattle.totals.specs.Asked.{answer_in};
ghost use Rattle.totals.specs.Walked.{met, Scans, Totals, Within, sum_in, dot_in};
ghost use Rattle.totals.specs.Walked.{terms_in, products_in};

use crate::refusal::Refusal;
use crate::stray::no_stray;
use binary::summand::Summand;
use format::env::Env;
use format::layout::Layout;
use format::shape::Shape;
use near::near;
use reduction::allowance::{Allowance, Every};
use reduction::lists::{scan_list, scan_pairs};
use reduction::numbers::{Encoded, Numbers};
use reduction::scan::{Scan, decided};
use reduction::terms::{Paired, Summed, Terms};
use reduction::total::{Answer, Wide, finish, special};
use reduction::walk::within;
use values::elements::Elements;
use window::Stopped;

// The record of a list of terms, by its scan: what that decides alone, or the sum of the terms; or
// where this stops, within an allowance of passes.
#[inline(always)]
fn total<T: Terms, A: Allowance>(
    shape: Shape,
    env: Env,
    products: bool,
    infinity_first: bool,
    scan: &Scan,
    list: &T,
    allowance: A,
) -> Result<Wide, Stopped>
    requires known { Known (wide (shape_of shape)) (shape_of shape)
        × SettingsBounds (shape_of shape) (env_of env) × (0 < A.allowed allowance) }
    requires summable { Summable (shape_of shape) (T.items list.now)
        × Scans (shape_of shape) (env_of env) (T.items list.now) scan.now }
    ensures { Totals (shape_of shape) (env_of env) products infinity_first (T.items list.now)
        (A.allowed allowance) scan.now result }
{
    match decided(env, infinity_first, scan) {
        Some(given) => Ok(special(shape, scan.subnormal, given.value, given.invalid)),
        None => match within(list, shape.digits(), scan.top, allowance) {
            Ok(sum) => Ok(finish(shape, env, products, scan.subnormal, sum)),
            Err(stopped) => Err(stopped),
        },
    }
}

/// The sum of some numbers, within an allowance of passes.
#[inline(always)]
pub fn sum_in<N: Numbers, A: Allowance>(
    env: Env,
    summand: Summand,
    numbers: N,
    allowance: A,
) -> Result<Wide, Stopped>
    requires known { let format = (N.encoding numbers).format in
        Known (wide format) format × SettingsBounds format (env_of env)
        × (0 < A.allowed allowance) }
    requires summable { let encoding = N.encoding numbers in
        Summable encoding.format
        (map (item_in encoding (env_of env) (summand_in summand)) (N.codes numbers)) }
    ensures { let encoding = N.encoding numbers in
        Within encoding.format
        (sum_in encoding (env_of env) (summand_in summand) (N.codes numbers))
        (terms_in encoding (env_of env) (summand_in summand) (N.codes numbers))
        (A.allowed allowance) result }
{
    let scan = scan_list(&numbers, env, summand);
    total(
        numbers.shape(),
        env,
        summand == Summand::Square,
        summand != Summand::Value,
        &scan,
        &Summed {
            numbers,
            env,
            summand,
        },
        allowance,
    )
}

/// The sum of the products of the pairs of two lists, likewise.
#[inline(always)]
pub fn dot_in<N: Numbers, A: Allowance>(
    env: Env,
    left: N,
    right: N,
    allowance: A,
) -> Result<Wide, Stopped>
    requires as_long { length (N.codes right) ≡ length (N.codes left) }
    requires known { let format = (N.encoding left).format in
        Known (wide format) format × SettingsBounds format (env_of env)
        × (0 < A.allowed allowance) }
    requires summable { let encoding = N.encoding left in
        Summable encoding.format
        (map (pair_in encoding (env_of env)) (totals.pairs (N.codes left) (N.codes right))) }
    ensures { let encoding = N.encoding left in
        let pairs = totals.pairs (N.codes left) (N.codes right) in
        Within encoding.format (dot_in encoding (env_of env) pairs)
        (products_in encoding (env_of env) pairs) (A.allowed allowance) result }
{
    let scan = scan_pairs(&left, &right, env);
    total(
        left.shape(),
        env,
        true,
        false,
        &scan,
        &Paired { left, right, env },
        allowance,
    )
}

// The sum of some numbers, with every pass that it takes.
#[inline(always)]
pub(crate) fn sum_of<N: Numbers>(env: Env, summand: Summand, numbers: N) -> Wide
    requires known { let format = (N.encoding numbers).format in
        Known (wide format) format × SettingsBounds format (env_of env) }
    requires summable { let encoding = N.encoding numbers in
        Summable encoding.format
        (map (item_in encoding (env_of env) (summand_in summand)) (N.codes numbers)) }
    ensures { let encoding = N.encoding numbers in
        answer_as (wide encoding.format) result
        ≡ given_as (wide encoding.format)
        (sum_in encoding (env_of env) (summand_in summand) (N.codes numbers)) }
{
    match sum_in(env, summand, numbers, Every) {
        Ok(total) => total,
        Err(_) => unreachable!(),
    }
}

// The sum of the products of the pairs, likewise.
#[inline(always)]
pub(crate) fn dot_of<N: Numbers>(env: Env, left: N, right: N) -> Wide
    requires as_long { length (N.codes right) ≡ length (N.codes left) }
    requires known { let format = (N.encoding left).format in
        Known (wide format) format × SettingsBounds format (env_of env) }
    requires summable { let encoding = N.encoding left in
        Summable encoding.format
        (map (pair_in encoding (env_of env)) (totals.pairs (N.codes left) (N.codes right))) }
    ensures { let encoding = N.encoding left in
        answer_as (wide encoding.format) result
        ≡ given_as (wide encoding.format)
        (dot_in encoding (env_of env) (totals.pairs (N.codes left) (N.codes right))) }
{
    match dot_in(env, left, right, Every) {
        Ok(total) => total,
        Err(_) => unreachable!(),
    }
}

/// The sum of a list that is accepted.
#[inline(always)]
pub fn unstrayed_sum<E: Elements>(layout: Layout, env: Env, summand: Summand, elements: E) -> Answer
    requires { totals.sum_refusal (layout_of layout) (env_of env) (summand_number summand)
        (E.list elements) ≡ 0 }
    ensures { answer_of result
        ≡ totals.sum_answer (layout_of layout) (env_of env) (summand_number summand)
        (E.list elements) }
{
    if let Some(answer) = near(layout, env, summand, &elements) {
        return answer;
    }
    let total = sum_of(env, summand, Encoded { layout, elements });
    total.answer
}

/// The sum of the elements of a list, unless one of them has a stray bit.
pub fn sum<E: Elements>(
    layout: Layout,
    env: Env,
    summand: Summand,
    elements: E,
) -> Result<Answer, Refusal>
    requires { sum_numbers (layout_of layout) (env_of env) (summand_number summand)
        (length (E.list elements)) ≡ 0 }
    ensures told { answer_in result
        ≡ totals.sum_answer (layout_of layout) (env_of env) (summand_number summand)
        (E.list elements) }
    ensures accepted { ForOk result (λ a.
        totals.sum_refusal (layout_of layout) (env_of env) (summand_number summand)
        (E.list elements) ≡ 0) }
{
    no_stray(layout.shape.width, &elements)?;
    Ok(unstrayed_sum(layout, env, summand, elements))
}

// The sum of the products of the pairs, likewise: a stray bit is looked for in the left list first.
pub(crate) fn dot<E: Elements>(
    layout: Layout,
    env: Env,
    left: E,
    right: E,
) -> Result<Answer, Refusal>
    requires { dot_numbers (layout_of layout) (env_of env) (length (E.list left))
        (length (E.list right)) ≡ 0 }
    ensures { answer_in result
        ≡ totals.dot_answer (layout_of layout) (env_of env) (E.list left) (E.list right) }
{
    let width = layout.shape.width;
    no_stray(width, &left)?;
    no_stray(width, &right)?;
    let total = dot_of(
        env,
        Encoded {
            layout,
            elements: left,
        },
        Encoded {
            layout,
            elements: right,
        },
    );
    Ok(total.answer)
}

/// Whether a scan met a NaN or an infinity.
pub fn met_special(scan: &Scan) -> bool
    ensures { result ≡ met scan.now }
{
    scan.nan.is_some() || scan.positive_infinity || scan.negative_infinity
}
