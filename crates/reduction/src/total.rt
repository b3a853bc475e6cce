// From a scan and a chain of passes to the record of a total.
ghost use Rattle.std.specs.Prelude.{◌≡◌, false, ℕ, ◌^◌, ◌<◌, ◌≤◌};
ghost use Rattle.std.proofs.Math.IntN.{sub_ℕ};
ghost use Rattle.totals_spec.specs.Basics.{Signed, raised};
ghost use Rattle.totals_spec.specs.formats.Format as spec;
ghost use Rattle.totals_spec.specs.formats.Decode as dec;
ghost use Rattle.totals_spec.specs.formats.Encode as enc;
ghost use Rattle.totals_spec.specs.sums.Totals as totals;
ghost use Rattle.totals_spec.specs.rounding.Side as side;
ghost use Rattle.totals_spec.specs.formats.KindValues.{Alone};
ghost use Rattle.totals_spec.specs.chain.Chain.{Run};
ghost use Rattle.totals_spec.specs.chain.Settled as settled;
ghost use Rattle.totals_spec.specs.formats.Bounds.{SettingsBounds};
ghost use Rattle.format.specs.Kinds.{number_of};
ghost use Rattle.format.specs.Shapes.{shape_of};
ghost use Rattle.format.specs.Layouts.{layout_of};
ghost use Rattle.format.specs.Environments.{env_of};
ghost use Rattle.format.specs.Unpacked.{unpacked_of};
ghost use Rattle.format.specs.Fits.{Encodes};
ghost use Rattle.window.specs.Chain.{outcome_of, run_of, Ended, LeftOf};
ghost use Rattle.reduction.specs.Answered.{wide, Known, words_as, written_as, answer_of, Reports};
ghost use Rattle.reduction.specs.Answered.{CanRound, LeavesSum, RoundedSum, Into, LeftInto};
ghost use Rattle.reduction.specs.Answered.{sum_record, target_record, record_of, last_edge_of};

use binary::encode;
use binary::extended::encode as encode_ten;
use exact::{Rounded, Unrounded, round};
use format::env::Env;
use format::flags::{DENORMAL_INPUT, INEXACT, INVALID, ROUNDED_UP, flag, has_flag};
use format::layout::Layout;
use format::shape::Shape;
use format::unpacked::Unpacked;
use values::Ten;
use window::ExactSum;

// The width of a word: a wider format is that of kind 4.
const WORD_BITS: u64 = 64;

/// A result that is the exact sum (docs/SPECIFICATION.md, The side).
pub const EQUAL: u64 = 0;

/// A result below the exact sum.
pub const BELOW: u64 = 1;

/// A result above the exact sum.
pub const ABOVE: u64 = 2;

/// A NaN or an infinity, which is not compared.
pub const NO_COMPARISON: u64 = 3;

/// The record of a total (docs/SPECIFICATION.md, The record): result, flags, passes, where the last
/// pass cut, and side.
#[derive(Clone, Copy, PartialEq, Eq, Debug)]
pub struct Answer {
    pub result: u64,
    pub flags: u64,
    pub passes: u64,
    // where the last pass cut, as a position; 0 without a pass
    pub last_edge: i64,
    pub side: u64,
}

/// The record of a total of any kind: the result of kind 4 has a second word, its head.
#[derive(Clone, Copy)]
pub struct Wide {
    pub head: u16,
    pub answer: Answer,
}

// The side of a number by its sign and the flags of its rounding: a magnitude that went up lies
// further from zero than the sum.
fn leaning(negative: bool, flags: u64) -> u64
    ensures { result ≡ side.by_flags negative flags }
{
    if !has_flag(flags, INEXACT) {
        return EQUAL;
    }
    if has_flag(flags, ROUNDED_UP) {
        if negative { BELOW } else { ABOVE }
    } else {
        if negative { ABOVE } else { BELOW }
    }
}

// The side of a rounded sum.
#[tactic(auto, unfolding(totals_spec::specs::rounding::Side::rounded_side))]
fn side_of(value: Unpacked, flags: u64) -> u64
    ensures { result ≡ side.rounded_side (unpacked_of value) flags }
{
    match value {
        Unpacked::Zero(negative) | Unpacked::Finite { negative, .. } => leaning(negative, flags),
        Unpacked::Infinity(_) | Unpacked::Nan { .. } => NO_COMPARISON,
    }
}

// An encoding in one word, or in two.
fn encoded(shape: Shape, value: Unpacked) -> Ten
    requires { Known (wide (shape_of shape)) (shape_of shape)
        × Encodes (shape_of shape) (unpacked_of value) }
    ensures { let is_wide = wide (shape_of shape) in
        words_as is_wide result.head result.significand
        ≡ written_as is_wide (enc.encode (shape_of shape) (unpacked_of value)) }
{
    if shape.width > WORD_BITS {
        return encode_ten(value);
    }
    Ten {
        head: 0,
        significand: encode(Layout { shape }, value),
    }
}

/// A record without a pass: a zero beside a sum of 0, or what is not compared.
pub fn special(shape: Shape, subnormal: bool, value: Unpacked, invalid: bool) -> Wide
    requires { Known (wide (shape_of shape)) (shape_of shape)
        × Encodes (shape_of shape) (unpacked_of value)
        × Alone (spec.kind_of (number_of shape.kind)) (unpacked_of value) }
    ensures { Reports (shape_of shape) result
        (totals.special (shape_of shape) subnormal (unpacked_of value) invalid) }
{
    let words = encoded(shape, value);
    let answer = Answer {
        result: words.significand,
        flags: flag(DENORMAL_INPUT, subnormal) + flag(INVALID, invalid),
        passes: 0,
        last_edge: 0,
        side: side_of(value, 0),
    };
    Wide {
        head: words.head,
        answer,
    }
}

/// What the end of a chain for so many digits leaves to round; nothing where the terms cancel.
#[inline(always)]
pub fn left(digits: u64, sum: ExactSum) -> Unrounded
    requires { (digits ≤ 64) × Ended digits sum }
    ensures { LeftOf digits (settled.settled (outcome_of sum)) result }
{
    sum.outcome.left()
}

// The exact sum, of which `left` is left, counted from a unit `up` positions lower and rounded once
// on a grid. Terms that cancel give a zero.
fn round_sum(shape: Shape, env: Env, grid: u64, up: u64, left: Unrounded) -> Rounded
    requires { CanRound (shape_of shape) (env_of env) grid up left }
    ensures { (p : ℕ) (x : Signed) → LeftOf p x left
        → RoundedSum (shape_of shape) (env_of env) grid (raised up x) result }
{
    if left.is_nothing() {
        return Rounded {
            value: Unpacked::Zero(env.zero_sum_is_negative()),
            flags: 0,
        };
    }
    let mut lifted = left;
    lifted.position += up;
    round(shape, env, grid, lifted)
}

// A position counted from the unit, as one counted from the bit worth 1.
fn position_of(at: u64, origin: u64) -> i64
    requires { (at < 2 ^ 63) × (origin < 2 ^ 63) }
    ensures { result ≡ sub_ℕ at origin }
{
    (at as i64) - (origin as i64)
}

/// A place in a chain over the terms of a list in a format, as a position.
pub fn place(shape: Shape, products: bool, at: u64) -> i64
    requires { at < 2 ^ 62 }
    ensures { result ≡ last_edge_of (shape_of shape) products at }
{
    position_of(at + shape.fall(products), shape.origin(products))
}

// The record of a rounding, encoded, and of the chain behind it.
fn recorded(subnormal: bool, encoding: u64, rounded: Rounded, passes: u64, last_edge: i64) -> Answer
    requires { rounded.flags < 128 }
    ensures { answer_of result ≡ record_of subnormal encoding rounded passes last_edge }
{
    let value = rounded.value;
    Answer {
        result: encoding,
        flags: flag(DENORMAL_INPUT, subnormal) + rounded.flags,
        passes,
        last_edge,
        side: side_of(value, rounded.flags),
    }
}

/// The record of a sum of which `left` is left after some passes, the last of them at `edge`: that
/// of a chain that comes to the same sum.
#[inline(always)]
pub fn finish_left(
    shape: Shape,
    env: Env,
    products: bool,
    subnormal: bool,
    left: Unrounded,
    passes: u64,
    edge: u64,
) -> Wide
    requires { Known (wide (shape_of shape)) (shape_of shape)
        × SettingsBounds (shape_of shape) (env_of env)
        × LeavesSum (spec.digits (shape_of shape)) left × (edge < 2 ^ 62) }
    ensures { (x : Signed) (run : Run) → LeftOf (spec.digits (shape_of shape)) x left
        → run.passes ≡ passes → run.edge ≡ edge
        → Reports (shape_of shape) result
        (sum_record (shape_of shape) (env_of env) subnormal products x run) }
{
    let rounded = round_sum(shape, env, shape.grid(products), shape.rise(products), left);
    let value = rounded.value;
    let words = encoded(shape, value);
    let last_edge = place(shape, products, edge);
    let answer = recorded(subnormal, words.significand, rounded, passes, last_edge);
    Wide {
        head: words.head,
        answer,
    }
}

/// The record of a chain of passes.
#[inline(always)]
pub fn finish(shape: Shape, env: Env, products: bool, subnormal: bool, sum: ExactSum) -> Wide
    requires { Known (wide (shape_of shape)) (shape_of shape)
        × SettingsBounds (shape_of shape) (env_of env)
        × Ended (spec.digits (shape_of shape)) sum }
    ensures { Reports (shape_of shape) result
        (sum_record (shape_of shape) (env_of env) subnormal products
        (settled.settled (outcome_of sum)) (run_of sum)) }
{
    let left = left(shape.digits(), sum);
    finish_left(shape, env, products, subnormal, left, sum.passes, sum.edge)
}

/// The record of a target (docs/SPECIFICATION.md, Targets): a sum in one format of which `left` is
/// left, rounded once into another. Counted from a unit that lies lower by the target's depth and
/// the list's fall, the target's least number has a position, wherever its grid lies. Passes and
/// last edge are the list's, and as they are given.
pub fn print_left(
    shape: Shape,
    target: Layout,
    env: Env,
    subnormal: bool,
    passes: u64,
    last_edge: i64,
    left: Unrounded,
) -> Answer
    requires { LeftInto (shape_of shape) (layout_of target) (env_of env) left }
    ensures { (x : Signed) (run : Run) → LeftOf (spec.digits (shape_of shape)) x left
        → passes ≡ run.passes → last_edge ≡ last_edge_of (shape_of shape) false run.edge
        → answer_of result
        ≡ target_record (shape_of shape) (layout_of target) (env_of env) subnormal x run }
{
    let grid = shape.origin(false) + target.shape.lift();
    let up = target.shape.depth() + shape.fall(false);
    let rounded = round_sum(target.shape, env, grid, up, left);
    let encoding = encode(target, rounded.value);
    recorded(subnormal, encoding, rounded, passes, last_edge)
}

/// The record of a target, of the sum that a chain of passes ends with.
pub fn print(shape: Shape, target: Layout, env: Env, subnormal: bool, sum: ExactSum) -> Answer
    requires { Into (shape_of shape) (layout_of target) (env_of env) sum }
    ensures { answer_of result ≡ target_record (shape_of shape) (layout_of target) (env_of env)
        subnormal (settled.settled (outcome_of sum)) (run_of sum) }
{
    let left = left(shape.digits(), sum);
    let last_edge = place(shape, false, sum.edge);
    print_left(shape, target, env, subnormal, sum.passes, last_edge, left)
}

/// The record of a target where the list has no term: a zero, by the signs of the listed zeros.
pub fn print_zero(
    target: Layout,
    env: Env,
    subnormal: bool,
    positive_zero: bool,
    negative_zero: bool,
) -> Answer
    ensures { let towards = totals.towards_negative (env_of env) in
        let zero = dec.zero_of (totals.zero_sign positive_zero negative_zero towards) in
        answer_of result ≡ totals.special (layout_of target) subnormal zero false }
{
    let negative = env.zero_sum_sign(positive_zero, negative_zero);
    let zero = special(target.shape, subnormal, Unpacked::Zero(negative), false);
    zero.answer
}
