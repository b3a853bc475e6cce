// Pence: a hundred times a number, rounded to an integer, half a penny away from zero. Of the
// number that an encoding stands for, and of the exact sum of a list.
ghost use Rattle.std.specs.Prelude.{◌≡◌, cond, ℕ, ◌+◌, ◌/◌, ◌^◌, ◌<◌, ◌≤◌, min, pos, neg_ℤ, length};
ghost use Rattle.totals_spec.specs.Basics.{Signed};
ghost use Rattle.totals_spec.specs.pence.Pence as spec;
ghost use Rattle.totals_spec.specs.sums.Totals.{limit};
ghost use Rattle.totals_spec.specs.pence.Hundredfold.{whole_figure};
ghost use Rattle.format.specs.Shapes.{shape_of};
ghost use Rattle.format.specs.Layouts.{layout_of};
ghost use Rattle.format.specs.Formats.{format_of};
ghost use Rattle.format.specs.Unpacked.{unpacked_of};
ghost use Rattle.exact.specs.Unrounded.{significand_of, Stands};
ghost use Rattle.binary.specs.Terms.{Bounded};
ghost use Rattle.window.specs.Chain.{LeftOf};
ghost use Rattle.totals.specs.PenceRecord.{figure_in, list_figure, Countable};

use crate::lists::met_special;
use crate::refusal::{Refusal, layout_for, refuse_if};
use crate::stray::no_stray;
use binary::decode;
use binary::summand::Summand;
use exact::Unrounded;
use exact::rounding::rounds_up;
use format::Format;
use format::env::Env;
use format::flags::flag;
use format::layout::Layout;
use format::modes::Rounding;
use format::shape::Shape;
use format::unpacked::Unpacked;
use limbs::pair;
use limbs::word::{ones, widening_mul};
use near::hundredfold as near_hundredfold;
use reduction::lists::scan_list;
use reduction::numbers::Encoded;
use reduction::terms::Hundreds;
use reduction::total::left;
use reduction::walk::exact;
use values::LIMIT;
use values::elements::{Elements, Words};

// The digits that decide a figure below 2^63 and the half penny beside it.
const DIGITS: u64 = 64;

// A hundred has 7 bits: each value, taken a hundred times, has its T so much higher.
const HUNDRED_BITS: u64 = 7;

// Pence are cut at half a penny: two hundred times the number.
const HALF_PENCE: u64 = 200;

// A figure's magnitude has at most 63 bits, and twice the magnitude 64: a word.
const FIGURE_BITS: u64 = 63;

const WORD_BITS: u64 = 64;

// 2^63, the least magnitude that is refused.
const TOO_LARGE: u64 = 9223372036854775808;

// Half of a number, a half upwards; 2^63 where it is more.
fn halved(twice: u128) -> u64
    ensures { result ≡ min ((twice + 1) / 2) (2 ^ 63) }
{
    (twice / 2 + twice % 2).min(u128::from(TOO_LARGE)) as u64
}

// The magnitude of the figure of m * 2^k / 2^d; 2^63 where it is more. Twice the magnitude is cut
// to a whole number, then halved: the bits that the cut drops lie below the one that decides.
fn magnitude(d: u64, k: u64, m: u64) -> u64
    requires { (k < 536870912) × (0 < m) }
    ensures { result ≡ min (spec.pence_of d k m) (2 ^ 63) }
{
    let twice = widening_mul(HALF_PENCE, m);
    if k <= d {
        return halved(pair::shr(twice, (d - k) as usize));
    }
    let up = k - d;
    if u64::from(pair::bit_length(twice)) + up > WORD_BITS {
        return TOO_LARGE;
    }
    halved(twice << up)
}

fn signed(negative: bool, magnitude: u64) -> i64
    requires { magnitude < 2 ^ 63 }
    ensures { result ≡ cond negative (neg_ℤ (pos magnitude)) (pos magnitude) }
{
    let whole = magnitude as i64;
    if negative { -whole } else { whole }
}

// The figure of a sign and a magnitude.
fn in_range(negative: bool, magnitude: u64) -> Result<i64, Refusal>
    ensures { figure_in result ≡ spec.in_range negative magnitude }
{
    if magnitude >= TOO_LARGE {
        return Err(Refusal::NoPence);
    }
    Ok(signed(negative, magnitude))
}

// The figure of a decoded value, where the least number is 2^(lift - depth).
fn figure_of(depth: u64, lift: u64, value: Unpacked) -> Result<i64, Refusal>
    requires { (lift ≤ 268435456) × Bounded (unpacked_of value) }
    ensures { figure_in result ≡ spec.figure_of depth lift (unpacked_of value) }
{
    match value {
        Unpacked::Zero(_) => Ok(0),
        Unpacked::Finite {
            negative,
            shift,
            significand,
        } => in_range(negative, magnitude(depth, shift + lift, significand)),
        Unpacked::Infinity(_) | Unpacked::Nan { .. } => Err(Refusal::NoPence),
    }
}

/// The pence of the number that an encoding stands for. Refused with 3, 7 or 8 (the specification,
/// "Pence").
pub fn pence_of(format: Format, bits: u64) -> Result<i64, Refusal>
    ensures { figure_in result ≡ spec.pence_answer (format_of format) bits }
{
    let layout = layout_for(format)?;
    refuse_if(bits > ones(format.width), Refusal::StrayBit(0))?;
    let shape = layout.shape;
    figure_of(shape.depth(), shape.lift(), decode(layout, bits))
}

// The figure of a sum in pence. What has its highest bit at 2^63 pence or above is too large; of
// all else the whole pence fit a word, with room for one more.
fn nearest(shape: Shape, sum: Unrounded) -> Result<i64, Refusal>
    requires { Countable sum }
    ensures { (x : ℕ) → Stands sum x → figure_in result
        ≡ whole_figure (shape_of shape) (record { neg = sum.negative; mag = x }) }
{
    let one = shape.origin(false);
    let down = shape.fall(false);
    let end = sum.position + sum.length();
    if end + down > one + FIGURE_BITS {
        return Err(Refusal::NoPence);
    }
    let whole = sum.cut(one - down);
    let dropped = whole.dropped;
    let up = rounds_up(Rounding::TiesToAway, sum.negative, whole.kept, dropped);
    in_range(sum.negative, whole.kept + flag(1, up))
}

// The figure of a sum of hundredfold terms, by what is left of it.
fn whole_pence(shape: Shape, sum: Unrounded) -> Result<i64, Refusal>
    requires { 0 < significand_of sum → Countable sum }
    ensures { (x : Signed) → LeftOf 64 x sum → figure_in result
        ≡ whole_figure (shape_of shape) x }
{
    if sum.is_nothing() {
        return Ok(0);
    }
    nearest(shape, sum)
}

// The figure of a list without a stray bit.
fn hundredfold<E: Elements>(layout: Layout, elements: E) -> Result<i64, Refusal>
    requires { length (E.list elements) ≤ limit }
    ensures { figure_in result ≡ list_figure (layout_of layout) (E.list elements) }
{
    if let Some(sum) = near_hundredfold(layout, &elements) {
        return whole_pence(layout.shape, sum);
    }
    let numbers = Encoded { layout, elements };
    let scan = scan_list(&numbers, Env::default(), Summand::Value);
    refuse_if(met_special(&scan), Refusal::NoPence)?;
    if scan.top == 0 {
        return Ok(0);
    }
    let list = Hundreds { layout, elements };
    let sum = exact(&list, DIGITS, scan.top + HUNDRED_BITS);
    whole_pence(layout.shape, left(DIGITS, sum))
}

/// The pence of the exact sum of a list: no rounding to the format is in between. Its settings are
/// all 0. Refused with 3, 6, 7 or 8 (the specification, "Pence").
pub fn pence_of_sum(format: Format, values: &[u64]) -> Result<i64, Refusal>
    ensures { figure_in result ≡ spec.sum_pence (format_of format) values.now }
{
    let layout = layout_for(format)?;
    refuse_if(values.len() > LIMIT, Refusal::TooManyElements)?;
    let elements = Words { values };
    no_stray(layout.shape.width, &elements)?;
    hundredfold(layout, elements)
}
