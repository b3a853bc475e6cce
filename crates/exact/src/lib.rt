// Exact values, and their one rounding into a format. Positions are counted in units, from 0
// (totals_spec, Format). Significands of the formats have up to 64 digits.
#![tactic(auto)]

pub mod rounding;

ghost use Rattle.std.specs.Prelude.{◌≡◌, true, cond, ℕ, ◌+◌, ◌*◌, ◌/◌, ◌^◌, ◌<◌, ◌≤◌, leb, eqb};
ghost use Rattle.limbs.specs.Value.{bit_length};
ghost use Rattle.totals_spec.specs.Basics as basics;
ghost use Rattle.totals_spec.specs.formats.Format as spec;
ghost use Rattle.totals_spec.specs.formats.Settings as settings;
ghost use Rattle.totals_spec.specs.rounding.Round as round;
ghost use Rattle.format.specs.Modes.{rounding_number, tininess_number};
ghost use Rattle.format.specs.Shapes.{shape_of};
ghost use Rattle.format.specs.Environments.{env_of};
ghost use Rattle.format.specs.Unpacked.{unpacked_of};
ghost use Rattle.format.specs.Fits.{Encodes};
ghost use Rattle.exact.specs.Unrounded.{dropped_of, small_of, rounded_of, significand_of, Stands};
ghost use Rattle.exact.specs.Unrounded.{end_of, Narrows, Measured, RoundedTo, Rounds, Begins};
ghost use Rattle.exact.specs.Unrounded.{RoundedOnce};

use crate::rounding::{Dropped, Underflow, overflows_to_infinity, rounds_up};
use format::env::Env;
use format::flags::{INEXACT, OVERFLOW, ROUNDED_UP, flag};
use format::kind::Kind;
use format::modes::{Rounding, Tininess};
use format::shape::Shape;
use format::unpacked::Unpacked;
use limbs::pair;
use limbs::word::{ones, power, scaled, split};

/// A magnitude to round: the significand times 2^position units, or with a sticky bit any number
/// between that and significand + 1 of these.
#[derive(Clone, Copy)]
pub struct Unrounded {
    pub negative: bool,
    pub sticky: bool,
    pub position: u64,
    pub significand: u128,
}

/// A magnitude cut at a position: the digits at and above it, and what is dropped.
#[derive(Clone, Copy)]
pub struct Cut {
    pub kept: u64,
    pub dropped: Dropped,
}

/// Rounded digits: `kept` times 2^lowest, whether the magnitude went up, and whether it changed.
#[derive(Clone, Copy)]
pub struct Digits {
    pub kept: u64,
    pub lowest: u64,
    pub up: bool,
    pub inexact: bool,
}

/// A rounded value, and the flags of its rounding.
#[derive(Clone, Copy)]
pub struct Rounded {
    pub value: Unpacked,
    pub flags: u64,
}

// The bits of the two words of a significand.
const TWO_WORDS: usize = 128;

/// A window to round, in two words: those from its highest on, with a sticky bit for what is
/// dropped below them. They keep at least 65 bits, one more than a result can have.
// Inlined by name: a call hands the window over in memory, which for a list of one element is a
// fifth.
#[inline(always)]
pub fn narrowed(negative: bool, sticky: bool, position: u64, window: [u64; 12]) -> Unrounded
    requires { position < 2 ^ 63 }
    ensures { Narrows negative sticky position window result }
{
    let length = limbs::window::bit_length(window);
    if length <= TWO_WORDS {
        return Unrounded {
            negative,
            sticky,
            position,
            significand: pair::joined(window[0], window[1]),
        };
    }
    let top = split(length - 1).word;
    let under = top - 1;
    Unrounded {
        negative,
        sticky: sticky || limbs::window::any_below(window, 64 * under),
        position: position + 64 * (under as u64),
        significand: pair::joined(window[under], window[top]),
    }
}

/// Nothing to round.
pub fn nothing() -> Unrounded
    ensures { significand_of result ≡ 0 }
{
    Unrounded {
        negative: false,
        sticky: false,
        position: 0,
        significand: 0,
    }
}

impl Unrounded {
    /// Whether there is nothing to round.
    pub fn is_nothing(self) -> bool
        ensures { result ≡ eqb (significand_of self) 0 }
    {
        self.significand == 0
    }

    /// The number of digits of the significand.
    pub fn length(self) -> u64
        ensures { (result ≡ bit_length (significand_of self)) × (result ≤ 128) }
    {
        pair::bit_length(self.significand) as u64
    }

    /// Cuts at a position from which the digits fit a word, and below which all lies that the
    /// sticky bit stands for.
    pub fn cut(self, lowest: u64) -> Cut
        requires self_nonzero { (0 < significand_of self) × (end_of self ≤ lowest + 64) }
        requires position_lt_lowest { self.sticky ≡ true → self.position < lowest }
        ensures { (x : ℕ) → Stands self x → (result.kept ≡ x / 2 ^ lowest)
            × (dropped_of result.dropped ≡ round.dropped x lowest) }
    {
        if lowest <= self.position {
            return Cut {
                kept: scaled(pair::low(self.significand), self.position - lowest),
                dropped: Dropped::Nothing,
            };
        }
        let below = (lowest - self.position - 1) as usize;
        let one = pair::shr(self.significand, below);
        let rest = self.sticky | pair::any_below(self.significand, below);
        Cut {
            kept: pair::low(one >> 1),
            dropped: Dropped::new(one % 2 == 1, rest),
        }
    }
}

// The first digits, as many as `precision` says, of a value whose highest bit lies just below
// `end`, rounded as if the exponent had no limit. Where they round up to 2^precision, they are one
// half of it, one position higher.
fn first_digits(rounding: Rounding, value: Unrounded, end: u64, precision: u64) -> Digits
    requires { Measured value end precision }
    ensures { RoundedTo (settings.rounding_of (rounding_number rounding)) value end precision
        result }
{
    let lowest = end - precision;
    let first = value.cut(lowest);
    let dropped = first.dropped;
    let up = rounds_up(rounding, value.negative, first.kept, dropped);
    let inexact = dropped.is_inexact();
    if !up {
        Digits {
            kept: first.kept,
            lowest,
            up,
            inexact,
        }
    } else if first.kept < ones(precision) {
        Digits {
            kept: first.kept + 1,
            lowest,
            up,
            inexact,
        }
    } else {
        Digits {
            kept: power(precision - 1),
            lowest: lowest + 1,
            up,
            inexact,
        }
    }
}

// Whether so many digits, kept * 2^lowest, are above the largest finite number. In NoInf the
// largest pattern of all is the NaN.
fn overflows(shape: Shape, precision: u64, grid: u64, kept: u64, lowest: u64) -> bool
    requires range_bounds { (grid < 2 ^ 62) × (lowest < 2 ^ 63) }
    requires le_q { (1 ≤ precision) × (precision ≤ spec.digits (shape_of shape))
        × (bit_length kept ≡ precision) }
    ensures { result ≡ round.overflows (shape_of shape) precision grid (kept * 2 ^ lowest) }
{
    let top = lowest + (precision - 1);
    let most = shape.emax(grid);
    if top != most {
        return top > most;
    }
    shape.kind.is_no_inf() && precision == shape.digits() && kept == ones(precision)
}

// The largest finite number of so many digits.
fn largest(shape: Shape, precision: u64, negative: bool) -> Unpacked
    requires { (1 ≤ precision) × (precision ≤ spec.digits (shape_of shape)) }
    ensures { (unpacked_of result ≡ round.largest (shape_of shape) precision negative)
        × Encodes (shape_of shape) (unpacked_of result) }
{
    let digits = shape.digits();
    let all = scaled(ones(precision), digits - precision);
    Unpacked::Finite {
        negative,
        shift: shape.exponent_range(),
        significand: if shape.kind.is_no_inf() && precision == digits {
            all - 1
        } else {
            all
        },
    }
}

const OVERFLOWED: u64 = OVERFLOW + INEXACT;

const OVERFLOWED_UP: u64 = OVERFLOWED + ROUNDED_UP;

// What an overflow gives: an infinity or, in a kind without one, the NaN; the largest number where
// the mode or `saturate` says so, and in a kind that has neither. Only the infinity is above the
// exact value.
fn overflow(shape: Shape, env: Env, precision: u64, negative: bool) -> Rounded
    requires { (1 ≤ precision) × (precision ≤ spec.digits (shape_of shape)) }
    ensures { (rounded_of result ≡ round.overflow (shape_of shape) (env_of env) precision negative)
        × Encodes (shape_of shape) (unpacked_of result.value) × (result.flags < 128) }
{
    let most = Rounded {
        value: largest(shape, precision, negative),
        flags: OVERFLOWED,
    };
    if env.saturate || !overflows_to_infinity(env.rounding, negative) {
        return most;
    }
    match shape.kind {
        Kind::Ieee => Rounded {
            value: Unpacked::Infinity(negative),
            flags: OVERFLOWED_UP,
        },
        Kind::Finite => most,
        Kind::NoInf | Kind::Fnuz => Rounded {
            value: Unpacked::Nan {
                negative,
                signaling: false,
                payload: 0,
            },
            ..most
        },
    }
}

// A magnitude of at least 2^emin: its first digits.
fn round_normal(
    shape: Shape,
    env: Env,
    grid: u64,
    value: Unrounded,
    precision: u64,
    first: Digits,
) -> Rounded
    requires { Begins (shape_of shape) (env_of env) grid value precision first
        × (spec.emin_at (shape_of shape) grid < end_of value) }
    ensures { RoundedOnce (shape_of shape) (env_of env) grid value result }
{
    let digits = shape.digits();
    if overflows(shape, precision, grid, first.kept, first.lowest) {
        return overflow(shape, env, precision, value.negative);
    }
    Rounded {
        value: Unpacked::Finite {
            negative: value.negative,
            shift: first.lowest + precision - (grid + digits),
            significand: scaled(first.kept, digits - precision),
        },
        flags: flag(INEXACT, first.inexact) + flag(ROUNDED_UP, first.up),
    }
}

// Whether a magnitude below 2^emin is tiny: before rounding it is; after rounding, while its
// rounded digits, up to `end`, stay below emin.
fn is_tiny(tininess: Tininess, end: u64, least: u64) -> bool
    ensures { result ≡ cond (basics.is_set (tininess_number tininess)) (leb end least) true }
{
    tininess == Tininess::BeforeRounding || end <= least
}

// Digits on the subnormal grid, `up` places above its unit.
fn small_number(negative: bool, kept: u64, up: u64) -> Unpacked
    requires { (up < 64) × (kept * 2 ^ up < 2 ^ 64) }
    ensures { unpacked_of result ≡ small_of negative kept up }
{
    if kept == 0 {
        Unpacked::Zero(negative)
    } else {
        Unpacked::Finite {
            negative,
            shift: 0,
            significand: scaled(kept, up),
        }
    }
}

// A magnitude below 2^emin: the digits down to the subnormal grid. They are cut from the value
// itself; the first digits, as if the exponent had no limit, decide only whether it is tiny.
fn round_small(
    shape: Shape,
    env: Env,
    grid: u64,
    value: Unrounded,
    precision: u64,
    unlimited: Digits,
) -> Rounded
    requires { Begins (shape_of shape) (env_of env) grid value precision unlimited
        × (end_of value ≤ spec.emin_at (shape_of shape) grid) }
    ensures { RoundedOnce (shape_of shape) (env_of env) grid value result }
{
    let negative = value.negative;
    let digits = shape.digits();
    let tiny = is_tiny(env.tininess, unlimited.lowest + precision, shape.emin(grid));
    let first = value.cut(grid + (digits - precision));
    let dropped = first.dropped;
    let up = rounds_up(env.rounding, negative, first.kept, dropped);
    match Underflow::new(tiny, dropped.is_inexact(), env.flush_to_zero) {
        Underflow::Flushed(flags) => Rounded {
            value: Unpacked::Zero(negative),
            flags,
        },
        Underflow::Kept(flags) => {
            let kept = first.kept + flag(1, up);
            let raised = flags + flag(ROUNDED_UP, up);
            Rounded {
                value: small_number(negative, kept, digits - precision),
                flags: raised,
            }
        }
    }
}

/// One rounding of a non-zero magnitude, where `grid` is the position of the format's least
/// non-zero number (docs/SPECIFICATION.md, The one rounding).
pub fn round(shape: Shape, env: Env, grid: u64, value: Unrounded) -> Rounded
    requires { Rounds (shape_of shape) (env_of env) grid value }
    ensures { RoundedOnce (shape_of shape) (env_of env) grid value result }
{
    let end = value.position + value.length();
    let precision = env.digits(shape);
    let first = first_digits(env.rounding, value, end, precision);
    if end > shape.emin(grid) {
        round_normal(shape, env, grid, value, precision, first)
    } else {
        round_small(shape, env, grid, value, precision, first)
    }
}
