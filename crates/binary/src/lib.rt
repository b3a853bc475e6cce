// Encodings: decode, operand, encode; and the choice among NaNs.
#![tactic(auto)]

/// The terms of elements and of pairs.
pub mod element;
/// Encodings of ten bytes.
pub mod extended;
/// The choice among NaNs.
pub mod nan;
/// What the elements of a list are summed as.
pub mod summand;
/// The terms of values of ten bytes.
pub mod ten;
/// Terms, and the arithmetic that makes them of operands.
pub mod term;

ghost use Rattle.std.specs.Prelude.{◌≡◌, ◌+◌, ◌-◌, ◌^◌, ◌<◌, ◌&&◌, ◌==◌};
ghost use Rattle.totals_spec.specs.formats.Format as spec;
ghost use Rattle.totals_spec.specs.formats.Decode as dec;
ghost use Rattle.totals_spec.specs.formats.Encode as enc;
ghost use Rattle.format.specs.Kinds.{number_of};
ghost use Rattle.format.specs.Layouts.{layout_of};
ghost use Rattle.format.specs.Environments.{env_of};
ghost use Rattle.format.specs.Unpacked.{unpacked_of};
ghost use Rattle.format.specs.Fits.{Encodes};
ghost use Rattle.binary.specs.Encodings.{top_field_of, nan_pattern, is_blank, is_plain};

use format::env::Env;
use format::flags::flag;
use format::kind::Kind;
use format::layout::Layout;
use format::unpacked::Unpacked;
use limbs::word::{low_bits, ones, power, scaled};

/// The sign bit of an encoding: true for a negative sign.
pub fn sign_of(layout: Layout, bits: u64) -> bool
    ensures { result ≡ dec.sign_bit (layout_of layout) bits }
{
    (bits >> (layout.shape.width - 1)) % 2 == 1
}

/// The exponent field of an encoding.
pub fn field_of(layout: Layout, bits: u64) -> u64
    ensures { result ≡ dec.field_of (layout_of layout) bits }
{
    low_bits(
        bits >> layout.shape.fraction_bits(),
        layout.shape.exponent_bits as usize,
    )
}

/// The fraction field of an encoding.
pub fn fraction_of(layout: Layout, bits: u64) -> u64
    ensures { (result ≡ dec.fraction_of (layout_of layout) bits)
        × (result < 2 ^ spec.fraction_bits (layout_of layout)) }
{
    low_bits(bits, layout.shape.fraction_bits() as usize)
}

// A number by its field and its fraction. Above an exponent field of 0 it has a leading bit that is
// not in the encoding.
fn decode_finite(fraction_bits: u64, negative: bool, field: u64, fraction: u64) -> Unpacked
    requires { (fraction_bits < 64) × (fraction < 2 ^ fraction_bits) }
    ensures { unpacked_of result ≡ dec.number fraction_bits negative field fraction }
{
    match (field, fraction) {
        (0, 0) => Unpacked::Zero(negative),
        (0, _) => Unpacked::Finite {
            negative,
            shift: 0,
            significand: fraction,
        },
        _ => Unpacked::Finite {
            negative,
            shift: field - 1,
            significand: power(fraction_bits) + fraction,
        },
    }
}

// An exponent field of all ones, in Ieee: an infinity, or a NaN whose first fraction bit says that
// it is quiet.
fn decode_top(fraction_bits: u64, negative: bool, fraction: u64) -> Unpacked
    requires { (0 < fraction_bits) × (fraction_bits < 64) }
    ensures { unpacked_of result ≡ top_field_of fraction_bits negative fraction }
{
    if fraction == 0 {
        Unpacked::Infinity(negative)
    } else {
        Unpacked::Nan {
            negative,
            signaling: fraction < power(fraction_bits - 1),
            payload: low_bits(fraction, (fraction_bits - 1) as usize),
        }
    }
}

// Whether the fields are those of a NaN, in a kind other than Ieee.
fn is_nan_pattern(layout: Layout, negative: bool, field: u64, fraction: u64) -> bool
    ensures { result ≡ nan_pattern (spec.kind_of (number_of layout.shape.kind))
        (layout_of layout) negative field fraction }
{
    match layout.shape.kind {
        Kind::NoInf => field == layout.shape.field_max()
            && fraction == ones(layout.shape.fraction_bits()),
        Kind::Fnuz => negative && field == 0 && fraction == 0,
        Kind::Ieee | Kind::Finite => false,
    }
}

/// What an encoding stands for (docs/SPECIFICATION.md, Decoding).
#[tactic(auto, unfolding(totals_spec::specs::formats::Decode::decode))]
pub fn decode(layout: Layout, bits: u64) -> Unpacked
    ensures { unpacked_of result ≡ dec.decode (layout_of layout) bits }
{
    let negative = sign_of(layout, bits);
    let field = field_of(layout, bits);
    let fraction = fraction_of(layout, bits);
    if layout.shape.kind == Kind::Ieee && field == layout.shape.field_max() {
        decode_top(layout.shape.fraction_bits(), negative, fraction)
    } else if is_nan_pattern(layout, negative, field, fraction) {
        Unpacked::Nan {
            negative,
            signaling: false,
            payload: 0,
        }
    } else {
        decode_finite(layout.shape.fraction_bits(), negative, field, fraction)
    }
}

/// Whether the exponent field alone says, in every kind, that an encoding is a normal number: it is
/// neither 0 nor all ones. One test tells, since 0 less 1 wraps to the greatest word.
pub fn is_plain(layout: Layout, bits: u64) -> bool
    ensures { result ≡ is_plain (layout_of layout) bits }
{
    field_of(layout, bits).wrapping_sub(1) < layout.shape.field_max() - 1
}

/// Whether all bits but the sign are 0: a zero, or Fnuz's NaN.
pub fn is_blank(layout: Layout, bits: u64) -> bool
    ensures { result ≡ is_blank (layout_of layout) bits }
{
    field_of(layout, bits) == 0 && fraction_of(layout, bits) == 0
}

// Whether an encoding, with the value that it is decoded as, is a subnormal number.
fn is_subnormal(layout: Layout, bits: u64, value: Unpacked) -> bool
    ensures { result
        ≡ (dec.is_finite (unpacked_of value) && dec.field_of (layout_of layout) bits == 0) }
{
    matches!(value, Unpacked::Finite { .. }) && field_of(layout, bits) == 0
}

/// What an encoding stands for as an operand, and whether it is subnormal, which denormals-are-zero
/// does not hide.
#[derive(Clone, Copy)]
pub struct Read {
    pub value: Unpacked,
    pub subnormal: bool,
}

/// An operand: the decoded number, or under denormals-are-zero a signed zero in place of a
/// subnormal one. Inlined by name into scans: of dots with many zeros a call for each takes half
/// again as long.
#[tactic(auto, unfolding(totals_spec::specs::formats::Decode::operand, totals_spec::specs::formats::Decode::is_subnormal))]
#[inline(always)]
pub fn operand(layout: Layout, env: Env, bits: u64) -> Read
    ensures { (unpacked_of result.value ≡ dec.operand (layout_of layout) (env_of env) bits)
        × (result.subnormal ≡ dec.is_subnormal (layout_of layout) bits) }
{
    let decoded = decode(layout, bits);
    let subnormal = is_subnormal(layout, bits, decoded);
    let value = if subnormal && env.denormals_are_zero {
        Unpacked::Zero(sign_of(layout, bits))
    } else {
        decoded
    };
    Read { value, subnormal }
}

// The sign, the exponent field and the fraction in their places.
fn assemble(layout: Layout, negative: bool, field: u64, fraction: u64) -> u64
    requires { (field < 2 ^ layout.shape.exponent_bits)
        × (fraction < 2 ^ spec.fraction_bits (layout_of layout)) }
    ensures { result ≡ enc.assembled (layout_of layout) negative field fraction }
{
    flag(power(layout.shape.width - 1), negative)
        + scaled(field, layout.shape.fraction_bits())
        + fraction
}

// Fnuz has no -0: its pattern is the NaN.
fn encode_zero(layout: Layout, negative: bool) -> u64
    ensures { result ≡ enc.zero_bits (spec.kind_of (number_of layout.shape.kind))
        (layout_of layout) negative }
{
    match layout.shape.kind {
        Kind::Fnuz => 0,
        _ => assemble(layout, negative, 0, 0),
    }
}

// Finite has no NaN, and gives +0.
fn encode_nan(layout: Layout, negative: bool, signaling: bool, payload: u64) -> u64
    requires { payload < 2 ^ (spec.fraction_bits (layout_of layout) - 1) }
    ensures { result ≡ enc.nan_bits (spec.kind_of (number_of layout.shape.kind))
        (layout_of layout) negative signaling payload }
{
    match layout.shape.kind {
        Kind::Ieee if signaling => assemble(layout, negative, layout.shape.field_max(), payload),
        Kind::Ieee => assemble(
            layout,
            negative,
            layout.shape.field_max(),
            power(layout.shape.fraction_bits() - 1) + payload,
        ),
        Kind::NoInf => assemble(
            layout,
            negative,
            layout.shape.field_max(),
            ones(layout.shape.fraction_bits()),
        ),
        Kind::Fnuz => assemble(layout, true, 0, 0),
        Kind::Finite => 0,
    }
}

// The leading bit of a normal number stays out; a significand without it is a subnormal's.
#[tactic(auto, unfolding(totals_spec::specs::formats::Encode::encode))]
fn encode_finite(layout: Layout, negative: bool, shift: u64, significand: u64) -> u64
    requires { (shift + 1 < 2 ^ layout.shape.exponent_bits)
        × (significand < 2 ^ spec.digits (layout_of layout)) }
    ensures { result ≡ enc.encode (layout_of layout) (dec.finite negative shift significand) }
{
    let hidden = power(layout.shape.fraction_bits());
    if significand < hidden {
        assemble(layout, negative, 0, significand)
    } else {
        assemble(layout, negative, shift + 1, significand - hidden)
    }
}

/// The encoding of a value that has one in this format (docs/SPECIFICATION.md, Encoding).
#[tactic(auto, unfolding(totals_spec::specs::formats::Encode::encode))]
pub fn encode(layout: Layout, value: Unpacked) -> u64
    requires { Encodes (layout_of layout) (unpacked_of value) }
    ensures { result ≡ enc.encode (layout_of layout) (unpacked_of value) }
{
    match value {
        Unpacked::Zero(negative) => encode_zero(layout, negative),
        Unpacked::Finite {
            negative,
            shift,
            significand,
        } => encode_finite(layout, negative, shift, significand),
        Unpacked::Infinity(negative) => assemble(layout, negative, layout.shape.field_max(), 0),
        Unpacked::Nan {
            negative,
            signaling,
            payload,
        } => encode_nan(layout, negative, signaling, payload),
    }
}
