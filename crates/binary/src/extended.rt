// Encodings of ten bytes (kind 4). The leading bit of a significand is written out, so that some
// encodings stand for nothing, and some numbers have two.
ghost use Rattle.std.specs.Prelude.{◌≡◌, ◌+◌, ◌^◌, ◌<◌, not, ◌==◌};
ghost use Rattle.totals_spec.specs.Basics.{flag};
ghost use Rattle.totals_spec.specs.formats.Decode as dec;
ghost use Rattle.totals_spec.specs.formats.Encode as enc;
ghost use Rattle.totals_spec.specs.ten_bytes.Extended as spec;
ghost use Rattle.format.specs.Shapes.{shape_of};
ghost use Rattle.format.specs.Environments.{env_of};
ghost use Rattle.format.specs.Unpacked.{unpacked_of};
ghost use Rattle.format.specs.Fits.{Encodes};
ghost use Rattle.values.specs.Tens.{ten_of};

use crate::Read;
use format::env::Env;
use format::flags::flag;
use format::kind::Kind;
use format::shape::Shape;
use format::unpacked::Unpacked;
use values::Ten;

// The sign lies above the 15 bits of the field.
const SIGN: u16 = 32768;

const FIELD_MAX: u16 = 32767;

// The leading bit of a significand, and the bit below it, which makes a NaN quiet.
const LEADING: u64 = 9223372036854775808;

const QUIET: u64 = 4611686018427387904;

/// The format whose numbers these are: Ieee with 64 digits.
#[tactic(auto, unfolding(totals_spec::specs::ten_bytes::Extended::extended))]
pub fn extended() -> Shape
    ensures { shape_of result ≡ spec.extended }
{
    Shape {
        kind: Kind::Ieee,
        exponent_bits: 15,
        width: 79,
        bias: None,
    }
}

fn sign_of(ten: Ten) -> bool
    ensures { result ≡ spec.sign_in (ten_of ten) }
{
    ten.head >= SIGN
}

fn field_of(ten: Ten) -> u16
    ensures { result ≡ spec.field_in (ten_of ten) }
{
    ten.head % SIGN
}

/// A field above 0 over a leading bit of 0.
#[tactic(auto, unfolding(totals_spec::specs::ten_bytes::Extended::unsupported))]
pub fn is_unsupported(ten: Ten) -> bool
    ensures { result ≡ spec.unsupported (ten_of ten) }
{
    field_of(ten) != 0 && ten.significand < LEADING
}

// A field of all ones: the leading bit alone is an infinity.
fn decode_top(negative: bool, significand: u64) -> Unpacked
    ensures { unpacked_of result ≡ spec.extended_top negative significand }
{
    if significand == LEADING {
        Unpacked::Infinity(negative)
    } else {
        Unpacked::Nan {
            negative,
            signaling: significand < LEADING + QUIET,
            payload: significand % QUIET,
        }
    }
}

fn decode_number(negative: bool, field: u16, significand: u64) -> Unpacked
    ensures { unpacked_of result ≡ spec.extended_number negative field significand }
{
    match (field, significand) {
        (0, 0) => Unpacked::Zero(negative),
        (0, _) => Unpacked::Finite {
            negative,
            shift: 0,
            significand,
        },
        _ => Unpacked::Finite {
            negative,
            shift: u64::from(field - 1),
            significand,
        },
    }
}

/// What an encoding of ten bytes stands for (docs/SPECIFICATION.md, Eighty-bit values).
#[tactic(auto, unfolding(totals_spec::specs::ten_bytes::Extended::decode_extended, totals_spec::specs::ten_bytes::Extended::unsupported,))]
pub fn decode(ten: Ten) -> Unpacked
    ensures { unpacked_of result ≡ spec.decode_extended (ten_of ten) }
{
    let negative = sign_of(ten);
    let field = field_of(ten);
    if is_unsupported(ten) {
        Unpacked::Nan {
            negative,
            signaling: false,
            payload: 0,
        }
    } else if field == FIELD_MAX {
        decode_top(negative, ten.significand)
    } else {
        decode_number(negative, field, ten.significand)
    }
}

// A pseudo-denormal counts as a subnormal number.
#[tactic(auto, using(crate::proofs::Tens::subnormal_field))]
fn is_subnormal(ten: Ten) -> bool
    ensures { result ≡ spec.subnormal_extended (ten_of ten) }
{
    field_of(ten) == 0 && ten.significand != 0
}

/// An operand: the decoded number, or under denormals-are-zero a signed zero in place of a
/// subnormal one.
#[tactic(auto, unfolding(totals_spec::specs::ten_bytes::Extended::extended_operand))]
pub fn operand(env: Env, ten: Ten) -> Read
    ensures { (unpacked_of result.value ≡ spec.extended_operand (env_of env) (ten_of ten))
        × (result.subnormal ≡ spec.subnormal_extended (ten_of ten)) }
{
    let subnormal = is_subnormal(ten);
    let value = if subnormal && env.denormals_are_zero {
        Unpacked::Zero(sign_of(ten))
    } else {
        decode(ten)
    };
    Read { value, subnormal }
}

// The leading bit of a significand stands below a field above 0.
fn with_leading(field: u16, fraction: u64) -> u64
    requires { fraction < 2 ^ 63 }
    ensures { result ≡ flag (2 ^ 63) (not (field == 0)) + fraction }
{
    if field == 0 {
        fraction
    } else {
        LEADING + fraction
    }
}

// The sign, the exponent field and the significand in their places.
#[tactic(auto, using(crate::proofs::Tens::written_is))]
fn assemble(negative: bool, field: u16, fraction: u64) -> Ten
    requires { (field < 2 ^ 15) × (fraction < 2 ^ 63) }
    ensures { ten_of result ≡ spec.spread (enc.assembled spec.extended negative field fraction) }
{
    Ten {
        head: if negative { SIGN + field } else { field },
        significand: with_leading(field, fraction),
    }
}

// A significand without its leading bit is a subnormal's.
#[tactic(auto, unfolding(totals_spec::specs::formats::Encode::encode, totals_spec::specs::ten_bytes::Extended::extended))]
fn encode_finite(negative: bool, shift: u64, significand: u64) -> Ten
    requires { shift + 1 < 2 ^ 15 }
    ensures { ten_of result ≡ spec.spread
        (enc.encode spec.extended (dec.finite negative shift significand)) }
{
    if significand < LEADING {
        assemble(negative, 0, significand)
    } else {
        assemble(negative, (shift + 1) as u16, significand - LEADING)
    }
}

#[tactic(auto, unfolding(totals_spec::specs::ten_bytes::Extended::extended, totals_spec::specs::formats::Encode::encode))]
fn encode_nan(negative: bool, signaling: bool, payload: u64) -> Ten
    requires { payload < 2 ^ 62 }
    ensures { ten_of result ≡ spec.spread
        (enc.encode spec.extended (dec.nan negative signaling payload)) }
{
    assemble(negative, FIELD_MAX, flag(QUIET, !signaling) + payload)
}

/// The encoding in ten bytes of a value that has one.
#[tactic(auto, unfolding(totals_spec::specs::formats::Encode::encode, totals_spec::specs::ten_bytes::Extended::extended))]
pub fn encode(value: Unpacked) -> Ten
    requires { Encodes spec.extended (unpacked_of value) }
    ensures { ten_of result ≡ spec.spread (enc.encode spec.extended (unpacked_of value)) }
{
    match value {
        Unpacked::Zero(negative) => assemble(negative, 0, 0),
        Unpacked::Finite {
            negative,
            shift,
            significand,
        } => encode_finite(negative, shift, significand),
        Unpacked::Infinity(negative) => assemble(negative, FIELD_MAX, 0),
        Unpacked::Nan {
            negative,
            signaling,
            payload,
        } => encode_nan(negative, signaling, payload),
    }
}
