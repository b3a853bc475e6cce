// Binary formats: the numbers that a caller gives (`Format`), those that the arithmetic can work
// with (`shape::Shape`), and those that are offered (`layout::Layout`); settings likewise
// (`settings::Settings`, `env::Env`).
#![tactic(auto)]

/// Settings that are in their ranges.
pub mod env;
/// The flags of an answer.
pub mod flags;
/// The kinds of encodings.
pub mod kind;
/// Formats that are offered.
pub mod layout;
/// The modes of rounding, of tininess and of the choice among NaNs.
pub mod modes;
/// Settings, as a caller gives them.
pub mod settings;
/// The numbers of a format, and what follows from them.
pub mod shape;
/// Decoded values.
pub mod unpacked;

ghost use Rattle.std.specs.Prelude.{◌≡◌};
ghost use Rattle.totals_spec.specs.formats.Format as spec;
ghost use Rattle.format.specs.Kinds.{bias_in};
ghost use Rattle.format.specs.Formats.{format_of};

/// A unit lies this far below the lowest bit that a term of the format can have: room for the
/// passes below the last bit (totals_spec, `room`).
pub const ROOM: u64 = 1024;

// The widest exponent field, and the longest encoding.
const MOST_EXPONENT_BITS: u64 = 28;

const MOST_BITS: u64 = 64;

// The farthest bias from 0 that may be named.
const FARTHEST: u64 = 268435456;

/// A format, as the numbers that a caller gives (docs/SPECIFICATION.md, Formats).
#[derive(Clone, Copy)]
pub struct Format {
    /// 0 Ieee, 1 NoInf, 2 Fnuz, 3 Finite
    pub kind: u64,
    /// the width of the exponent field
    pub exponent_bits: u64,
    /// the bits of an encoding
    pub width: u64,
    /// the bias, where one is named
    pub named: Option<i64>,
}

// At most 2^28 either way.
fn is_near(bias: Option<i64>) -> bool
    ensures { result ≡ spec.offered (bias_in bias) }
{
    match bias {
        None => true,
        Some(b) => b.unsigned_abs() <= FARTHEST,
    }
}

/// Whether a format is offered. Refusal 3 is the failure of this (docs/SPECIFICATION.md, Refusals).
#[tactic(auto, unfolding(totals_spec::specs::formats::Format::valid_format))]
pub fn valid_format(format: Format) -> bool
    ensures { result ≡ spec.valid_format (format_of format) }
{
    format.kind <= 3
        && 2 <= format.exponent_bits
        && format.exponent_bits <= MOST_EXPONENT_BITS
        && format.exponent_bits + 2 <= format.width
        && format.width <= MOST_BITS
        && is_near(format.named)
}
