// The flags that an answer bears, each a power of two.
ghost use Rattle.std.specs.Prelude.{◌≡◌, ◌<◌, ◌≤◌};
ghost use Rattle.totals_spec.specs.Basics as basics;
ghost use Rattle.totals_spec.specs.rounding.Side as side;

/// An element is a signaling NaN, infinities of both signs meet, or an infinity is multiplied by a
/// zero (docs/SPECIFICATION.md, Flags).
pub const INVALID: u64 = 1;

/// The rounding overflows.
pub const OVERFLOW: u64 = 4;

/// The sum is tiny and the result is not exact, or it was flushed to zero.
pub const UNDERFLOW: u64 = 8;

/// The result is not the exact sum, or it was flushed to zero.
pub const INEXACT: u64 = 16;

/// The sum is not 0, and tiny by the setting.
pub const TINY: u64 = 32;

/// The rounding raised the magnitude.
pub const ROUNDED_UP: u64 = 64;

/// Some element is subnormal, whether or not it counts as a zero.
pub const DENORMAL_INPUT: u64 = 128;

/// The value of a flag, where it is set, and else 0.
pub fn flag(value: u64, set: bool) -> u64
    ensures { (result ≡ basics.flag value set) × (result ≤ value) }
{
    if set { value } else { 0 }
}

/// Whether a flag, given by its value, is among the flags.
pub fn has_flag(flags: u64, value: u64) -> bool
    requires { 0 < value }
    ensures { result ≡ side.is_on value flags }
{
    flags / value % 2 == 1
}
