//! Binary32 and binary64 to nearest, beside the standard library's own model of IEEE 754.

ghost use Rattle.promises.specs.Bridge as law;

/// Decoding is that model's `of_bits`.
pub fn decodes_alike()
    ensures { law.Decodes-alike }
{}

/// Rounding and encoding is that model's `round` and `to_bits`.
pub fn rounds_alike()
    ensures { law.Rounds-alike }
{}

/// Encoding is that model's `to_bits`.
pub fn encodes_alike()
    ensures { law.Encodes-alike }
{}

/// The total of two finite numbers is what `+` of an `f32` or an `f64` gives, bit for bit.
pub fn adds_alike()
    ensures { law.Adds-alike }
{}

/// The total of one finite number is that number, bit for bit.
pub fn one_alike()
    ensures { law.One-alike }
{}
