//! NaNs and infinities in a list, said of its elements.

ghost use Rattle.promises.specs.Special as special;
ghost use Rattle.promises.specs.SpecialExtended as extended;

/// Each rule selects one NaN of a list, and no other.
pub fn selects_one()
    ensures { special.Selected-one }
{}

/// A NaN in a list decides its sum, by the rule, and flag 1 says whether one is signaling.
pub fn sum_nan()
    ensures { special.Sum-nan }
{}

/// In magnitude and square sums a signaling NaN comes before every infinity.
pub fn magnitudes_signaling()
    ensures { special.Magnitudes-signaling }
{}

/// In magnitude and square sums a quiet NaN decides where no infinity stands beside it.
pub fn magnitudes_quiet()
    ensures { special.Magnitudes-quiet }
{}

/// In magnitude and square sums an infinity comes before every quiet NaN, and is positive.
pub fn magnitudes_infinite()
    ensures { special.Magnitudes-infinite }
{}

/// Infinities of both signs in a sum are invalid: they give the default NaN and flag 1.
pub fn sum_infinities()
    ensures { special.Sum-infinities }
{}

/// Infinities of one sign in a sum give that infinity.
pub fn sum_infinite()
    ensures { special.Sum-infinite }
{}

/// A NaN in a dot is looked for left, right, left, right; an infinity times zero beside it sets
/// flag 1.
pub fn dot_nan()
    ensures { special.Dot-nan }
{}

/// An infinity times a zero in a dot gives the default NaN and flag 1.
pub fn dot_invalid()
    ensures { special.Dot-invalid }
{}

/// Infinite products of both signs in a dot are invalid: they give the default NaN and flag 1.
pub fn dot_infinities()
    ensures { special.Dot-infinities }
{}

/// Infinite products of one sign in a dot give that infinity.
pub fn dot_infinite()
    ensures { special.Dot-infinite }
{}

/// The fields of an encoding say whether it is a NaN or an infinity, by the rule of its kind.
pub fn special_reads()
    ensures { special.Special-reads }
{}

/// NaNs and infinities are written in bits by the rule of their kind.
pub fn special_bits()
    ensures { special.Special-bits }
{}

/// Of kind 4 too a NaN in a list decides its total, by the rule.
pub fn extended_sum_nan()
    ensures { extended.Extended-sum-nan }
{}

/// In magnitude and square sums of kind 4 a signaling NaN comes before every infinity.
pub fn extended_signaling()
    ensures { extended.Extended-signaling }
{}

/// In dots of kind 4 NaNs are looked for left, right, left, right.
pub fn extended_dot_nan()
    ensures { extended.Extended-dot-nan }
{}
