//! Where a bit of a window stands is found without a division.

ghost use Rattle.limbs.specs.Splits as law;

/// Of every bit of a window the word and the place that are found by shifting are those of a
/// division by 64.
pub fn window_bits()
    ensures { law.Window-bits }
{}
