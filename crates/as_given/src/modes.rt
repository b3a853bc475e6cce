// Modes by their numbers, as the definitions read these: above the last stands the last.
ghost use Rattle.std.specs.Prelude.{◌≡◌};
ghost use Rattle.totals_spec.specs.Basics.{is_set};
ghost use Rattle.totals_spec.specs.formats.Settings as spec;
ghost use Rattle.format.specs.Modes.{rounding_number, tininess_number, propagation_number};

use format::modes::{NanPropagation, Rounding, Tininess};

/// The mode that a number names; a number above the last is to odd (totals_spec, Settings).
pub fn read_rounding(number: u64) -> Rounding
    ensures { spec.rounding_of (rounding_number result) ≡ spec.rounding_of number }
{
    Rounding::try_from(number).unwrap_or(Rounding::ToOdd)
}

/// When a result is told to be tiny: a number that is not 0 is after rounding.
pub fn read_tininess(number: u64) -> Tininess
    ensures { is_set (tininess_number result) ≡ is_set number }
{
    Tininess::try_from(number).unwrap_or(Tininess::AfterRounding)
}

/// Which of several NaNs is given; a number above the last is the default NaN.
pub fn read_nan_propagation(number: u64) -> NanPropagation
    ensures { spec.propagation_of (propagation_number result) ≡ spec.propagation_of number }
{
    NanPropagation::try_from(number).unwrap_or(NanPropagation::DefaultNan)
}

/// A setting that is off or on: a number that is not 0 is on.
pub fn read_switch(number: u64) -> bool
    ensures { result ≡ is_set number }
{
    number != 0
}
