// The modes that a caller names by numbers, as the definitions list them (totals_spec, Settings).
ghost use Rattle.format.specs.Modes.{NamesRounding, NamesTininess, NamesPropagation, NamesSwitch};

/// A number that names no mode.
#[derive(Clone, Copy, Debug, PartialEq, Eq)]
pub struct UnknownMode(pub u64);

/// To which of the two numbers beside an exact total it is rounded.
#[derive(Clone, Copy, Debug, PartialEq, Eq)]
pub enum Rounding {
    TiesToEven,
    TiesToAway,
    TiesTowardZero,
    TowardPositive,
    TowardNegative,
    TowardZero,
    AwayFromZero,
    ToOdd,
}

impl TryFrom<u64> for Rounding {
    type Error = UnknownMode;

    ghost try_from_gives = { NamesRounding };

    fn try_from(number: u64) -> Result<Self, UnknownMode> {
        match number {
            0 => Ok(Rounding::TiesToEven),
            1 => Ok(Rounding::TiesToAway),
            2 => Ok(Rounding::TiesTowardZero),
            3 => Ok(Rounding::TowardPositive),
            4 => Ok(Rounding::TowardNegative),
            5 => Ok(Rounding::TowardZero),
            6 => Ok(Rounding::AwayFromZero),
            7 => Ok(Rounding::ToOdd),
            _ => Err(UnknownMode(number)),
        }
    }
}

/// When a result is told to be tiny.
#[derive(Clone, Copy, Debug, PartialEq, Eq)]
pub enum Tininess {
    BeforeRounding,
    AfterRounding,
}

impl TryFrom<u64> for Tininess {
    type Error = UnknownMode;

    ghost try_from_gives = { NamesTininess };

    fn try_from(number: u64) -> Result<Self, UnknownMode> {
        match number {
            0 => Ok(Tininess::BeforeRounding),
            1 => Ok(Tininess::AfterRounding),
            _ => Err(UnknownMode(number)),
        }
    }
}

/// Which of several NaNs is given.
#[derive(Clone, Copy, Debug, PartialEq, Eq)]
pub enum NanPropagation {
    SignalingFirst,
    FirstOperand,
    LargerSignificand,
    DefaultNan,
}

impl TryFrom<u64> for NanPropagation {
    type Error = UnknownMode;

    ghost try_from_gives = { NamesPropagation };

    fn try_from(number: u64) -> Result<Self, UnknownMode> {
        match number {
            0 => Ok(NanPropagation::SignalingFirst),
            1 => Ok(NanPropagation::FirstOperand),
            2 => Ok(NanPropagation::LargerSignificand),
            3 => Ok(NanPropagation::DefaultNan),
            _ => Err(UnknownMode(number)),
        }
    }
}

/// A setting that is off or on.
pub fn switch(number: u64) -> Result<bool, UnknownMode>
    ensures { NamesSwitch number result }
{
    match number {
        0 => Ok(false),
        1 => Ok(true),
        _ => Err(UnknownMode(number)),
    }
}
