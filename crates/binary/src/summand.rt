// What the elements of a list are summed as.
ghost use Rattle.binary.specs.Summands.{NamesSummand};

/// The values, their magnitudes or their squares.
#[derive(Clone, Copy, Debug, PartialEq, Eq)]
pub enum Summand {
    Value,
    Magnitude,
    Square,
}

/// A number that names no summand.
#[derive(Clone, Copy, Debug, PartialEq, Eq)]
pub struct UnknownSummand(pub u64);

impl TryFrom<u64> for Summand {
    type Error = UnknownSummand;

    ghost try_from_gives = { NamesSummand };

    fn try_from(number: u64) -> Result<Self, UnknownSummand> {
        match number {
            0 => Ok(Summand::Value),
            1 => Ok(Summand::Magnitude),
            2 => Ok(Summand::Square),
            _ => Err(UnknownSummand(number)),
        }
    }
}
