// The kinds of encodings (totals_spec, Format).
ghost use Rattle.std.specs.Prelude.{◌≡◌};
ghost use Rattle.totals_spec.specs.formats.Format.{kind_of};
ghost use Rattle.totals_spec.specs.rounding.Round.{is_no_inf};
ghost use Rattle.format.specs.Kinds.{number_of, Names};

/// What an exponent field of all ones and the other patterns stand for.
#[derive(Clone, Copy, Debug, PartialEq, Eq)]
pub enum Kind {
    Ieee,
    NoInf,
    Fnuz,
    Finite,
}

impl Kind {
    /// Whether the pattern of all ones is a NaN and no number.
    pub fn is_no_inf(self) -> bool
        ensures { result ≡ is_no_inf (kind_of (number_of self)) }
    {
        matches!(self, Kind::NoInf)
    }
}

/// A number that names no kind.
#[derive(Clone, Copy, Debug, PartialEq, Eq)]
pub struct UnknownKind(pub u64);

impl TryFrom<u64> for Kind {
    type Error = UnknownKind;

    ghost try_from_gives = { Names };

    fn try_from(number: u64) -> Result<Self, UnknownKind> {
        match number {
            0 => Ok(Kind::Ieee),
            1 => Ok(Kind::NoInf),
            2 => Ok(Kind::Fnuz),
            3 => Ok(Kind::Finite),
            _ => Err(UnknownKind(number)),
        }
    }
}
