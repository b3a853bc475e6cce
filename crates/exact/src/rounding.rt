// The rounding rules: the dropped part against half a unit, which way each direction goes, and the
// flags of a result that may be tiny.
ghost use Rattle.std.specs.Prelude.{◌≡◌};
ghost use Rattle.totals_spec.specs.formats.Settings as settings;
ghost use Rattle.totals_spec.specs.rounding.Round as spec;
ghost use Rattle.format.specs.Modes.{rounding_number};
ghost use Rattle.exact.specs.Unrounded.{dropped_of, dropped_by, nearest_up, underflow_of};

use format::flags::{INEXACT, TINY, UNDERFLOW};
use format::modes::Rounding;

/// The dropped part of a magnitude, against half a unit of the last kept digit.
#[derive(Clone, Copy)]
pub enum Dropped {
    Nothing,
    BelowHalf,
    Half,
    AboveHalf,
}

impl Dropped {
    /// From the first dropped bit, and whether anything lies below it.
    pub fn new(first: bool, rest: bool) -> Self
        ensures { dropped_of result ≡ dropped_by first rest }
    {
        match (first, rest) {
            (true, true) => Dropped::AboveHalf,
            (true, false) => Dropped::Half,
            (false, true) => Dropped::BelowHalf,
            (false, false) => Dropped::Nothing,
        }
    }

    /// Whether anything is dropped.
    pub fn is_inexact(self) -> bool
        ensures { result ≡ spec.inexact (dropped_of self) }
    {
        !matches!(self, Dropped::Nothing)
    }
}

// Whether a rounding to nearest adds a unit, where a tie does as told.
fn nearest(dropped: Dropped, tie: bool) -> bool
    ensures { result ≡ nearest_up (dropped_of dropped) tie }
{
    match dropped {
        Dropped::Nothing | Dropped::BelowHalf => false,
        Dropped::Half => tie,
        Dropped::AboveHalf => true,
    }
}

/// Whether a rounding adds one unit to the kept digits (docs/SPECIFICATION.md, The one rounding).
pub fn rounds_up(rounding: Rounding, negative: bool, kept: u64, dropped: Dropped) -> bool
    ensures { let mode = settings.rounding_of (rounding_number rounding) in
        result ≡ spec.rounds_up mode negative kept (dropped_of dropped) }
{
    match rounding {
        Rounding::TiesToEven => nearest(dropped, kept % 2 == 1),
        Rounding::TiesToAway => nearest(dropped, true),
        Rounding::TiesTowardZero => nearest(dropped, false),
        Rounding::TowardPositive => dropped.is_inexact() && !negative,
        Rounding::TowardNegative => dropped.is_inexact() && negative,
        Rounding::TowardZero => false,
        Rounding::AwayFromZero => dropped.is_inexact(),
        Rounding::ToOdd => dropped.is_inexact() && kept % 2 == 0,
    }
}

/// Whether an overflow gives an infinity, and not the largest finite number
/// (docs/SPECIFICATION.md, The one rounding).
pub fn overflows_to_infinity(rounding: Rounding, negative: bool) -> bool
    ensures { result
        ≡ spec.to_infinity (settings.rounding_of (rounding_number rounding)) negative }
{
    match rounding {
        Rounding::TiesToEven
        | Rounding::TiesToAway
        | Rounding::TiesTowardZero
        | Rounding::AwayFromZero => true,
        Rounding::TowardPositive => !negative,
        Rounding::TowardNegative => negative,
        Rounding::TowardZero | Rounding::ToOdd => false,
    }
}

const TINY_INEXACT: u64 = UNDERFLOW + INEXACT + TINY;

/// The flags of a result by whether it is tiny and inexact. Flushed: a zero takes its place.
#[derive(Clone, Copy)]
pub enum Underflow {
    Flushed(u64),
    Kept(u64),
}

impl Underflow {
    /// From whether a result is tiny, whether it is inexact, and whether such a one is flushed.
    pub fn new(tiny: bool, inexact: bool, flush_to_zero: bool) -> Self
        ensures { result ≡ underflow_of tiny inexact flush_to_zero }
    {
        if tiny && flush_to_zero {
            return Underflow::Flushed(TINY_INEXACT);
        }
        Underflow::Kept(match (tiny, inexact) {
            (true, true) => TINY_INEXACT,
            (true, false) => TINY,
            (false, true) => INEXACT,
            (false, false) => 0,
        })
    }
}
