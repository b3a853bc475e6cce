//! A total is rounded as IEEE 754-2019 words it: what a rounding is, and that the definitions give
//! it.

ghost use Rattle.promises.specs.Statements as law;

/// At most one number is a magnitude rounded in a mode.
pub fn rounds_to_one()
    ensures { law.Rounds-to-one }
{}

/// At most one value and one set of flags are a sum rounded once.
pub fn one_answer()
    ensures { law.Once-pins }
{}

/// A magnitude cut where the kept digits end, and moved up by the mode's rule, is that magnitude
/// rounded, in every mode.
pub fn cuts_round()
    ensures { law.Cut-rounds }
{}

/// The rounding of the definitions is the rounding of the standard, in every format, mode and
/// precision.
pub fn rounds_once()
    ensures { law.Round-once }
{}

/// A sum rounded once is the same in every finer unit: nothing turns on the unit in which it is
/// counted.
pub fn same_in_finer_units()
    ensures { law.Once-finer }
{}

/// A magnitude that is a number is rounded to itself.
pub fn number_stays()
    ensures { law.Number-stays }
{}

/// A rounding is off by less than a unit in the last place.
pub fn within_a_unit()
    ensures { law.Within-unit }
{}

/// To nearest it is off by at most half a unit.
pub fn half_a_unit()
    ensures { law.Half-unit }
{}

/// A larger magnitude is rounded no lower.
pub fn rises()
    ensures { law.Rises }
{}

/// A sum that the format holds comes as it is, unless it is flushed to zero.
pub fn held_exactly()
    ensures { law.Held-exactly }
{}

/// A rounding that neither overflows nor is flushed is off by less than a unit in the last place,
/// to nearest by at most half of one.
pub fn near()
    ensures { law.Once-near }
{}

/// A zero comes of a sum that rounds to zero, or of a tiny one that is flushed.
pub fn zero_only()
    ensures { law.Zero-only }
{}

/// To nearest, a sum overflows from half a unit below the power of two above the largest number on.
pub fn nearest_overflows()
    ensures { law.Nearest-overflows }
{}
