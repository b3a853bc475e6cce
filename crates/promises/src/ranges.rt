//! Amounts known within a range: the least and the greatest total that they allow.

ghost use Rattle.figures_spec.specs.ranges.Promises as law;

/// A range total has a refusal's number exactly where its condition holds and none before it does:
/// 5, 6, 11.
pub fn refused_exactly()
    ensures { law.Range-refused-exactly }
{}

/// The entry of a range total returns 2 before these, each exactly under its condition.
pub fn entry_refused_exactly()
    ensures { law.Range-entry-refused-exactly }
{}

/// The pair of a refused range total is zero, and so is all else but the number.
pub fn refused()
    ensures { law.Range-refused }
{}

/// A refused entry of a range total writes to neither list of figures, nor to the pair.
pub fn entry_refused()
    ensures { law.Range-entry-refused }
{}

/// After an accepted entry the pair begins with the lower and the upper total, and the lists hold
/// the lows and the highs.
pub fn entry_read_back()
    ensures { law.Range-entry-read-back }
{}

/// What is written changes no entry: the lists stand for the same ranges as before.
pub fn entries_kept()
    ensures { law.Range-entries-kept }
{}

/// The pair is what the plain sum gives for the lows toward negative and for the highs toward
/// positive, with +0 for −0.
pub fn plain_sums()
    ensures { law.Range-plain }
{}

/// Whatever fractions the entries stand for within their ranges, their exact sum lies between the
/// two totals.
pub fn holds()
    ensures { law.Range-holds }
{}

/// No other pair of doubles between which every such sum lies is narrower on either side.
pub fn narrowest()
    ensures { law.Range-narrowest }
{}

/// A zero in the pair is +0.
pub fn zero()
    ensures { law.Range-zero }
{}

/// Both totals are encodings of 64 bits and no NaN, of refused calls too.
pub fn fits()
    ensures { law.Range-fits }
{}

/// A rearrangement of the entries of an accepted call is accepted, and has the same pair.
pub fn order()
    ensures { law.Range-order }
{}
