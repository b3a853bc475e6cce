//! The computed examples: lists whose answers were worked out beforehand, and which the definitions
//! answer so.

ghost use Rattle.targets_spec.specs.contribution.Promises as further;
ghost use Rattle.targets_spec.specs.within.Promises as within_law;
ghost use Rattle.targets_spec.specs.several.Promises as target_law;
ghost use Rattle.promises.specs.SpecialRows as row;
ghost use Rattle.running_spec.specs.Promises as run;
ghost use Rattle.totals_spec.specs.examples.Promises as plain;
ghost use Rattle.totals_spec.specs.ten_bytes.Promises as ten_law;
ghost use Rattle.mirror_spec.specs.Promises as mirror_law;
ghost use Rattle.pages_spec.specs.Promises as page_law;
ghost use Rattle.figures_spec.specs.ranges.Promises as range_law;
ghost use Rattle.totals_spec.specs.pence.Promises as pence_law;
ghost use Rattle.figures_spec.specs.tables.Promises as table_law;

/// The twelve careers C1 to C12 of the specification have the records that stand there.
pub fn careers_agree()
    ensures { plain.Careers-agree }
{}

/// Lists at the margins of the rules by which passes go on or end have the records that are stated.
pub fn margins_agree()
    ensures { plain.Margins-agree }
{}

/// Results lean to the side that is stated: in directed modes, at overflow, under flush-to-zero and
/// denormals-are-zero, in sums of either sign.
pub fn sides_agree()
    ensures { plain.Sides-agree }
{}

/// Named biases give the totals that are stated: the farthest ones, the kind's own, and one under
/// which 1 is no number of the format.
pub fn biases_agree()
    ensures { plain.Biases-agree }
{}

/// Lists have the pence that are stated: at half a penny and beside it, beyond the format, at 2^63,
/// with a named bias, and where they are refused.
pub fn sum_pence_agree()
    ensures { pence_law.Sum-pence-agree }
{}

/// Tables have the totals that are stated: one list in several shapes, no rows or no columns, NaNs
/// and infinities, refusals, and the entry.
pub fn tables_agree()
    ensures { table_law.Tables-agree }
{}

/// Amounts known within a range have the pairs that are stated: directed roundings, zeros, figures
/// that are not used, and each cause of refusal.
pub fn ranges_agree()
    ensures { range_law.Ranges-agree }
{}

/// Career pages are what is stated, byte for byte; a page with any part damaged does not open;
/// spans have their totals, and refusals their numbers.
pub fn pages_agree()
    ensures { page_law.Pages-agree }
{}

/// Values of ten bytes have the totals that are stated: unsupported encodings, pseudo-denormals,
/// NaNs, roundings and long chains.
pub fn extended_agree()
    ensures { ten_law.Extended-agree }
{}

/// Mirrored lists and squares have the records that are stated, of each kind and in each mode, and
/// where nothing is claimed too.
pub fn mirrors_agree()
    ensures { mirror_law.Mirrors-agree }
{}

/// The refusals, a byte entry, the pence of encodings and the program's texts are those that are
/// stated.
pub fn refusals_entries_and_texts_agree()
    ensures { plain.Examples-agree }
{}

/// Targets have the records that are stated: beside ties that a rounding by way of binary64 would
/// spoil, of each kind and range, and at refusals.
pub fn targets_agree()
    ensures { target_law.Targets-agree }
{}

/// Contributions are those that are stated: of small formats every wanted total in all eight modes,
/// of wide ones the ends of what rounds to a total.
pub fn contributions_agree()
    ensures { further.Contributions-agree }
{}

/// Totals within an allowance are those that are stated: at each pass of chains with and without a
/// boundary, and at each refusal.
pub fn estimates_agree()
    ensures { within_law.Estimates-agree }
{}

/// The calls of a running total leave the bytes that are stated, and two lists with one state can
/// have chains of different lengths.
pub fn running_agree()
    ensures { run.Running-agree }
{}

/// Lists with NaNs, infinities, zeros and overflows have the results and flags that are stated, row
/// by row.
pub fn special_agree()
    ensures { row.Special-agree }
{}
