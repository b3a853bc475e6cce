//! Refusals of a sum and of a dot, and the fields of their records.

ghost use Rattle.totals_spec.specs.sums.Promises as law;
ghost use Rattle.totals_spec.specs.refusals.Promises as refusal_law;

/// A sum has a refusal's number exactly where that number's condition holds and none before it does
/// (3, 4, 6, 7), and 0 exactly where none holds.
pub fn sum_refused_exactly()
    ensures { refusal_law.Sum-refused-exactly }
{}

/// A dot has a refusal's number exactly where that number's condition holds and none before it does
/// (3 to 7), and 0 exactly where none holds.
pub fn dot_refused_exactly()
    ensures { refusal_law.Dot-refused-exactly }
{}

/// The number in the record of a sum is the one that the table of refusals gives.
pub fn sum_refusal()
    ensures { refusal_law.Sum-refusal }
{}

/// The number in the record of a dot is the one that the table of refusals gives.
pub fn dot_refusal()
    ensures { refusal_law.Dot-refusal }
{}

/// The record of a refused sum is zero but for number and place.
pub fn sum_refused()
    ensures { refusal_law.Sum-refused }
{}

/// The record of a refused dot is zero but for number and place.
pub fn dot_refused()
    ensures { refusal_law.Dot-refused }
{}

/// The place in the record of a sum is 0 but at number 7, and there it is the index of the first
/// element that has a stray bit.
pub fn sum_place()
    ensures { refusal_law.Sum-place }
{}

/// The place in the record of a dot is 0 but at number 7, and there it is the index of the first
/// element that has a stray bit, of the right list only where the left has none.
pub fn dot_place()
    ensures { refusal_law.Dot-place }
{}

/// A list of up to 268,435,456 zeros is accepted.
pub fn zeros_accepted()
    ensures { refusal_law.Zeros-accepted }
{}

/// A longer list of zeros is refused with 6.
pub fn zeros_refused()
    ensures { refusal_law.Zeros-refused }
{}

/// In every record of a sum, a refused one too, the result has the format's width, the flags 8
/// bits, the side 2 and the passes 64.
pub fn sum_fits()
    ensures { law.Sum-fits }
{}

/// In every record of a dot, a refused one too, the result has the format's width, the flags 8
/// bits, the side 2 and the passes 64.
pub fn dot_fits()
    ensures { law.Dot-fits }
{}
