//! A contribution: the least number with which the plain sum of a list is a wanted total.

ghost use Rattle.targets_spec.specs.contribution.Promises as law;

/// In an Ieee format without flush-to-zero the larger of two sums rounds to what is as large, in
/// every mode, at every precision and past the largest number.
pub fn rounding_rises()
    ensures { law.Rounding-rises }
{}

/// Ranks are in the order of the numbers that the encodings stand for.
pub fn ranks_are_ordered()
    ensures { law.Rank-order }
{}

/// The finite numbers have the ranks from the first to the last, and each of these is the rank of
/// one that is not −0.
pub fn ranks_are_numbers()
    ensures { law.Rank-number }
{}

/// Where no refusal but 14 answers, the plain sum accepts the list with any finite number behind
/// it, and is the larger, the larger that number is.
pub fn sum_rises()
    ensures { law.Contribution-rises }
{}

/// An answer without a refusal is finite, makes the sum equal to the wanted total, is the least
/// number that does, and is not −0.
pub fn least()
    ensures { law.Contribution-least }
{}

/// With number 14 no finite number makes the sum equal to the wanted total.
pub fn none()
    ensures { law.Contribution-none }
{}

/// A contribution has a refusal's number exactly where its condition holds and none before it does:
/// 3, 4, 6, 7, 15, 14.
pub fn refused_exactly()
    ensures { law.Contribution-refusal }
{}

/// The record of a refused contribution is zero but for number and place.
pub fn refused()
    ensures { law.Contribution-refused }
{}

/// The place is 0 but at number 7, and there it is the index of the first element that has a stray
/// bit, the list's length where that is the wanted total.
pub fn place()
    ensures { law.Contribution-place }
{}

/// A rearrangement of the list has the same number, and the same record but for the place of a
/// stray bit in it.
pub fn order()
    ensures { law.Contribution-order }
{}

/// The entry of a contribution returns 2 or the bias's refusal before these, in its lowest byte,
/// each exactly under its condition.
pub fn entry_refused_exactly()
    ensures { law.Contribution-entry-refusal }
{}

/// A refused entry of a contribution leaves every byte of the buffer as it was.
pub fn entry_refused()
    ensures { law.Contribution-entry-refused }
{}

/// After an accepted entry the buffer's first eight bytes read as the number found, and all behind
/// is as it was.
pub fn entry_read_back()
    ensures { law.Contribution-entry-read-back }
{}

/// A rearrangement of values without a stray bit gives the same number and the same whole buffer.
pub fn entry_order()
    ensures { law.Contribution-entry-order }
{}
