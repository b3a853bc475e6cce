//! One total in several formats: the record of each target is that of the exact sum, rounded once in
//! its own format.

ghost use Rattle.targets_spec.specs.several.Promises as further;
ghost use Rattle.totals_spec.specs.rounding.Promises as rounding_law;
ghost use Rattle.promises.specs.TargetNumbers as number;

/// Rounding into a target is the target's own rounding of the same number.
pub fn rounds_as_its_own()
    ensures { rounding_law.Target-means }
{}

/// What the passes end with, rounded into a format of at most the list's digits, is the exact sum
/// rounded once there.
pub fn rounds_once()
    ensures { rounding_law.Target-rounds }
{}

/// What the passes end with is zero only where the exact sum is.
pub fn zero_only()
    ensures { rounding_law.Target-zero }
{}

/// The whole record of an accepted target, the side too, can be made of what the passes end with.
pub fn by_chain()
    ensures { further.Target-by-chain }
{}

/// An accepted list is finite, and with a non-zero term a target's result and flags are those of
/// its exact sum rounded once into the target.
pub fn exact()
    ensures { further.Target-exact }
{}

/// Without a term the record of a target is that of a zero, by the listed zeros and the target's
/// mode.
pub fn zeros()
    ensures { further.Target-zeros }
{}

/// The side of a target says how its result, decoded again, lies beside the exact sum.
pub fn side()
    ensures { further.Target-side }
{}

/// In the list's own format the record of a target is that of the plain sum.
pub fn own_format()
    ensures { further.Target-own }
{}

/// A target's own denormals-are-zero has no effect.
pub fn reading_is_the_lists()
    ensures { further.Target-reading }
{}

/// Accepted targets of one list have the same passes and the same last edge: there is one run.
pub fn one_run()
    ensures { further.Target-passes }
{}

/// A target has a refusal's number exactly where its condition holds and none before it does: 3, 4,
/// 6, 7, 17.
pub fn refused_exactly()
    ensures { further.Target-refusal }
{}

/// The record of a refused target is zero but for number and place.
pub fn refused()
    ensures { further.Target-refused }
{}

/// The place of a target's record is 0 but at number 7, and there it is the index of the first
/// element that has a stray bit.
pub fn place()
    ensures { further.Target-place }
{}

/// Each field fits its place: the result the target's width, the flags 8 bits, the side 2, the
/// passes 64, of refused calls too.
pub fn fits()
    ensures { further.Target-fits }
{}

/// A rearrangement of the list has the same number, and the same record but for the place of a
/// stray bit.
pub fn order()
    ensures { further.Target-order }
{}

/// A target never takes more passes than the limit of the list's plain sum.
pub fn limit()
    ensures { further.Target-limit }
{}

/// The entry of three targets returns 1 or 2 exactly where that condition holds and none before it
/// does, and else 0.
pub fn entry_refused_exactly()
    ensures { further.Target-entry-refusal }
{}

/// A refused entry of three targets leaves every byte of the buffer as it was.
pub fn entry_refused()
    ensures { further.Target-entry-refused }
{}

/// A rearrangement of values without a stray bit gives the same number and the same whole buffer.
pub fn entry_order()
    ensures { further.Target-entry-order }
{}

/// After an accepted entry the buffer reads as the three records, 32 bytes each, and all behind is
/// as it was.
pub fn entry_read_back()
    ensures { further.Target-entry-read-back }
{}

/// The thirteen numbers of a target name its format and its settings, in this order.
pub fn thirteen_numbers()
    ensures { number.Target-numbers }
{}
