//! A total within an allowance of passes: the full answer, or a first figure and how far off it may
//! be.

ghost use Rattle.targets_spec.specs.within.Promises as law;

/// Where the chain ends within the allowance, the full answer comes.
pub fn in_time()
    ensures { law.Within-in-time }
{}

/// An allowance of as many passes as the limit always gives the full answer.
pub fn limit_is_enough()
    ensures { law.Within-limit }
{}

/// A full answer is the same for every larger allowance.
pub fn same_for_more()
    ensures { law.Within-same }
{}

/// Where the chain is longer than the allowance, the mark is 1, the passes are the allowance, and
/// result, flags and side are 0.
pub fn unfinished()
    ensures { law.Within-unfinished }
{}

/// What an unfinished answer shows is off from the exact sum by fewer units of its last edge than
/// there are terms.
pub fn near()
    ensures { law.Within-near }
{}

/// Of two unfinished answers that of the larger allowance never has a wider bound.
pub fn narrower()
    ensures { law.Within-narrower }
{}

/// Passes are numbered as the chain runs them: the last one has the chain's edge.
pub fn last_pass()
    ensures { law.Within-last }
{}

/// A total within an allowance has a refusal's number exactly where its condition holds and none
/// before it does: 16, and then those of the total.
pub fn refused_exactly()
    ensures { law.Within-refusal }
{}

/// A refused answer is zero but for number and place.
pub fn refused()
    ensures { law.Within-refused }
{}

/// The place is 0 but at number 7, and there it is the index of the first element that has a stray
/// bit.
pub fn place()
    ensures { law.Within-place }
{}

/// A rearrangement of an accepted list without a NaN has the same answer; the pairs of a dot move
/// together.
pub fn order()
    ensures { law.Within-order }
{}

/// Each field fits its place, of refused calls too: S 96 bytes, the boundary and each position
/// eight.
pub fn fits()
    ensures { law.Within-fits }
{}

/// The entries within an allowance return 1 and 2 before these, and the bias's refusal right behind
/// 16, in the lowest byte.
pub fn entry_refused_exactly()
    ensures { law.Within-entry-refusal }
{}

/// A refused entry within an allowance leaves every byte of the buffer as it was.
pub fn entry_refused()
    ensures { law.Within-entry-refused }
{}

/// A rearrangement of accepted values without a NaN gives the same number and the same whole
/// buffer.
pub fn entry_order()
    ensures { law.Within-entry-order }
{}

/// After an accepted entry the buffer reads as the answer, field by field, and from byte 144 on is
/// as it was.
pub fn entry_read_back()
    ensures { law.Within-entry-read-back }
{}

/// The first 24 bytes of a full answer are those that the byte entry of the total writes.
pub fn entry_is_plain()
    ensures { law.Within-entry-plain }
{}
