//! Values are taken back from a running total as if they had never been fed.

ghost use Rattle.running_spec.specs.Conditions as condition;
ghost use Rattle.running_spec.specs.TakeBack as taken;

/// A part without a NaN that was fed last is taken back, and the state is that of what is left.
pub fn taken_from_the_end()
    ensures { taken.State-taken }
{}

/// A part without a NaN is taken back wherever it stood, and the state is that of what is left.
pub fn taken_from_anywhere()
    ensures { taken.State-taken-anywhere }
{}

/// A part without a NaN may stand anywhere in the list.
pub fn part_anywhere()
    ensures { taken.State-part }
{}

/// No count of a part lies above that of its list.
pub fn part_within()
    ensures { taken.State-within }
{}

/// A state that is merged and taken back leaves the state that was.
pub fn merged_then_taken()
    ensures { taken.Merged-taken }
{}

/// A state that is taken back and merged leaves the state that was.
pub fn taken_then_merged()
    ensures { taken.Taken-merged }
{}

/// Taking back keeps a state canonical.
pub fn stays_canonical()
    ensures { taken.Taken-canonical }
{}

/// Two states are taken back in either order.
pub fn in_either_order()
    ensures { taken.Taken-order }
{}

/// Two states are taken back one by one or together.
pub fn together()
    ensures { taken.Taken-together }
{}

/// A state is taken back before or after a merge.
pub fn before_or_after_a_merge()
    ensures { taken.Taken-later }
{}

/// Two courses of feeding and taking back that balance leave the same state.
pub fn moves_order()
    ensures { taken.Moves-order }
{}

/// The finish after taking back is the plain total of what is left.
pub fn finish_is_of_what_is_left()
    ensures { taken.Finish-taken }
{}

/// What is a part of what the buffer keeps is taken back, and the buffer keeps the rest.
pub fn take_keeps()
    ensures { taken.Take-keeps }
{}

/// Pairs that are a part of what the buffer keeps are taken back, and the buffer keeps the rest.
pub fn take_pairs_keeps()
    ensures { taken.Take-pairs-keeps }
{}

/// What another buffer keeps, and is a part of what this one keeps, is taken back, and this one
/// keeps the rest.
pub fn unmerge_keeps()
    ensures { taken.Unmerge-keeps }
{}

/// Each call that takes back has a refusal's number exactly where its condition holds and none
/// before it does.
pub fn refused_exactly()
    ensures { condition.Taken-refused-exactly }
{}

/// Of whatever opens, a forged state too, an accepted call leaves what opens, with the state taken
/// back.
pub fn leaves_what_opens()
    ensures { taken.Taken-opens }
{}

/// A refused call that takes back writes nothing.
pub fn refused()
    ensures { taken.Taken-refused }
{}

/// What was fed or merged is taken back, and the buffer is, byte for byte, what it was.
pub fn undone()
    ensures { taken.Undone }
{}

/// Two parts that are taken back in either order leave the same bytes.
pub fn bytes_in_either_order()
    ensures { taken.Taken-bytes-order }
{}

/// Values anywhere in the list are taken back, and what is left finishes as its plain sum.
pub fn sum_of_what_is_left()
    ensures { taken.Taken-sum }
{}

/// Pairs anywhere in the list are taken back, and what is left finishes as its plain dot.
pub fn dot_of_what_is_left()
    ensures { taken.Taken-dot }
{}

/// Values of kind 4 anywhere in the list are taken back, and what is left finishes as its plain
/// total.
pub fn extended_total_of_what_is_left()
    ensures { taken.Taken-extended }
{}

/// Where values are taken back and others are fed, the buffer keeps what is left with the new ones
/// behind it.
pub fn replaced()
    ensures { taken.Replaced }
{}

/// Two courses of accepted calls that balance leave the same bytes in the front of their buffers.
pub fn courses_order()
    ensures { taken.Courses-order }
{}
