//! A running total finishes as the plain total of all that it was fed.

ghost use Rattle.running_spec.specs.Conditions as condition;
ghost use Rattle.running_spec.specs.Promises as run;

/// The finish of a list's state is the plain sum's answer but for passes and edge, in every format
/// and setting.
pub fn finish_sum()
    ensures { run.Finish-sum }
{}

/// The finish of the state of some pairs is the plain dot's answer but for passes and edge, in
/// every format and setting.
pub fn finish_dot()
    ensures { run.Finish-dot }
{}

/// The finish of a state of kind 4 is the plain total's answer but for passes and edge, in every
/// setting.
pub fn finish_extended()
    ensures { run.Finish-extended }
{}

/// Of an accepted list the finish is the record of the plain sum.
pub fn finish_accepted_sum()
    ensures { run.Finish-plain-sum }
{}

/// Of accepted pairs the finish is the record of the plain dot.
pub fn finish_accepted_dot()
    ensures { run.Finish-plain-dot }
{}

/// Of accepted values of kind 4 the finish is the record of their plain total.
pub fn finish_accepted_extended()
    ensures { run.Finish-plain-extended }
{}

/// Finished into another format a state gives the record of an accepted target.
pub fn finish_target()
    ensures { run.Finish-target }
{}

/// The pence of a state are the pence of its list, with refusal 8 where they have none.
pub fn finish_pence()
    ensures { run.Finish-pence }
{}

/// Each call of a running total has a refusal's number exactly where its condition holds and none
/// before it does.
pub fn refused_exactly()
    ensures { condition.Running-refused-exactly }
{}

/// A refused call of a running total writes nothing.
pub fn refused()
    ensures { run.Running-refused }
{}

/// An accepted begin leaves a buffer that keeps the empty list.
pub fn begin_keeps()
    ensures { run.Begin-keeps }
{}

/// An accepted feed leaves a buffer that keeps the list with the new elements behind it.
pub fn feed_keeps()
    ensures { run.Feed-keeps }
{}

/// An accepted feed of pairs leaves a buffer that keeps the list with the new pairs behind it.
pub fn pairs_keeps()
    ensures { run.Pairs-keeps }
{}

/// An accepted merge leaves a buffer that keeps the two lists behind one another.
pub fn merge_keeps()
    ensures { run.Merge-keeps }
{}

/// However the values were dealt out, fed and merged, what the buffer keeps finishes as their plain
/// sum does.
pub fn running_sum()
    ensures { run.Running-sum }
{}

/// However pairs were dealt out, fed and merged, what the buffer keeps finishes as their plain dot
/// does.
pub fn running_dot()
    ensures { run.Running-dot }
{}

/// However values of kind 4 were dealt out, fed and merged, what the buffer keeps finishes as their
/// plain total does.
pub fn running_extended()
    ensures { run.Running-extended }
{}

/// Rearrangements without a NaN leave the same bytes in the front of the buffer.
pub fn running_order()
    ensures { run.Running-order }
{}

/// Of whatever opens, a forged state too, an accepted call leaves what opens, with the state that
/// is merged.
pub fn leaves_what_opens()
    ensures { run.Running-opens }
{}
