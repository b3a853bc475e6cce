//! What a running total keeps of a list: its state, and that the state is the list's own however it
//! was fed.

ghost use Rattle.running_spec.specs.Promises as law;

/// What is begun is the state of the empty list.
pub fn state_begun()
    ensures { law.State-begun }
{}

/// Two lists behind one another leave what their states leave when they are merged.
pub fn state_merged()
    ensures { law.State-merged }
{}

/// Merging is associative, of all states.
pub fn merged_in_any_grouping()
    ensures { law.Merged-assoc }
{}

/// Each list has a canonical state, and merging keeps states so.
pub fn states_are_canonical()
    ensures { law.State-canonical }
{}

/// Merging with what is begun changes nothing.
pub fn merged_with_nothing()
    ensures { law.Merged-unit }
{}

/// Where no NaN was seen, merging gives the same state in either order.
pub fn merged_in_either_order()
    ensures { law.Merged-commutes }
{}

/// However a list is dealt out, fed in parts and merged in any shape, its state is that of the
/// whole list.
pub fn dealt_out()
    ensures { law.Dealt-out }
{}

/// A rearrangement of a list without a NaN has the same state.
pub fn sum_order()
    ensures { law.Sum-state-order }
{}

/// A rearrangement of the pairs of a dot without a NaN has the same state.
pub fn dot_order()
    ensures { law.Dot-state-order }
{}

/// A rearrangement of a list of kind 4 without a NaN has the same state.
pub fn extended_order()
    ensures { law.Extended-state-order }
{}

/// The state of at most 2^60 values of a key's format can be saved.
pub fn sum_fits()
    ensures { law.Sum-state-fits }
{}

/// The state of at most 2^60 pairs of a key's format can be saved.
pub fn dot_fits()
    ensures { law.Dot-state-fits }
{}

/// The state of at most 2^60 values or pairs of kind 4 can be saved.
pub fn extended_fits()
    ensures { law.Extended-state-fits }
{}

/// The bytes of a saved state read back as it, whatever lies behind them.
pub fn saved_reads_back()
    ensures { law.Saved-read-back }
{}

/// Two states with the same bytes are one.
pub fn saved_apart()
    ensures { law.Saved-apart }
{}

/// The saved state of a list of at most 2^60 elements opens.
pub fn saved_opens()
    ensures { law.Saved-opens }
{}

/// What opens is the form of a state that stands, and nothing else opens.
pub fn opens_exactly()
    ensures { law.Opens-exactly }
{}
