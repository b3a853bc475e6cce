//! The pence of a list, and of one encoding.

ghost use Rattle.totals_spec.specs.pence.Promises as law;

/// The pence of a list have a refusal's number exactly where its condition holds and none before it
/// does: 3, 6, 7, 8.
pub fn list_refused_exactly()
    ensures { law.Sum-pence-refused-exactly }
{}

/// The pence of one encoding have a refusal's number exactly where its condition holds and none
/// before it does: 3, 7, 8.
pub fn encoding_refused_exactly()
    ensures { law.Pence-refused-exactly }
{}

/// The entry of pence returns in its lowest byte the number of the first condition that holds, and
/// 0 exactly where none does.
pub fn entry_refused_exactly()
    ensures { law.Pence-entry-refused-exactly }
{}

/// Refused pence have the figure 0.
pub fn list_refused()
    ensures { law.Sum-pence-refused }
{}

/// Their place is 0 but at number 7, and there it is the index of the first element that has a
/// stray bit.
pub fn place()
    ensures { law.Pence-place }
{}

/// A refused entry of pence leaves the caller's figure as it was.
pub fn entry_refused()
    ensures { law.Pence-entry-refused }
{}

/// The pence of a list of one element are the pence of its encoding, refused or not.
pub fn one_element()
    ensures { law.One-pence }
{}

/// The figure that the passes over the hundredfold terms end with is that of the exact sum, near
/// half a penny too.
pub fn by_chain()
    ensures { law.Pence-by-chain }
{}

/// A rearrangement of a list has the same pence, with NaNs in it too; only the place of a stray bit
/// can differ.
pub fn order()
    ensures { law.Pence-order }
{}
