//! Every rearrangement of an accepted list without a NaN has the same record.

ghost use Rattle.totals_spec.specs.order.Promises as law;

/// A rearrangement of an accepted list without a NaN is accepted, and its sum has the same whole
/// record.
pub fn sum_order()
    ensures { law.Sum-order }
{}

/// A rearrangement of the pairs of an accepted dot without a NaN is accepted, and has the same
/// whole record.
pub fn dot_order()
    ensures { law.Dot-order }
{}

/// Through the byte entry of a sum a rearrangement returns the same number and leaves the same
/// whole buffer.
pub fn sum_entry_order()
    ensures { law.Sum-entry-order }
{}

/// Through the byte entry of a dot a rearrangement of the pairs returns the same number and leaves
/// the same whole buffer.
pub fn dot_entry_order()
    ensures { law.Dot-entry-order }
{}
