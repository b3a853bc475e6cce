// Values of ten bytes: a total that the format holds is the exact sum itself, and how far off any
// other total is.
#![tactic(auto)]

ghost use Rattle.promises.specs.Kind4 as law;

/// The exact sum of values of ten bytes is the sum of the elements, their magnitudes, their squares or
/// their products.
pub fn extended_sum_means()
    ensures { law.Extended-sum-means }
{}

/// A total of values of ten bytes, of their magnitudes or of their squares, is the exact sum itself
/// where that is a number of the format at the precision that is set, and is not flushed to zero.
pub fn extended_sum_held()
    ensures { law.Extended-sum-held }
{}

/// And so is a dot of them.
pub fn extended_dot_held()
    ensures { law.Extended-dot-held }
{}

/// A total of values of ten bytes within the format's range is off by less than a unit in the last
/// place, and to nearest by at most half of one.
pub fn extended_sum_near()
    ensures { law.Extended-sum-near }
{}

/// And so is a dot of them.
pub fn extended_dot_near()
    ensures { law.Extended-dot-near }
{}
