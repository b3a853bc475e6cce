//! Two habits of the totals: mirrored lists have mirrored totals, and a square sum is a dot.

ghost use Rattle.mirror_spec.specs.Promises as law;
ghost use Rattle.totals_spec.specs.sums.Promises as sum_law;

/// The negative of an encoding stands for the value with the other sign, as its format keeps it.
pub fn negated_value()
    ensures { law.Negated-value }
{}

/// With all values negated and the two directed modes exchanged a sum is accepted, and has the
/// negated result, the other side and all else alike, where the result is neither zero nor NaN.
pub fn sum_mirror()
    ensures { law.Sum-mirror }
{}

/// With the values of its left list negated and the two directed modes exchanged a dot has the
/// negated result, the other side and all else alike, where the result is neither zero nor NaN.
pub fn dot_mirror()
    ensures { law.Dot-mirror }
{}

/// The negative of an encoding of kind 4 stands for the value with the other sign.
pub fn negated_extended()
    ensures { law.Negated-extended }
{}

/// Mirrored sums and dots of kind 4 have the negated record too.
pub fn extended_mirror()
    ensures { law.Extended-mirror }
{}

/// Without a NaN the square sum is the dot of the list with itself, record for record, of kinds 0
/// to 3.
pub fn square_dot()
    ensures { sum_law.Square-dot }
{}
