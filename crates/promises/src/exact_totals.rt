//! A total is the exact sum, rounded once.

ghost use Rattle.targets_spec.specs.formats.Promises as further;
ghost use Rattle.totals_spec.specs.chain.Promises as plain;
ghost use Rattle.totals_spec.specs.sums.Promises as sum_law;
ghost use Rattle.totals_spec.specs.formats.Promises as format_law;
ghost use Rattle.totals_spec.specs.rounding.Promises as rounding_law;

/// Of an accepted list of finite values with a non-zero term, result and flags of the sum are those
/// of the exact sum rounded once.
pub fn sum_exact()
    ensures { sum_law.Sum-exact }
{}

/// Of accepted lists of finite values with a non-zero product, result and flags of the dot are
/// those of the exact sum of the products rounded once.
pub fn dot_exact()
    ensures { sum_law.Dot-exact }
{}

/// Of finite values without a term the record of a sum is that of a zero: its sign by the listed
/// zeros and the mode, and flag 128 where one is subnormal.
pub fn sum_zeros()
    ensures { sum_law.Sum-zeros }
{}

/// Of finite values without a product that is not zero the record of a dot is that of a zero, its
/// sign by the products' zeros and the mode.
pub fn dot_zeros()
    ensures { sum_law.Dot-zeros }
{}

/// The side of a sum says how its result, decoded again, lies beside the exact sum.
pub fn sum_side()
    ensures { sum_law.Sum-side }
{}

/// The side of a dot says how its result, decoded again, lies beside the exact sum of the products.
pub fn dot_side()
    ensures { sum_law.Dot-side }
{}

/// A sum that is a NaN or an infinity has side 3, which is none.
pub fn sum_no_side()
    ensures { sum_law.Sum-no-side }
{}

/// A dot that is a NaN or an infinity has side 3, which is none.
pub fn dot_no_side()
    ensures { sum_law.Dot-no-side }
{}

/// What a rounding gives comes back from its encoding, but for the sign of the one zero and the one
/// NaN of Fnuz.
pub fn rounded_back()
    ensures { rounding_law.Rounded-back }
{}

/// What the passes over a list end with, rounded once, is the exact sum rounded once: in every
/// format, mode and precision, near a tie too.
pub fn sum_by_chain()
    ensures { plain.Sum-by-chain }
{}

/// What the passes over two lists end with, rounded once, is the exact sum of the products rounded
/// once.
pub fn dot_by_chain()
    ensures { plain.Dot-by-chain }
{}

/// Naming the bias that a kind has anyway changes no answer of a sum, a dot, their entries or pence.
pub fn naming_the_own_bias()
    ensures { format_law.Named-own }
{}

/// Naming it changes no target, no contribution and no total within an allowance either.
pub fn naming_the_own_bias_further()
    ensures { further.Named-own }
{}
