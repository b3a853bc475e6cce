//! The passes never exceed their limit, 1 + ⌈(T − 702 − B) / (697 − p)⌉.

ghost use Rattle.totals_spec.specs.chain.Promises as law;
ghost use Rattle.totals_spec.specs.rounding.Promises as rounding_law;

/// A sum never takes more passes than the limit, whatever the length of the list, of refused calls
/// too.
pub fn sum_limit()
    ensures { law.Sum-limit }
{}

/// A dot never takes more passes than the limit.
pub fn dot_limit()
    ensures { law.Dot-limit }
{}

/// In binary64 a sum or a magnitude sum takes at most 4 passes.
pub fn binary64_sum_limit()
    ensures { law.Binary64-sum-limit }
{}

/// In binary64 a square sum takes at most 7 passes.
pub fn binary64_square_limit()
    ensures { law.Binary64-square-limit }
{}

/// In binary64 a dot takes at most 7 passes.
pub fn binary64_dot_limit()
    ensures { law.Binary64-dot-limit }
{}

/// The chain of passes of a sum ends by its own rule: the number that its definition allows is
/// never used up.
pub fn sum_ends()
    ensures { law.Sum-ends }
{}

/// The chain of passes of a dot ends by its own rule too.
pub fn dot_ends()
    ensures { law.Dot-ends }
{}

/// Each subtraction in the edges of a sum's passes is a true difference: no edge lies below the
/// unit.
pub fn sum_edges()
    ensures { law.Sum-edges }
{}

/// Each subtraction in the edges of a dot's passes is a true difference too.
pub fn dot_edges()
    ensures { law.Dot-edges }
{}

/// B is made of lowest set bits: the bits below one are 0, and it is 1.
pub fn low_bit()
    ensures { law.Low-bit }
{}

/// T is made of bit lengths: a number m above 0 lies from 2^(size m − 1) up to below 2^(size m),
/// and 0 has none.
pub fn size_is_length()
    ensures { rounding_law.Size-is-length }
{}
