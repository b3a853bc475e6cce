//! Zeros, terms that cancel, and subnormal elements.

ghost use Rattle.promises.specs.Special as law;

/// Zeros of one sign keep it; of mixed signs they give +0, and −0 toward negative alone.
pub fn sum_of_zeros()
    ensures { law.Sum-of-zeros }
{}

/// In magnitude and square sums every zero is positive.
pub fn magnitudes_of_zeros()
    ensures { law.Magnitudes-of-zeros }
{}

/// Zero products of a dot add up as zeros do, by the signs of the products.
pub fn dot_of_zeros()
    ensures { law.Dot-of-zeros }
{}

/// A zero in bits is its sign alone, and in Fnuz nothing.
pub fn zero_bits()
    ensures { law.Zero-bits }
{}

/// Terms of a sum that cancel give +0, and −0 toward negative alone.
pub fn sum_cancelled()
    ensures { law.Sum-cancelled }
{}

/// Products of a dot that cancel give +0, and −0 toward negative alone.
pub fn dot_cancelled()
    ensures { law.Dot-cancelled }
{}

/// An element is subnormal exactly where it is a number other than 0 below the least normal one.
pub fn subnormal_means()
    ensures { law.Subnormal-means }
{}

/// Flag 128 of a sum is set exactly where a subnormal element stands in the list.
pub fn sum_subnormal()
    ensures { law.Sum-subnormal }
{}

/// Flag 128 of a dot is set exactly where a subnormal element stands in either list.
pub fn dot_subnormal()
    ensures { law.Dot-subnormal }
{}
