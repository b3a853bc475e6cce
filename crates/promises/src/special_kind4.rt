// Values of ten bytes: unsupported encodings, NaNs, infinities, zeros and flag 128.
#![tactic(auto)]

ghost use Rattle.promises.specs.SpecialKind4 as law;

/// An unsupported encoding gives the default NaN and flag 1, before every NaN and infinity.
pub fn extended_sum_unsupported()
    ensures { law.Extended-sum-unsupported }
{}

/// In either list of a dot too.
pub fn extended_dot_unsupported()
    ensures { law.Extended-dot-unsupported }
{}

/// In magnitude and square sums a quiet NaN decides where no infinity stands beside it.
pub fn extended_magnitudes_quiet()
    ensures { law.Extended-magnitudes-quiet }
{}

/// An infinity there comes before every quiet NaN, and is positive.
pub fn extended_magnitudes_infinite()
    ensures { law.Extended-magnitudes-infinite }
{}

/// Infinities of both signs are invalid.
pub fn extended_sum_infinities()
    ensures { law.Extended-sum-infinities }
{}

/// Infinities of one sign give that infinity.
pub fn extended_sum_infinite()
    ensures { law.Extended-sum-infinite }
{}

/// An infinity times zero gives the default NaN.
pub fn extended_dot_invalid()
    ensures { law.Extended-dot-invalid }
{}

/// Infinite products of both signs are invalid.
pub fn extended_dot_infinities()
    ensures { law.Extended-dot-infinities }
{}

/// Those of one sign give that infinity.
pub fn extended_dot_infinite()
    ensures { law.Extended-dot-infinite }
{}

/// Zeros of one sign keep it; of mixed signs they give +0, and −0 toward negative alone.
pub fn extended_sum_of_zeros()
    ensures { law.Extended-sum-of-zeros }
{}

/// In magnitude and square sums every zero is positive.
pub fn extended_magnitudes_of_zeros()
    ensures { law.Extended-magnitudes-of-zeros }
{}

/// Zero products add up by the signs of the products.
pub fn extended_dot_of_zeros()
    ensures { law.Extended-dot-of-zeros }
{}

/// Terms that cancel give +0, and −0 toward negative alone.
pub fn extended_sum_cancelled()
    ensures { law.Extended-sum-cancelled }
{}

/// And so do products.
pub fn extended_dot_cancelled()
    ensures { law.Extended-dot-cancelled }
{}

/// Flag 128 is set exactly where a subnormal number or a pseudo-denormal stands in the list.
pub fn extended_sum_subnormal()
    ensures { law.Extended-sum-subnormal }
{}

/// Or in either list of a dot.
pub fn extended_dot_subnormal()
    ensures { law.Extended-dot-subnormal }
{}

/// These are the values other than zero whose field is 0.
pub fn extended_subnormal_means()
    ensures { law.Extended-subnormal-means }
{}

/// What an encoding of ten bytes stands for, by its sign, its field and its significand.
pub fn extended_reads()
    ensures { law.Extended-reads }
{}

/// And what a zero, an infinity and a NaN are in bits.
pub fn extended_bits()
    ensures { law.Extended-bits }
{}
