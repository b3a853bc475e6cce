//! Totals of finite values are their exact sum, rounded once as the standard words it.

ghost use Rattle.promises.specs.Amounts as amount;
ghost use Rattle.promises.specs.Statements as law;
ghost use Rattle.promises.specs.Whole as whole;

/// The exact sum is the sum of the elements, their magnitudes, their squares or their products.
pub fn exact_sum_means()
    ensures { amount.Exact-sum-means }
{}

/// The sum of finite values is their exact sum, rounded once.
pub fn sum_rounded_once()
    ensures { law.Sum-rounded-once }
{}

/// The dot of finite values is the exact sum of their products, rounded once.
pub fn dot_rounded_once()
    ensures { law.Dot-rounded-once }
{}

/// The sum and the dot of finite values of ten bytes are their exact sum, rounded once.
pub fn extended_rounded_once()
    ensures { law.Extended-rounded-once }
{}

/// Two records of one exact sum rounded once have one result and one set of flags.
pub fn one_record()
    ensures { law.Rounded-one }
{}

/// A sum is the exact sum itself, where that is a number of the format and is not flushed to zero.
pub fn sum_held()
    ensures { law.Sum-held }
{}

/// A dot is the exact sum of its products itself, where that is a number of the format and is not
/// flushed to zero.
pub fn dot_held()
    ensures { law.Dot-held }
{}

/// A sum within the format's range that is not flushed is off by less than a unit in the last
/// place, to nearest by at most half of one.
pub fn sum_near()
    ensures { law.Sum-near }
{}

/// A dot within the format's range that is not flushed is off by less than a unit in the last
/// place, to nearest by at most half of one.
pub fn dot_near()
    ensures { law.Dot-near }
{}

/// Terms that cancel give a zero, negative only toward negative.
pub fn sum_cancels()
    ensures { law.Sum-cancels }
{}

/// At full precision, without flush-to-zero and denormals-are-zero, the total of one element is
/// that element, bit for bit.
pub fn one_stays()
    ensures { amount.One-stays }
{}

/// In an Ieee format without flush-to-zero and denormals-are-zero raising an amount never lowers
/// the total.
pub fn total_rises()
    ensures { amount.Total-rises }
{}

/// Whole numbers in doubles whose sum stays below 2^53, as pence do, have it as their total, to the
/// last digit, with no flag, in every mode.
pub fn whole_sum()
    ensures { whole.Whole-sum }
{}
