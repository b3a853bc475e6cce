// A larger exact sum never has a smaller total.
#![tactic(auto)]

ghost use Rattle.promises.specs.Rising as law;

/// A larger sum is rounded to no smaller value: of every kind, in every mode and setting, with flush
/// to zero too, where neither is rounded to a NaN.
pub fn once_rises()
    ensures { law.Once-rises }
{}

/// A NaN comes of an overflow alone, in the kinds without infinities that have NaNs.
pub fn once_nan()
    ensures { law.Once-nan }
{}

/// A list with a larger exact sum of its values, their magnitudes or their squares never has a smaller
/// total.
pub fn sum_rises()
    ensures { law.Sum-rises }
{}

/// Nor has a dot with a larger exact sum of its products.
pub fn dot_rises()
    ensures { law.Dot-rises }
{}

/// In a kind with infinities, and in one without NaNs, no total of finite values is a NaN.
pub fn sum_number()
    ensures { law.Sum-number }
{}

/// Nor is a dot.
pub fn dot_number()
    ensures { law.Dot-number }
{}

/// Amounts that are raised, one or several, have no smaller sum.
pub fn amounts_rise()
    ensures { law.Amounts-rise }
{}

/// Raising values never lowers their total, under denormals-are-zero too.
pub fn values_rise()
    ensures { law.Values-rise }
{}

/// Raising factors whose partners are not negative never lowers a dot.
pub fn factors_rise()
    ensures { law.Factors-rise }
{}
