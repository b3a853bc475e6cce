// Targets, and answers within an allowance, in the words of the rounding.
#![tactic(auto)]

ghost use Rattle.promises.specs.TargetRounding as law;

/// A target of a list of finite values is their exact sum, rounded once in the target's own format
/// and under its own settings.
pub fn target_rounded_once()
    ensures { law.Target-rounded-once }
{}

/// Terms that cancel give +0 there, and −0 toward negative alone.
pub fn target_cancelled()
    ensures { law.Target-cancelled }
{}

/// Zeros of one sign keep it there; of mixed signs they give +0, and −0 toward negative alone.
pub fn target_of_zeros()
    ensures { law.Target-of-zeros }
{}

/// A full answer within an allowance is the total's whole record.
pub fn sum_within_full()
    ensures { law.Sum-within-full }
{}

/// And so is a dot's.
pub fn dot_within_full()
    ensures { law.Dot-within-full }
{}

/// So of finite values it is the exact sum, rounded once.
pub fn sum_within_once()
    ensures { law.Sum-within-once }
{}

/// And of pairs of them the exact sum of their products.
pub fn dot_within_once()
    ensures { law.Dot-within-once }
{}
