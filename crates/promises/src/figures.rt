// The pence of a list.
#![tactic(auto)]

ghost use Rattle.promises.specs.Figures as law;

/// The pence of a list are the whole number nearest to a hundred times its exact sum, and of two that
/// are as near the one farther from zero; beyond 2^63 − 1 either way the call is refused with 8.
pub fn pence_nearest()
    ensures { law.Pence-nearest }
{}

/// At most one whole number is.
pub fn pence_one()
    ensures { law.Pence-one }
{}

/// It is a rounding to nearest, with ties away from zero, on a grid of one penny.
pub fn pence_round()
    ensures { law.Pence-round }
{}
