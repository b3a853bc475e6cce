// The arithmetic on settings, modes and summands as the numbers that a caller gave, whatever they
// are: each is read as the definitions read it, and then it is that of the types in their ranges.
#![tactic(auto)]

/// Modes of any number.
pub mod modes;
/// Operands, and the choice among NaNs.
pub mod operands;
/// The rounding rules.
pub mod rounding;
/// What a scan decides.
pub mod scans;
/// Settings of any numbers.
pub mod settings;
/// Summands of any number.
pub mod summands;
/// Operands and terms of values of ten bytes.
pub mod tens;
/// The terms of elements and of pairs.
pub mod terms;
/// Totals without a term.
pub mod zeros;
