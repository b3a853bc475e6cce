//! The numbers of a format are what its encodings stand for.

ghost use Rattle.promises.specs.Amounts as amount;
ghost use Rattle.promises.specs.Special as special;

/// What an encoding stands for is a number of the format.
pub fn encodings_are_numbers()
    ensures { amount.Encodings-are-numbers }
{}

/// Each number of the format has an encoding.
pub fn numbers_are_encoded()
    ensures { amount.Numbers-are-encoded }
{}

/// Each number of the format has only one encoding.
pub fn encodes_back()
    ensures { amount.Encodes-back }
{}

/// The numbers of a call name the modes, the summands and the kinds as the specification lists
/// them.
pub fn numbers_name()
    ensures { special.Numbers-name }
{}
