// Operands and terms of values of ten bytes (kind 4), under settings of any numbers.
ghost use Rattle.std.specs.Prelude.{◌≡◌, ◌<◌, ◌^◌};
ghost use Rattle.totals_spec.specs.formats.Settings.{summand_of};
ghost use Rattle.totals_spec.specs.ten_bytes.Extended as spec;
ghost use Rattle.format.specs.Settings.{settings_of};
ghost use Rattle.format.specs.Unpacked.{unpacked_of};
ghost use Rattle.values.specs.Tens.{ten_of};
ghost use Rattle.binary.specs.Terms.{StandsFor};

use crate::settings::read_settings;
use crate::summands::read_summand;
use binary::term::Term;
use binary::{Read, extended, ten};
use format::settings::Settings;
use values::Ten;

/// An operand: the decoded number, or under denormals-are-zero a signed zero in place of a
/// subnormal one.
pub fn ten_operand(settings: Settings, ten: Ten) -> Read
    ensures { (unpacked_of result.value
        ≡ spec.extended_operand (settings_of settings) (ten_of ten))
        × (result.subnormal ≡ spec.subnormal_extended (ten_of ten)) }
{
    extended::operand(read_settings(settings), ten)
}

/// The term of an element.
pub fn ten_term(settings: Settings, summand: u64, ten: Ten) -> Term
    ensures stands_for { StandsFor result
        (spec.extended_item (settings_of settings) (summand_of summand) (ten_of ten)) }
    ensures one_word { summand < 2 → result.significand < 2 ^ 64 }
{
    ten::ten_term(read_settings(settings), read_summand(summand), ten)
}

/// The term of a pair.
pub fn ten_pair(settings: Settings, left: Ten, right: Ten) -> Term
    ensures { StandsFor result
        (spec.extended_pair (settings_of settings) (ten_of left, ten_of right)) }
{
    ten::ten_pair(read_settings(settings), left, right)
}
