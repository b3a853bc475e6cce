// Summands by their numbers, as the definitions read these: above the last stands the last.
ghost use Rattle.std.specs.Prelude.{◌≡◌};
ghost use Rattle.totals_spec.specs.formats.Settings.{summand_of};
ghost use Rattle.binary.specs.Summands.{summand_in};

use binary::summand::Summand;

/// The summand that a number names; a number above the last is the squares (totals_spec, Settings).
pub fn read_summand(number: u64) -> Summand
    ensures { summand_in result ≡ summand_of number }
{
    Summand::try_from(number).unwrap_or(Summand::Square)
}
