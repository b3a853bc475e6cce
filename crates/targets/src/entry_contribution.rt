// The entry of a contribution, over records: the number found is written into eight bytes.
ghost use Rattle.std.specs.Prelude.{◌≡◌};
ghost use Rattle.targets_spec.specs.contribution.Contribution as spec;
ghost use Rattle.format.specs.Settings.{settings_of};
ghost use Rattle.totals.specs.Entered.{Enters};

use crate::contribution::contribution_to;
use format::settings::Settings;
use totals::entry::{NamedFormat, VALUE_BYTES};
use totals::refusal::Refusal;
use values::put_word;

/// The entry of the least number with which, behind the values, the plain sum is the wanted total.
/// Returns 0 and writes the number into the answer's first eight bytes, or the refusal plus 256
/// times its place, and then nothing is written (the specification, "Contributions").
pub fn enter_contribution(
    format: NamedFormat,
    settings: Settings,
    wanted: u64,
    values: &[u64],
    answer: &mut [u8],
) -> u64
    ensures { Enters
        (spec.contribution_entry format.kind format.exponent_bits format.width format.bias_named
        format.bias (settings_of settings) wanted values.now answer.old) result answer.new }
{
    if answer.len() < VALUE_BYTES {
        return Refusal::ShortBuffer.number();
    }
    let Ok(format) = format.format() else {
        return Refusal::NoSuchFormat.number();
    };
    match contribution_to(format, settings, values, wanted) {
        Ok(number) => {
            put_word(answer, 0, number);
            0
        }
        Err(refusal) => refusal.code(),
    }
}
