// Which values of ten bytes stand for nothing (kind 4).
ghost use Rattle.std.specs.Prelude.{◌≡◌};
ghost use Rattle.totals_spec.specs.Basics.{any};
ghost use Rattle.totals_spec.specs.ten_bytes.Extended as spec;

use binary::extended::is_unsupported;
use values::ten_at;

/// Whether a list of values of ten bytes has an unsupported encoding (docs/SPECIFICATION.md,
/// Eighty-bit values).
#[tactic(auto, using(crate::proofs::Tens::tens_length))]
pub fn any_unsupported(values: &[u8]) -> bool
    ensures { result ≡ any spec.unsupported (spec.tens_in values.now) }
{
    for i in 0..values.len() / 10 {
        if is_unsupported(ten_at(values, i)) {
            return true;
        }
    }
    false
}
