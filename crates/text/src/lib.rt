//! What the program `total` writes for what it reads, both as bytes (docs/SPECIFICATION.md, "The
//! program").
#![tactic(auto)]

pub mod answer;
pub mod decided;
mod read;
pub mod reason;
pub mod stream;
pub mod write;

ghost use Rattle.std.specs.Prelude.{◌≡◌, ◌≤◌, length};
ghost use Rattle.totals_spec.specs.program.Program.{program_text};

use crate::answer::answer_to;
use crate::write::Text;

/// The whole text that the program writes for an input. It fits, and zeros stand behind it up to 64
/// bytes, as in every `Text`.
pub fn answer_text(input: &[u8]) -> Text
    ensures text { result ≡ program_text input.now }
    ensures fits { length (program_text input.now) ≤ 64 }
{
    let (text, _answered) = answer_to(input);
    // every text fits: its fields say so
    let _length = text.length;
    text
}
