//! What the program writes: a text of at most 64 bytes, put together by value.

ghost use Rattle.std.specs.Prelude.{[], ◌∷◌, ◌++◌, ◌≡◌, ◌+◌, ◌^◌, ◌≤◌, ◌<◌, length};
ghost use Rattle.totals_spec.specs.program.Program.{hex_text, decimal_text, refused_text, line_end};
ghost use Rattle.text.specs.FourLines.{figure_text, four_lines};

use std::marker::Model;

/// A text that the program writes: as many of its 64 bytes as its length says, and zeros behind
/// them (`Holds` in specs/Holds.antt, of every text). Contracts see it as the list of its bytes.
#[derive(Clone, Copy)]
pub struct Text {
    pub length: usize,
    pub bytes: [u8; 64],
}

impl Model for Text {
    ghost use Rattle.std.specs.Prelude.{ℕ, List};

    ghost Value = { List ℕ };

    ghost use Rattle.text.specs.Holds.{Holds, held, laid, laid_held};

    ghost view = { held };

    ghost invariant = { λ text. Holds text (held text) };

    ghost inverse = { laid };

    ghost inverse_ok = { laid_held };
}

// `write!` returns a Result, and what it promises does not say that it is Ok where the text has
// room; so the numbers come from `io`.
impl Text {
    fn new() -> Self
        ensures { result ≡ [] }
    {
        Text {
            length: 0,
            bytes: [0; 64],
        }
    }

    /// Its bytes.
    pub fn as_bytes(&self) -> &[u8]
        ensures value { result.now ≡ self.now }
        ensures fits { length result.now ≤ 64 }
    {
        &self.bytes[..self.length]
    }

    fn byte(self, byte: u8) -> Self
        requires { length self < 64 }
        ensures text { result ≡ self ++ byte ∷ [] }
        ensures len { length result ≡ length self + 1 }
    {
        self.bytes(&[byte])
    }

    fn bytes(mut self, more: &[u8]) -> Self
        requires { length self + length more.now ≤ 64 }
        ensures text { result ≡ self ++ more.now }
        ensures len { length result ≡ length self + length more.now }
    {
        let start = self.length;
        let end = start + more.len();
        self.bytes[start..end].copy_from_slice(more);
        self.length = end;
        self
    }

    // A number in `count` hex digits.
    fn hex(self, number: u64, count: usize) -> Self
        requires width { (1 ≤ count) × (count ≤ 16) }
        requires small { number < 16 ^ count }
        requires room { length self + count ≤ 64 }
        ensures text { result ≡ self ++ hex_text count number }
        ensures len { length result ≡ length self + count }
    {
        let mut digits = [0u8; 16];
        let written = io::hex(number, count, &mut digits);
        self.bytes(&digits[..written])
    }

    // A number in decimal: at most 20 digits.
    fn decimal(self, number: u64) -> Self
        requires { length self + 20 ≤ 64 }
        ensures text { result ≡ self ++ decimal_text number }
        ensures len { length result ≤ length self + 20 }
    {
        let mut digits = [0u8; 20];
        let written = io::decimal(number, &mut digits);
        self.bytes(&digits[..written])
    }

    // A figure in pence, or the word none where there is none.
    fn pence(self, pence: Option<i64>) -> Self
        requires { length self + 21 ≤ 64 }
        ensures text { result ≡ self ++ figure_text pence }
        ensures len { length result ≤ length self + 21 }
    {
        match pence {
            None => self.bytes(b"none"),
            Some(figure) if figure < 0 => self.byte(b'-').decimal(figure.unsigned_abs()),
            Some(figure) => self.decimal(figure.unsigned_abs()),
        }
    }
}

// The answer to a bad line, counted from 1.
pub(crate) fn refused_line(line: usize) -> Text
    ensures { result ≡ refused_text ++ (decimal_text line ++ line_end) }
{
    Text::new()
        .bytes(b"refused line ")
        .decimal(line as u64)
        .byte(b'\n')
}

// The four lines of an answer: of its flags the last two hex digits.
pub(crate) fn answer_lines(total: u64, flags: u64, passes: u64, pence: Option<i64>) -> Text
    ensures { result ≡ four_lines total flags passes pence }
{
    let first = Text::new().hex(total, 16).byte(b'\n');
    let second = first.hex(flags % 256, 2).byte(b'\n');
    let third = second.decimal(passes).byte(b'\n');
    third.pence(pence).byte(b'\n')
}
