//! Reading the input as far as it decides the text, and writing the text, through any reader and
//! any writer.

ghost use Rattle.std.specs.Prelude.{◌≡◌, ◌≢◌, ◌<◌, ◌≤◌, take, length};
ghost use Rattle.std.specs.Prelude.{IfOk, IfErr, IfSome, OnOk, OnErr};
ghost use Rattle.std.specs.Io.KnownBytes.{Appends, Consumes, IsAtEnd};
ghost use Rattle.std.specs.IoError.{error_kind};
ghost use Rattle.totals_spec.specs.program.Program.{program_text};
ghost use Rattle.text.specs.Streams.{ConsumesFewer, AppendsPart, IsLeft, IsWritten, IsTried};
ghost use Rattle.text.specs.Answered.{IsAnswered};

use crate::answer::{Answered, answer_to};
use std::io;
use std::io::{ErrorKind, Read, Write};
use thiserror::Error;

/// Which end failed.
#[derive(Debug, Drop, Error)]
pub enum Failure {
    #[error("standard input: {0}")]
    Input(io::Error),
    #[error("standard output: {0}")]
    Output(io::Error),
}

// Reads until the buffer is full or the input ends, and tells how many bytes there are. std's
// `read_to_end` does so with a Vec, and no heap is needed here; its `read_exact` takes an input
// that ends early for an error.
fn read_full<R: Read>(reader: &mut R, buffer: &mut [u8]) -> io::Result<usize>
    ensures within { IfOk result (λ n. n ≤ length buffer.new) }
    ensures bytes { IfOk result (λ n.
        Consumes (R.remaining reader.old) (R.remaining reader.new) (take n buffer.new)) }
    ensures end { IfOk result (λ n. n < length buffer.new → IsAtEnd (R.remaining reader.new)) }
    ensures err { OnErr result
        (ConsumesFewer (R.remaining reader.old) (R.remaining reader.new) (length buffer.new)) }
{
    let mut done = 0;
    while done < buffer.len() {
        let n = reader.read(&mut buffer[done..])?;
        if n == 0 {
            break;
        }
        done += n;
    }
    Ok(done)
}

// Writes all of some bytes, and tries again where a write is interrupted, as often as std's
// `write_all` does. That one does not say what is written where it fails.
fn write_full<W: Write>(writer: &mut W, bytes: &[u8]) -> io::Result<()>
    ensures ok { OnOk result (Appends (W.contents writer.old) (W.contents writer.new) bytes.now) }
    ensures err { OnErr result
        (AppendsPart (W.contents writer.old) (W.contents writer.new) bytes.now) }
    ensures tried { IfErr result (λ error. error_kind error ≢ ErrorKind.Interrupted) }
{
    let mut tries = u64::MAX;
    let mut written = 0;
    while written < bytes.len() {
        if tries == 0 {
            return Err(io::Error::from(ErrorKind::TimedOut));
        }
        tries -= 1;
        match writer.write(&bytes[written..]) {
            Ok(0) => return Err(io::Error::from(ErrorKind::WriteZero)),
            Ok(n) => written += n,
            Err(error) if error.kind() == ErrorKind::Interrupted => {}
            Err(error) => return Err(error),
        }
    }
    Ok(())
}

/// Reads an input as far as it decides its text, and writes the text of the whole input
/// (docs/SPECIFICATION.md, "The program"). 8,192 lines of 17 bytes and one byte more decide it: no
/// more is read. Tells whether the text is that of a total, or refuses a line, and then why. An
/// `Err` says which end failed; a write that is interrupted is tried again.
pub fn answer<R: Read, W: Write>(reader: &mut R, writer: &mut W) -> Result<Answered, Failure>
    ensures written { IfSome (R.remaining reader.old) (λ input.
        IsWritten result (program_text input) (W.contents writer.old) (W.contents writer.new)) }
    ensures left { IfSome (R.remaining reader.old) (λ input.
        IsLeft result input (R.remaining reader.new)) }
    ensures answered { IfSome (R.remaining reader.old) (λ input.
        IfOk result (λ answered. IsAnswered answered input)) }
    ensures tried { IsTried result }
{
    let mut input = [0u8; 139265];
    let n = match read_full(reader, &mut input) {
        Ok(n) => n,
        Err(error) => return Err(Failure::Input(error)),
    };
    let (text, answered) = answer_to(&input[..n]);
    match write_full(writer, text.as_bytes()) {
        Ok(()) => Ok(answered),
        Err(error) => Err(Failure::Output(error)),
    }
}
