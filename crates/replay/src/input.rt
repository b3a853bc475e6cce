// Standard input: rows of one length after another.
ghost use Rattle.std.specs.Prelude.{◌++◌, ◌^◌, ◌<◌, ◌≤◌, IfOk, OnOk};
ghost use Rattle.std.specs.Io.KnownBytes.{Appends};
ghost use Rattle.replay.specs.Row.{disagrees};
ghost use Rattle.replay.specs.Streams.{ConsumesFront};

use std::io;
use std::io::{Read, Write};

// Fills a buffer as far as the input goes, and leaves what is behind.
fn fill<R: Read>(from: &mut R, buffer: &mut [u8]) -> io::Result<()>
    ensures { OnOk result
        (ConsumesFront (R.remaining from.old) (R.remaining from.new) buffer.new) }
{
    let mut done = 0;
    while done < buffer.len() {
        let n = from.read(&mut buffer[done..])?;
        if n == 0 {
            break;
        }
        done += n;
    }
    Ok(())
}

// The next N bytes. Where the input ends early, zeros stand for those that it does not have.
pub fn next<const N: usize, R: Read>(from: &mut R) -> io::Result<[u8; N]>
    requires { N < 2 ^ 63 }
    ensures { IfOk result
        (λ bytes. ConsumesFront (R.remaining from.old) (R.remaining from.new) bytes) }
{
    let mut bytes = [0u8; N];
    fill(from, &mut bytes)?;
    Ok(bytes)
}

// A row ends its line itself.
pub fn print_disagreeing<W: Write>(to: &mut W, row: &[u8]) -> io::Result<()>
    ensures { OnOk result (Appends (W.contents to.old) (W.contents to.new) (disagrees ++ row.now)) }
{
    to.write_all(b"disagrees: ")?;
    to.write_all(row)
}

// Reads n rows of N bytes, prints each one whose answer disagrees, and tells how many agree.
pub fn agreeing<const N: usize, F: Fn(&[u8]) -> bool>(
    rt: &HostRuntime,
    n: u64,
    agrees: F,
) -> io::Result<u64>
    requires fits { N < 2 ^ 63 }
    requires callable { F.IsAlwaysCallable agrees }
    ensures { IfOk result (λ agreed. agreed ≤ n) }
{
    let mut agreed: u64 = 0;
    for _ in 0..n {
        let row = next::<N, _>(&mut rt.stdin())?;
        if agrees(&row) {
            agreed += 1;
        } else {
            print_disagreeing(&mut rt.stdout(), &row)?;
        }
    }
    Ok(agreed)
}
