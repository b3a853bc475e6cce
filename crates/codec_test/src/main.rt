// Runs the codec and the rounding over the vectors of standard input, and prints how many of the
// answers agree. vectors.py makes the vectors, from the text of the specification alone, and says
// how a row is laid out. Behind them it writes wrong answers, which have to be told as wrong.
#![tactic(auto)]

mod rows;

ghost use Rattle.std.specs.Prelude.{ℕ, ◌*◌, ◌^◌, ◌<◌, ◌≤◌, IfOk};

use hexadecimal::number;
use rows::{decode_row, format_row, nan_row, round_row, settings_row};
use std::io;
use std::io::{ErrorKind, Read};

// Fills a row as far as the input goes: what it does not have stays zero.
fn read_row(rt: &HostRuntime, row: &mut [u8]) -> io::Result<()> {
    let mut done = 0;
    while done < row.len() {
        let n = rt.stdin().read(&mut row[done..])?;
        if n == 0 {
            break;
        }
        done += n;
    }
    Ok(())
}

// How many answers of the next n rows, each of N bytes, agree, by a function that tells it of one
// row.
fn next_rows<const N: usize, F: Fn(&[u8]) -> u64>(
    rt: &HostRuntime,
    count: u64,
    agreeing: F,
) -> io::Result<u64>
    requires few { count < 65536 }
    requires short { N < 2 ^ 63 }
    requires callable { F.IsAlwaysCallable agreeing }
    requires at_most { (s : _) (r : ℕ) → F.post agreeing s r → r ≤ 128 }
    ensures { IfOk result (λ agreed. agreed ≤ 128 * count) }
{
    let mut agreed: u64 = 0;
    for _ in 0..count {
        let mut row = [0u8; N];
        read_row(rt, &mut row)?;
        agreed += agreeing(&row);
    }
    Ok(agreed)
}

// Prints how many of the answers of the next n rows agree, which are so many in all.
fn report<const N: usize, F: Fn(&[u8]) -> u64>(
    rt: &HostRuntime,
    name: &str,
    count: u64,
    all: u64,
    agreeing: F,
) -> io::Result<()>
    requires few { count < 65536 }
    requires short { N < 2 ^ 63 }
    requires callable { F.IsAlwaysCallable agreeing }
    requires at_most { (s : _) (r : ℕ) → F.post agreeing s r → r ≤ 128 }
{
    let agreed = next_rows::<N, F>(rt, count, agreeing)?;
    println!(rt; "{name}: {agreed} of {all} agree")
}

// The next n rows, in each of which one answer is wrong: as many agree as are right, or there is an
// error.
fn told<const N: usize, F: Fn(&[u8]) -> u64>(
    rt: &HostRuntime,
    count: u64,
    right: u64,
    agreeing: F,
) -> io::Result<()>
    requires short { N < 2 ^ 63 }
    requires callable { F.IsAlwaysCallable agreeing }
{
    for _ in 0..count {
        let mut row = [0u8; N];
        read_row(rt, &mut row)?;
        if agreeing(&row) != right {
            return Err(io::Error::from(ErrorKind::InvalidData));
        }
    }
    Ok(())
}

// The negative control: behind the vectors stand rows of each kind with one digit of the answers
// changed, each of which has to be told as wrong.
fn control(rt: &HostRuntime) -> io::Result<()> {
    let mut head = [0u8; 25];
    read_row(rt, &mut head)?;
    let decodings = number(&head, 0, 4) % 65536;
    let nans = number(&head, 5, 4) % 65536;
    let roundings = number(&head, 10, 4) % 65536;
    let formats = number(&head, 15, 4) % 65536;
    let settings = number(&head, 20, 4) % 65536;
    told::<20, _>(rt, decodings, 4, decode_row)?;
    told::<27, _>(rt, nans, 7, nan_row)?;
    told::<564, _>(rt, roundings, 127, round_row)?;
    told::<71, _>(rt, formats, 6, format_row)?;
    told::<23, _>(rt, settings, 3, settings_row)?;
    let wrong = decodings + nans + roundings + formats + settings;
    println!(rt; "one digit changed: {wrong} told as wrong")
}

fn main(rt: HostRuntime) -> io::Result<()> {
    let mut head = [0u8; 25];
    read_row(&rt, &mut head)?;
    let decodings = number(&head, 0, 4) % 65536;
    let nans = number(&head, 5, 4) % 65536;
    let roundings = number(&head, 10, 4) % 65536;
    let formats = number(&head, 15, 4) % 65536;
    let settings = number(&head, 20, 4) % 65536;
    report::<20, _>(
        &rt,
        "decode, operand, encode",
        decodings,
        5 * decodings,
        decode_row,
    )?;
    report::<27, _>(&rt, "choice among NaNs", nans, 8 * nans, nan_row)?;
    report::<564, _>(&rt, "rounding", roundings, 128 * roundings, round_row)?;
    report::<71, _>(&rt, "formats", formats, 7 * formats, format_row)?;
    report::<23, _>(
        &rt,
        "settings and zeros",
        settings,
        4 * settings,
        settings_row,
    )?;
    control(&rt)
}
