// Runs the program's text over the cases of standard input, each as bytes and through readers and
// writers, and prints how many of the answers agree. Then come wrong texts, each of which has to be
// told as wrong both ways. cases.py makes the cases and says how they are laid out.
#![tactic(auto)]

mod streams;

ghost use Rattle.std.specs.Prelude.{◌^◌, ◌<◌, IfOk};

use arrayvec::ArrayVec;
use hexadecimal::number;
use std::io;
use std::io::{ErrorKind, Read};
use text::answer_text;

// Whether the text that a row expects is that of its input: as bytes, zeros behind them, and
// through readers and writers.
#[derive(Clone, Copy)]
struct Agrees {
    bytes: bool,
    streams: bool,
}

fn compared(row: &[u8; 589]) -> io::Result<Agrees> {
    let size = number(row, 576, 5) as usize;
    let n = number(row, 582, 3) as usize;
    let length = number(row, 586, 2) as usize;
    let mut input: ArrayVec<u8, 139281> = ArrayVec::new();
    input.extend(row.iter().copied().take(n).cycle().take(size.min(139281)))?;
    let text = answer_text(&input);
    Ok(Agrees {
        bytes: text.length == length && text.bytes.as_slice() == &row[512..576],
        streams: streams::agrees(&input, &row[512..512 + length.min(64)]),
    })
}

// Fills a row as far as the input goes: what it does not have stays zero.
fn read_row(rt: &HostRuntime, row: &mut [u8]) -> io::Result<()> {
    let mut done = 0;
    while done < row.len() {
        let n = rt.stdin().read(&mut row[done..])?;
        if n == 0 {
            break;
        }
        done += n;
    }
    Ok(())
}

// How many rows follow.
fn count(rt: &HostRuntime) -> io::Result<u64>
    ensures { IfOk result (λ n. n < 65536) }
{
    let mut head = [0u8; 5];
    read_row(rt, &mut head)?;
    Ok(number(&head, 0, 4) % 65536)
}

fn next(rt: &HostRuntime) -> io::Result<Agrees> {
    let mut row = [0u8; 589];
    read_row(rt, &mut row)?;
    compared(&row)
}

fn cases(rt: &HostRuntime) -> io::Result<()> {
    let cases = count(rt)?;
    let mut agreed: u64 = 0;
    for case in 1..=cases {
        let agrees = next(rt)?;
        if agrees.bytes && agrees.streams {
            agreed += 1;
        } else {
            println!(rt; "case {case} disagrees")?;
        }
    }
    println!(rt; "{agreed} of {cases} agree")
}

// The negative control.
fn wrong_texts(rt: &HostRuntime) -> io::Result<()> {
    let texts = count(rt)?;
    for text in 1..=texts {
        let agrees = next(rt)?;
        if agrees.bytes || agrees.streams {
            println!(rt; "wrong text {text} is taken for right")?;
            return Err(io::Error::from(ErrorKind::InvalidData));
        }
    }
    println!(rt; "{texts} of {texts} wrong texts told as wrong")
}

fn main(rt: HostRuntime) -> io::Result<()> {
    cases(&rt)?;
    wrong_texts(&rt)
}
