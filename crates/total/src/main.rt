//! The program `total`: the sum of the binary64 numbers on standard input, one to a line in 16
//! lower-case hex digits, as its result, its flags, its passes and its pence.
#![tactic(auto)]

ghost use Rattle.std.specs.Prelude.{◌≡◌};
ghost use Rattle.text.specs.Answered.{status_of};

use std::env::{Env, FillError};
use std::process::ExitCode;
use text::answer::Answered;
use text::stream::{Failure, answer};

// The name and the version of the package (bindings/rust/Cargo.toml).
const VERSION: &str = "total (fermuzhai) 0.10.0";

const USAGE: &str = "\
Sums the binary64 numbers on standard input, one to a line in 16 lower-case hex digits, and prints
result, flags, passes and pence.

    total < numbers.txt
    total --help, -h
    total --version

The exit status is 1 where a line is refused, the input cannot be read or the answer cannot be
written, and 2 where the arguments are wrong. Standard error says why.";

// The status where the arguments are wrong.
const WRONG_ARGUMENTS: u8 = 2;

// What the arguments ask for.
enum Request {
    Total,
    Help,
    Version,
}

// What the arguments ask for, if they are right. The program's own name, argument 0, may be any.
fn asked(rt: &HostRuntime) -> Option<Request> {
    let mut buffer = [0u8; 16];
    let length = match rt.arg(1, &mut buffer) {
        Ok(length) => length,
        Err(FillError::NotPresent) => return Some(Request::Total),
        Err(FillError::TooLong) => return None,
    };
    let Err(FillError::NotPresent) = rt.arg(2, &mut [0; 1]) else {
        return None;
    };
    match &buffer[..length] {
        b"-h" | b"--help" => Some(Request::Help),
        b"--version" => Some(Request::Version),
        _ => None,
    }
}

// The status that the program ends with after a total: 0, or 1 where there is none.
fn status(ended: &Result<Answered, Failure>) -> u8
    ensures { result ≡ status_of ended.now }
{
    match ended {
        Ok(Answered::Total) => 0,
        Ok(Answered::Refused(_)) | Err(_) => 1,
    }
}

// Reads, sums and writes, and says on standard error why there is no total. Where that fails too,
// the status alone tells.
fn total(rt: &HostRuntime) -> u8 {
    let ended = answer(&mut rt.stdin(), &mut rt.stdout());
    let _said = match &ended {
        Ok(Answered::Total) => Ok(()),
        Ok(Answered::Refused(line)) => eprintln!(rt; "total: {line}"),
        Err(failure) => eprintln!(rt; "total: {failure}"),
    };
    status(&ended)
}

fn say(rt: &HostRuntime, text: &str) -> u8 {
    match println!(rt; "{text}") {
        Ok(()) => 0,
        Err(error) => {
            let _said = eprintln!(rt; "total: {}", Failure::Output(error));
            1
        }
    }
}

fn main(rt: HostRuntime) -> ExitCode {
    ExitCode::from(match asked(&rt) {
        Some(Request::Total) => total(&rt),
        Some(Request::Help) => say(&rt, USAGE),
        Some(Request::Version) => say(&rt, VERSION),
        None => {
            let _said = eprintln!(rt;
                "total: the arguments are wrong; total --help says which there are"
            );
            WRONG_ARGUMENTS
        }
    })
}
