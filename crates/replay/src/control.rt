// The negative control: behind the list stand rows of each kind with one digit of the answer
// changed. Each way of working such a row out has to tell it as wrong, so that a comparison that
// always agrees ends the program with an error.
ghost use Rattle.std.specs.Prelude.{◌+◌, ◌^◌, ◌<◌, ◌≤◌, IfOk};

use crate::career_pages::{LONG_SPAN, LONG_WRITTEN, SPAN, WRITTEN};
use crate::input::next;
use crate::row::{BIASED, BIASED_PENCE, BIASED_TABLE, LONG, PENCE, ROW};
use crate::ways::{by_bytes, by_entry, by_words};
use crate::{
    career_pages, contributions, estimates, lists, ranges, single_pence, sums_into, tables, tens,
};
use hexadecimal::number;
use std::io;
use std::io::{ErrorKind, Write};

// How many of the next rows, each of N bytes and their number first, are told as wrong: all of
// them, or there is an error.
fn wrong<const N: usize, F: Fn(&[u8]) -> bool>(rt: &HostRuntime, agrees: F) -> io::Result<u64>
    requires fits { N < 2 ^ 63 }
    requires callable { F.IsAlwaysCallable agrees }
    ensures { IfOk result (λ n. n < 65536) }
{
    let head = next::<5, _>(&mut rt.stdin())?;
    let n = number(&head, 0, 4) % 65536;
    for _ in 0..n {
        let row = next::<N, _>(&mut rt.stdin())?;
        if agrees(&row) {
            rt.stdout().write_all(b"taken for right: ")?;
            rt.stdout().write_all(&row)?;
            return Err(io::Error::from(ErrorKind::InvalidData));
        }
    }
    Ok(n)
}

fn of_totals(rt: &HostRuntime) -> io::Result<u64>
    ensures { IfOk result (λ n. n < 589824) }
{
    let mut told = wrong::<ROW, _>(rt, by_words)?;
    told += wrong::<ROW, _>(rt, by_bytes)?;
    told += wrong::<ROW, _>(rt, by_entry)?;
    told += wrong::<LONG, _>(rt, by_words)?;
    told += wrong::<LONG, _>(rt, by_bytes)?;
    told += wrong::<LONG, _>(rt, by_entry)?;
    told += wrong::<BIASED, _>(rt, by_words)?;
    told += wrong::<BIASED, _>(rt, by_bytes)?;
    told += wrong::<BIASED, _>(rt, by_entry)?;
    Ok(told)
}

fn of_figures(rt: &HostRuntime) -> io::Result<u64>
    ensures { IfOk result (λ n. n < 786432) }
{
    let mut told = wrong::<PENCE, _>(rt, single_pence::agrees)?;
    told += wrong::<BIASED_PENCE, _>(rt, single_pence::agrees)?;
    told += wrong::<ROW, _>(rt, lists::by_function)?;
    told += wrong::<ROW, _>(rt, lists::by_entry)?;
    told += wrong::<BIASED, _>(rt, lists::by_function)?;
    told += wrong::<BIASED, _>(rt, lists::by_entry)?;
    told += wrong::<LONG, _>(rt, tables::by_function)?;
    told += wrong::<LONG, _>(rt, tables::by_entry)?;
    told += wrong::<BIASED_TABLE, _>(rt, tables::by_function)?;
    told += wrong::<BIASED_TABLE, _>(rt, tables::by_entry)?;
    told += wrong::<LONG, _>(rt, ranges::by_function)?;
    told += wrong::<LONG, _>(rt, ranges::by_entry)?;
    Ok(told)
}

fn of_pages_and_more(rt: &HostRuntime) -> io::Result<u64>
    ensures { IfOk result (λ n. n < 786432) }
{
    let mut told = wrong::<SPAN, _>(rt, career_pages::by_function)?;
    told += wrong::<SPAN, _>(rt, career_pages::by_entry)?;
    told += wrong::<LONG_SPAN, _>(rt, career_pages::by_function)?;
    told += wrong::<LONG_SPAN, _>(rt, career_pages::by_entry)?;
    told += wrong::<WRITTEN, _>(rt, career_pages::page_agrees)?;
    told += wrong::<LONG_WRITTEN, _>(rt, career_pages::page_agrees)?;
    told += wrong::<{ tens::ROW }, _>(rt, tens::agrees)?;
    told += wrong::<{ sums_into::ROW }, _>(rt, sums_into::agrees)?;
    told += wrong::<{ estimates::ROW }, _>(rt, estimates::agrees)?;
    told += wrong::<{ contributions::ROW }, _>(rt, contributions::by_words)?;
    told += wrong::<{ contributions::ROW }, _>(rt, contributions::by_bytes)?;
    told += wrong::<{ contributions::ROW }, _>(rt, contributions::by_entry)?;
    Ok(told)
}

// How many wrong answers are told as wrong, which are all that there are.
pub fn told(rt: &HostRuntime) -> io::Result<u64> {
    Ok(of_totals(rt)? + of_figures(rt)? + of_pages_and_more(rt)?)
}
