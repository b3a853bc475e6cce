// Replays the cases of standard input: works each one out, compares the answer with the one that
// its row holds, and prints how many agree. Totals are worked out over words, over bytes and
// through a byte entry, the pence of a list, the totals of a table, of ranges and of a page's span
// by the function and through its entry; pages are written through theirs, values of ten bytes are
// added through the byte entries, and one total in several formats comes through its own, and so do
// totals within an allowance of passes. Contributions come over words, over bytes and through their
// entry. Then come wrong answers, each of which has to be told as wrong. cases.py makes the list,
// and says how it is laid out; README.md says where the answers come from.
#![tactic(auto)]

mod career_pages;
mod contributions;
mod control;
mod estimates;
mod input;
mod lists;
mod promised;
mod ranges;
mod row;
mod single_pence;
mod sums_into;
mod tables;
mod tens;
mod ways;

ghost use Rattle.std.specs.Prelude.{◌≡◌, ◌+◌, ◌^◌, ◌<◌, ◌≤◌, IfOk};

use career_pages::{LONG_SPAN, LONG_WRITTEN, SPAN, WRITTEN};
use hexadecimal::number;
use input::{agreeing, next, print_disagreeing};
use row::{BIASED, BIASED_PENCE, BIASED_TABLE, LONG, PENCE, ROW};
use std::io::Write;
use std::ops::AddAssign;
use std::{fmt, io};
use ways::{by_bytes, by_entry, by_words};

// How many rows were read, and how many of them agree, each way.
#[derive(Clone, Copy)]
struct Agreed {
    rows: u64,
    words: u64,
    bytes: u64,
    entries: u64,
    ghost within: { (words ≤ rows) × (bytes ≤ rows) × (entries ≤ rows) },
}

// Written by hand, since none is derived for a struct with a ghost field.
impl Default for Agreed {
    ghost is_default = { λ a. a.rows ≡ 0 };

    fn default() -> Agreed {
        Agreed {
            rows: 0,
            words: 0,
            bytes: 0,
            entries: 0,
        }
    }
}

impl AddAssign for Agreed {
    ghost can_add_assign = { λ a bits. a.rows + bits.rows < 2 ^ 64 };

    ghost add_assign_gives = { λ a bits settings. settings.rows ≡ a.rows + bits.rows };

    fn add_assign(&mut self, more: Agreed) {
        *self = Agreed {
            rows: self.rows + more.rows,
            words: self.words + more.words,
            bytes: self.bytes + more.bytes,
            entries: self.entries + more.entries,
        };
    }
}

impl fmt::Display for Agreed {
    fn fmt<W: fmt::Write>(&self, format: &mut fmt::Formatter<W>) -> fmt::Result {
        let Agreed {
            rows,
            words,
            bytes,
            entries,
        } = *self;
        write!(
            format,
            "words {words}, bytes {bytes}, entries {entries} of {rows} agree"
        )
    }
}

// One row, worked out each way, and printed where an answer disagrees.
fn counted(rt: &HostRuntime, row: &[u8]) -> io::Result<Agreed>
    ensures { IfOk result (λ a. a.rows ≡ 1) }
{
    let words = by_words(row) && promised::keeps(row);
    let bytes = by_bytes(row);
    let entries = by_entry(row);
    if !(words && bytes && entries) {
        print_disagreeing(&mut rt.stdout(), row)?;
    }
    Ok(Agreed {
        rows: 1,
        words: u64::from(words),
        bytes: u64::from(bytes),
        entries: u64::from(entries),
    })
}

// The next n rows, each of N bytes.
fn rows_of<const N: usize>(rt: &HostRuntime, n: u64) -> io::Result<Agreed>
    requires { N < 2 ^ 63 }
    ensures { IfOk result (λ a. a.rows ≡ n) }
{
    let mut all = Agreed::default();
    for _ in 0..n {
        let row = next::<N, _>(&mut rt.stdin())?;
        all += counted(rt, &row)?;
    }
    Ok(all)
}

// Reads a section, its name and its number of rows first, and prints what agrees. The rows are long
// ones, ones that name a bias, or ones of twelve values.
fn section(rt: &HostRuntime) -> io::Result<Agreed>
    ensures { IfOk result (λ a. a.rows < 65536) }
{
    let name = next::<44, _>(&mut rt.stdin())?;
    let count = next::<8, _>(&mut rt.stdin())?;
    let n = number(&count, 3, 4) % 65536;
    let agreed = match count[1] {
        b'l' => rows_of::<LONG>(rt, n)?,
        b'b' => rows_of::<BIASED>(rt, n)?,
        _ => rows_of::<ROW>(rt, n)?,
    };
    rt.stdout().write_all(&name)?;
    println!(rt; " {agreed}")?;
    Ok(agreed)
}

fn sections(rt: &HostRuntime, n: u64) -> io::Result<Agreed>
    requires { n < 256 }
{
    let mut all = Agreed::default();
    for _ in 0..n {
        all += section(rt)?;
    }
    Ok(all)
}

fn report(rt: &HostRuntime, name: &str, agreed: u64, n: u64) -> io::Result<()> {
    println!(rt; "{name:.<44} {agreed} of {n} agree")
}

// Reads rows of N bytes, their number first, and prints how many agree.
fn report_rows<const N: usize, F: Fn(&[u8]) -> bool>(
    rt: &HostRuntime,
    name: &str,
    agrees: F,
) -> io::Result<()>
    requires fits { N < 2 ^ 63 }
    requires callable { F.IsAlwaysCallable agrees }
{
    let head = next::<5, _>(&mut rt.stdin())?;
    let n = number(&head, 0, 4) % 65536;
    let agreed = agreeing::<N, F>(rt, n, agrees)?;
    report(rt, name, agreed, n)
}

fn main(rt: HostRuntime) -> io::Result<()> {
    let head = next::<3, _>(&mut rt.stdin())?;
    let all = sections(&rt, number(&head, 0, 2) % 256)?;
    println!(rt; "all of these ............................... {all}")?;
    report_rows::<PENCE, _>(&rt, "pence of one encoding ", single_pence::agrees)?;
    report_rows::<BIASED_PENCE, _>(
        &rt,
        "pence of one encoding, a bias named ",
        single_pence::agrees,
    )?;
    report_rows::<ROW, _>(&rt, "pence of lists ", lists::agrees)?;
    report_rows::<BIASED, _>(&rt, "pence of lists, a bias named ", lists::agrees)?;
    report(
        &rt,
        "pence of lists, a bias misnamed ",
        lists::misnamed(),
        8,
    )?;
    report_rows::<LONG, _>(&rt, "tables ", tables::agrees)?;
    report_rows::<BIASED_TABLE, _>(&rt, "tables, a bias named ", tables::agrees)?;
    report(&rt, "tables, a bias misnamed ", tables::misnamed(), 8)?;
    report_rows::<LONG, _>(&rt, "amounts known within a range ", ranges::agrees)?;
    report_rows::<SPAN, _>(&rt, "spans of pages ", career_pages::span_agrees)?;
    report_rows::<LONG_SPAN, _>(&rt, "spans of longer pages ", career_pages::span_agrees)?;
    report_rows::<WRITTEN, _>(&rt, "pages written ", career_pages::page_agrees)?;
    report_rows::<LONG_WRITTEN, _>(&rt, "longer pages written ", career_pages::page_agrees)?;
    report_rows::<{ tens::ROW }, _>(&rt, "values of ten bytes ", tens::agrees)?;
    report_rows::<{ sums_into::ROW }, _>(&rt, "one total, several formats ", sums_into::agrees)?;
    report_rows::<{ estimates::ROW }, _>(
        &rt,
        "totals within an allowance of passes ",
        estimates::agrees,
    )?;
    report_rows::<{ contributions::ROW }, _>(&rt, "contributions ", contributions::agrees)?;
    let wrong = control::told(&rt)?;
    println!(rt; "answers with one digit changed ............. {wrong} told as wrong")
}
