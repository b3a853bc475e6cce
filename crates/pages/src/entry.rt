// The entries of career pages, over records. `totals_c` exports them over numbers, for callers in
// other languages.
ghost use Rattle.std.specs.Prelude.{◌≡◌};
ghost use Rattle.pages_spec.specs.Pages as pages;
ghost use Rattle.format.specs.Settings.{settings_of};
ghost use Rattle.totals.specs.Entered.{Enters};

use crate::span::span;
use crate::{PageError, write};
use format::settings::Settings;
use totals::entry::{ANSWER_BYTES, enter_sum};
use totals::formats::binary64;
use totals::refusal::Refusal;

/// The entry of the total of a span of a career page: an accepted total is written into the
/// answer's first 24 bytes. Returns 0, or the refusal, and then nothing is written (the
/// specification, "Career pages").
//
// By `enter_sum` and not by `page_sum`: a second caller of `sum_bytes` in the archive would keep it
// from being inlined.
pub fn enter_page_sum(
    settings: Settings,
    summand: u64,
    page: &[u8],
    start: usize,
    end: usize,
    answer: &mut [u8],
) -> u64
    ensures { Enters
        (pages.page_entry (settings_of settings) summand page.now start end answer.old)
        result answer.new }
{
    if answer.len() < ANSWER_BYTES {
        return Refusal::ShortBuffer.number();
    }
    match span(page, start, end) {
        Ok(bytes) => enter_sum(binary64(), settings, summand, bytes, answer),
        Err(refusal) => refusal.number(),
    }
}

// What an entry returns of a length: it stands above the refusal's number.
const LENGTH_UNIT: u64 = 256;

/// The entry of the career page of some values. Returns 256 times the page's length, or the
/// refusal, 2 or 6, and then nothing is written (the specification, "Career pages").
pub fn enter_page_write(values: &[u64], page: &mut [u8]) -> u64
    ensures { Enters (pages.page_written values.now page.old) result page.new }
{
    match write(values, page) {
        Ok(length) => LENGTH_UNIT * length as u64,
        Err(PageError::NoRoom) => Refusal::ShortBuffer.number(),
        Err(PageError::TooMany) => Refusal::TooManyElements.number(),
    }
}
