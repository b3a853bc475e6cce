// Career pages: when a span of one or the writing of one is refused.
ghost use Rattle.std.specs.Prelude.{◌≡◌, ◌≢◌, ◌%◌};
ghost use Rattle.pages_spec.specs.Conditions.{page_conditions};
ghost use Rattle.pages_spec.specs.Conditions.{page_entry_conditions};
ghost use Rattle.pages_spec.specs.Conditions.{write_conditions};
ghost use Rattle.pages_spec.specs.Pages as spec;
ghost use Rattle.totals_spec.specs.sums.Totals.{refused};
ghost use Rattle.format.specs.Settings.{settings_of};
ghost use Rattle.totals.specs.Asked.{answer_in};
ghost use Rattle.totals.specs.Entered.{Enters};
ghost use Rattle.promised_calls.specs.Refusals.{RefusesExactly, WritesNothing};

use format::settings::Settings;
use pages::entry::{enter_page_sum, enter_page_write};
use pages::span::page_sum;
use reduction::total::Answer;
use totals::refusal::Refusal;

/// The total of a span of a page, or its refusal, which has no place.
pub fn span_or_refusal(
    c: Settings,
    u: u64,
    page: &[u8],
    start: usize,
    end: usize,
) -> Result<Answer, Refusal>
    ensures is { answer_in result ≡ spec.page_answer (settings_of c) u page.now start end }
    ensures exactly { RefusesExactly (page_conditions
        (settings_of c) u page.now start end) (answer_in result).refusal }
    ensures nothing_else { (answer_in result).refusal ≢ 0 → answer_in result ≡ refused (answer_in
        result).refusal 0 }
{
    page_sum(c, u, page, start, end)
}

/// The exported total of a span, or its refusal: 2 before the others.
pub fn span_entry_or_refusal(
    c: Settings,
    u: u64,
    page: &[u8],
    start: usize,
    end: usize,
    answer: &mut [u8],
) -> u64
    ensures is { Enters (spec.page_entry
        (settings_of c) u page.now start end answer.old) result answer.new }
    ensures exactly { RefusesExactly
        (page_entry_conditions (settings_of c) u page.now start end answer.old) result }
    ensures nothing_written { WritesNothing result answer.old answer.new }
{
    enter_page_sum(c, u, page, start, end, answer)
}

/// The page of some values is written, or refused.
pub fn page_written_or_refusal(values: &[u64], page: &mut [u8]) -> u64
    ensures is { Enters (spec.page_written values.now page.old) result page.new }
    ensures exactly { RefusesExactly (write_conditions values.now page.old) (result % 256) }
    ensures nothing_written { WritesNothing (result % 256) page.old page.new }
{
    enter_page_write(values, page)
}
