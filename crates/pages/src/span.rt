// The total of a span of a career page: of the values from one index up to another, itself left
// out.
ghost use Rattle.std.specs.Prelude.{◌≡◌, IfOk, IfErr};
ghost use Rattle.pages_spec.specs.Pages as spec;
ghost use Rattle.format.specs.Settings.{settings_of};
ghost use Rattle.totals.specs.Asked.{answer_in};
ghost use Rattle.pages.specs.Spans.{SpanIn, RefusesSpan};

use crate::open;
use format::settings::Settings;
use reduction::total::Answer;
use totals::entry::VALUE_BYTES;
use totals::formats::binary64;
use totals::refusal::Refusal;
use totals::sum_bytes;

// The bytes of a span's values, which are a part of the page.
pub(crate) fn span(page: &[u8], start: usize, end: usize) -> Result<&[u8], Refusal>
    ensures spanned { IfOk result (λ bytes. SpanIn page.now start end bytes.now) }
    ensures refused { IfErr result (RefusesSpan page.now start end) }
{
    let Some(count) = open(page) else {
        return Err(Refusal::NotAPage);
    };
    if end < start || count < end {
        return Err(Refusal::BadSpan);
    }
    Ok(&page[VALUE_BYTES * start..VALUE_BYTES * end])
}

/// The sum of the values of a page from the index `start` up to `end`, itself left out: of the
/// values (summand 0), of their magnitudes (1) or of their squares (2). The span's bytes are summed
/// where they lie. Refused with 12, 13 or 4 (the specification, "Career pages").
pub fn page_sum(
    settings: Settings,
    summand: u64,
    page: &[u8],
    start: usize,
    end: usize,
) -> Result<Answer, Refusal>
    ensures { answer_in result
        ≡ spec.page_answer (settings_of settings) summand page.now start end }
{
    match span(page, start, end) {
        Ok(bytes) => sum_bytes(binary64(), settings, summand, bytes),
        Err(refusal) => Err(refusal),
    }
}
