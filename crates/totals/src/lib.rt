//! Exact totals of lists of binary floating-point numbers, rounded once. Every call answers: what
//! cannot be totalled is refused, with a number.
#![tactic(auto)]

pub mod entry;
mod extended;
pub mod formats;
pub mod lists;
pub mod pence;
pub mod refusal;
pub mod stray;

ghost use Rattle.std.specs.Prelude.{◌≡◌};
ghost use Rattle.totals_spec.specs.sums.Totals as spec;
ghost use Rattle.totals_spec.specs.entries.Bytes.{values_in};
ghost use Rattle.format.specs.Formats.{format_of};
ghost use Rattle.format.specs.Settings.{settings_of};
ghost use Rattle.totals.specs.Asked.{answer_in};

use crate::refusal::{Refusal, dot_refusal, sum_refusal};
use format::Format;
use format::settings::Settings;
use reduction::total::Answer;
use values::elements::{Bytes, Elements, Words};

// The sum of a list, wherever its elements stand.
fn sum_of<E: Elements>(
    format: Format,
    settings: Settings,
    summand: u64,
    elements: E,
) -> Result<Answer, Refusal>
    ensures { answer_in result
        ≡ spec.sum_answer (format_of format) (settings_of settings) summand (E.list elements) }
{
    let (asked, summand) = sum_refusal(format, settings, summand, elements.count())?;
    lists::sum(asked.layout, asked.env, summand, elements)
}

// The sum of the products of the pairs of two lists.
fn dot_of<E: Elements>(
    format: Format,
    settings: Settings,
    left: E,
    right: E,
) -> Result<Answer, Refusal>
    ensures { answer_in result
        ≡ spec.dot_answer (format_of format) (settings_of settings) (E.list left) (E.list right) }
{
    let asked = dot_refusal(format, settings, left.count(), right.count())?;
    lists::dot(asked.layout, asked.env, left, right)
}

/// The sum of the values (summand 0), of their magnitudes (1) or of their squares (2): the exact
/// sum, rounded once. Values are encodings, one to a word. Refused with 3, 4, 6 or 7 (the
/// specification, "Totals").
pub fn sum(
    format: Format,
    settings: Settings,
    summand: u64,
    values: &[u64],
) -> Result<Answer, Refusal>
    ensures { answer_in result
        ≡ spec.sum_answer (format_of format) (settings_of settings) summand values.now }
{
    sum_of(format, settings, summand, Words { values })
}

/// The sum of the products of the pairs, exact and rounded once. Refused with 3 to 7 (the
/// specification, "Totals").
pub fn dot(
    format: Format,
    settings: Settings,
    left: &[u64],
    right: &[u64],
) -> Result<Answer, Refusal>
    ensures { answer_in result
        ≡ spec.dot_answer (format_of format) (settings_of settings) left.now right.now }
{
    dot_of(
        format,
        settings,
        Words { values: left },
        Words { values: right },
    )
}

/// `sum` over bytes, eight to a value, little end first. Bytes past the last whole value are not
/// looked at.
pub fn sum_bytes(
    format: Format,
    settings: Settings,
    summand: u64,
    values: &[u8],
) -> Result<Answer, Refusal>
    ensures { answer_in result
        ≡ spec.sum_answer (format_of format) (settings_of settings) summand
        (values_in values.now) }
{
    sum_of(format, settings, summand, Bytes { values })
}

/// `dot` over bytes, likewise.
pub fn dot_bytes(
    format: Format,
    settings: Settings,
    left: &[u8],
    right: &[u8],
) -> Result<Answer, Refusal>
    ensures { answer_in result
        ≡ spec.dot_answer (format_of format) (settings_of settings) (values_in left.now)
        (values_in right.now) }
{
    dot_of(
        format,
        settings,
        Bytes { values: left },
        Bytes { values: right },
    )
}
