// The pence of an encoding and of a list: when they are refused, and that the order does not
// matter.
ghost use Rattle.std.specs.Prelude.{◌≡◌, ◌≢◌, [], ◌∷◌, ◌%◌, pos};
ghost use Rattle.totals_spec.specs.pence.Conditions.{pence_conditions};
ghost use Rattle.totals_spec.specs.pence.Conditions.{pence_entry_conditions};
ghost use Rattle.totals_spec.specs.pence.Conditions.{sum_pence_conditions};
ghost use Rattle.totals_spec.specs.pence.Pence as spec;
ghost use Rattle.totals_spec.specs.refusals.Places.{StrayAt};
ghost use Rattle.totals_spec.specs.entries.Words.{format_by};
ghost use Rattle.totals_spec.specs.pence.Entry.{pence_entry};
ghost use Rattle.format.specs.Formats.{format_of};
ghost use Rattle.totals.specs.Entered.{EntersFigure};
ghost use Rattle.totals.specs.PenceRecord.{figure_in};
ghost use Rattle.promised_calls.specs.Lent.{pence_call};
ghost use Rattle.promised_calls.specs.Order.{Rearranged};
ghost use Rattle.promised_calls.specs.Refusals.{RefusesExactly, PlacedAt, WritesNothing};

use crate::told::told_bias;
use format::Format;
use totals::entry;
use totals::entry::NamedFormat;
use totals::pence::{pence_of, pence_of_sum};
use totals::refusal::Refusal;

/// The pence of the exact sum of a list, or their refusal, with a figure of 0.
pub fn pence_or_refusal(f: Format, values: &[u64]) -> Result<i64, Refusal>
    ensures is { figure_in result ≡ spec.sum_pence (format_of f) values.now }
    ensures exactly { RefusesExactly (sum_pence_conditions
        (format_of f) values.now) (figure_in result).refusal }
    ensures nothing_else { (figure_in result).refusal ≢ 0 → (figure_in result).figure ≡ pos 0 }
    ensures place { PlacedAt (StrayAt (format_of f) values.now) (figure_in result).refusal
        (figure_in result).place }
{
    pence_of_sum(f, values)
}

/// The pence of one encoding, or their refusal.
pub fn one_pence_or_refusal(f: Format, b: u64) -> Result<i64, Refusal>
    ensures is { figure_in result ≡ spec.pence_answer (format_of f) b }
    ensures exactly { RefusesExactly (pence_conditions (format_of f) b) (figure_in
        result).refusal }
    ensures nothing_else { (figure_in result).refusal ≢ 0 → (figure_in result).figure ≡ pos 0 }
    ensures place { PlacedAt (StrayAt (format_of f) (b ∷ [])) (figure_in result).refusal (figure_in
        result).place }
{
    pence_of(f, b)
}

/// The exported pence of a list, or their refusal: a bias that is misnamed comes first.
pub fn pence_entry_or_refusal(
    kind: u64,
    exponent_bits: u64,
    width: u64,
    bias_named: u64,
    bias: i64,
    values: &[u64],
    figure: &mut i64,
) -> u64
    ensures is { EntersFigure (pence_entry kind exponent_bits width bias_named bias values.now
        figure.old)
        result figure.new }
    ensures exactly { RefusesExactly
        (pence_entry_conditions bias_named bias
        (format_by kind exponent_bits width bias_named bias) values.now) (result % 256) }
    ensures nothing_written { WritesNothing result figure.old figure.new }
{
    entry::enter_pence(
        NamedFormat {
            kind,
            exponent_bits,
            width,
            bias_named,
            bias,
        },
        values,
        figure,
    )
}

/// The pence of a list and of a rearrangement of it are one record; only the place of a stray bit
/// can be another.
pub fn pence_of_both(
    f: Format,
    one: &[u64],
    other: &[u64],
) -> (Result<i64, Refusal>, Result<i64, Refusal>)
    ensures first { figure_in result.0 ≡ spec.sum_pence (format_of f) one.now }
    ensures second { figure_in result.1 ≡ spec.sum_pence (format_of f) other.now }
    ensures alike { Rearranged one.now other.now → (figure_in result.0).refusal ≢ 7 → figure_in
        result.0 ≡ figure_in result.1 }
{
    let first = pence_of_sum(f, one);
    let second = pence_of_sum(f, other);
    (first, second)
}

/// The exported pence of a list, by the entry's numbers of a format.
pub fn enter_pence(format: Format, values: &[u64], figure: &mut i64) -> u64
    ensures { EntersFigure (pence_call (format_of format) values.now figure.old)
        result figure.new }
{
    let (bias_named, bias) = told_bias(format);
    pence_entry_or_refusal(
        format.kind,
        format.exponent_bits,
        format.width,
        bias_named,
        bias,
        values,
        figure,
    )
}

/// The exported pence of a list and of a rearrangement of it, with a place for each figure: one
/// number is returned, and one figure written; only the place of a stray bit can be another.
pub fn pence_entered(
    format: Format,
    one: &[u64],
    other: &[u64],
    figure: &mut i64,
    again: &mut i64,
) -> (u64, u64)
    ensures first { EntersFigure (pence_call (format_of format) one.now figure.old)
        result.0 figure.new }
    ensures second { EntersFigure (pence_call (format_of format) other.now again.old)
        result.1 again.new }
    ensures alike { Rearranged one.now other.now → result.0 % 256 ≢ 7
        → (result.1 ≡ result.0) × (result.0 ≡ 0 → again.new ≡ figure.new) }
    ensures rest { WritesNothing result.0 figure.old figure.new
        × WritesNothing result.1 again.old again.new }
{
    let first = enter_pence(format, one, figure);
    let second = enter_pence(format, other, again);
    (first, second)
}
