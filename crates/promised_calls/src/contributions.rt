// The contribution that reaches a wanted total: when it is refused, and that the order of the list
// does not matter.
ghost use Rattle.std.specs.Prelude.{◌≡◌, ◌≢◌, ◌≤◌, [], ◌∷◌, ◌++◌, ◌%◌, length};
ghost use Rattle.totals_spec.specs.refusals.Places.{StrayAt};
ghost use Rattle.totals_spec.specs.entries.Words.{format_by};
ghost use Rattle.targets_spec.specs.contribution.Conditions.{contribution_conditions};
ghost use Rattle.targets_spec.specs.contribution.Conditions.{contribution_entry_conditions};
ghost use Rattle.targets_spec.specs.contribution.Contribution as spec;
ghost use Rattle.format.specs.Formats.{format_of};
ghost use Rattle.format.specs.Settings.{settings_of};
ghost use Rattle.targets.specs.Contributions.{number_in};
ghost use Rattle.totals.specs.Entered.{Enters};
ghost use Rattle.promised_calls.specs.Lent.{contribution_call, contribution_size};
ghost use Rattle.promised_calls.specs.Lent.{SameFirst, KeepsBehind};
ghost use Rattle.promised_calls.specs.Order.{Rearranged};
ghost use Rattle.promised_calls.specs.Refusals.{RefusesExactly, PlacedAt, WritesNothing};

use crate::told::told_bias;
use format::Format;
use format::settings::Settings;
use targets::contribution::contribution_to;
use targets::entry_contribution;
use totals::entry::NamedFormat;
use totals::refusal::Refusal;

/// The contribution that reaches a wanted total, or its refusal. The wanted total stands behind the
/// list, where a stray bit has its place.
pub fn contribution_or_refusal(
    f: Format,
    c: Settings,
    values: &[u64],
    wanted: u64,
) -> Result<u64, Refusal>
    ensures is { number_in result ≡ spec.contribution (format_of f)
        (settings_of c) values.now wanted }
    ensures exactly { RefusesExactly (contribution_conditions (format_of f)
        (settings_of c) values.now wanted)
        (number_in result).refusal }
    ensures nothing_else { (number_in result).refusal ≢ 0 → (number_in result).number ≡ 0 }
    ensures place { PlacedAt (StrayAt (format_of f) (values.now ++
        (wanted ∷ []))) (number_in result).refusal (number_in result).place }
{
    contribution_to(f, c, values, wanted)
}

/// The exported contribution, or its refusal: 2 and a misnamed bias before the others.
pub fn contribution_entry_or_refusal(
    kind: u64,
    exponent_bits: u64,
    width: u64,
    bias_named: u64,
    bias: i64,
    c: Settings,
    wanted: u64,
    values: &[u64],
    answer: &mut [u8],
) -> u64
    ensures is { Enters
        (spec.contribution_entry kind exponent_bits width bias_named bias (settings_of c) wanted
        values.now answer.old) result answer.new }
    ensures exactly { RefusesExactly
        (contribution_entry_conditions bias_named bias answer.old
        (contribution_conditions (format_by kind exponent_bits width bias_named bias)
        (settings_of c) values.now wanted)) (result % 256) }
    ensures nothing_written { WritesNothing result answer.old answer.new }
{
    entry_contribution::enter_contribution(
        NamedFormat {
            kind,
            exponent_bits,
            width,
            bias_named,
            bias,
        },
        c,
        wanted,
        values,
        answer,
    )
}

/// The contributions to a list and to a rearrangement of it are one record; only the place of a
/// stray bit can be another.
pub fn contributions_to_both(
    f: Format,
    c: Settings,
    one: &[u64],
    other: &[u64],
    wanted: u64,
) -> (Result<u64, Refusal>, Result<u64, Refusal>)
    ensures first { number_in result.0
        ≡ spec.contribution (format_of f) (settings_of c) one.now wanted }
    ensures second { number_in result.1
        ≡ spec.contribution (format_of f) (settings_of c) other.now wanted }
    ensures alike { Rearranged one.now other.now
        → ((number_in result.0).refusal ≡ (number_in result.1).refusal) × ((number_in
        result.0).refusal ≢ 7 → number_in result.0 ≡ number_in result.1) }
{
    let first = contribution_to(f, c, one, wanted);
    let second = contribution_to(f, c, other, wanted);
    (first, second)
}

/// The exported contribution, by the entry's numbers of a format.
pub fn enter_contribution(
    format: Format,
    settings: Settings,
    wanted: u64,
    values: &[u64],
    answer: &mut [u8],
) -> u64
    ensures { Enters
        (contribution_call (format_of format) (settings_of settings) wanted values.now answer.old)
        result answer.new }
{
    let (bias_named, bias) = told_bias(format);
    contribution_entry_or_refusal(
        format.kind,
        format.exponent_bits,
        format.width,
        bias_named,
        bias,
        settings,
        wanted,
        values,
        answer,
    )
}

/// The exported contributions to a list and to a rearrangement of it, with a buffer each that has
/// room: one number is returned, and the same bytes are written; only the place of a stray bit can
/// be another. The bytes behind them are each buffer's own.
pub fn contributions_entered(
    format: Format,
    settings: Settings,
    wanted: u64,
    one: &[u64],
    other: &[u64],
    answer: &mut [u8],
    again: &mut [u8],
) -> (u64, u64)
    ensures first { Enters
        (contribution_call (format_of format) (settings_of settings) wanted one.now answer.old)
        result.0 answer.new }
    ensures second { Enters
        (contribution_call (format_of format) (settings_of settings) wanted other.now again.old)
        result.1 again.new }
    ensures alike { Rearranged one.now other.now
        → contribution_size ≤ length answer.old → contribution_size ≤ length again.old
        → result.0 % 256 ≢ 7
        → (result.1 ≡ result.0)
        × (result.0 ≡ 0 → SameFirst contribution_size answer.new again.new) }
    ensures rest { KeepsBehind contribution_size answer.old answer.new
        × KeepsBehind contribution_size again.old again.new }
{
    let first = enter_contribution(format, settings, wanted, one, answer);
    let second = enter_contribution(format, settings, wanted, other, again);
    (first, second)
}
