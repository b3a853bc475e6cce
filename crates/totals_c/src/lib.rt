//! The exported functions, as C calls them: each builds the records that its numbers stand for, and
//! calls the entry over them.
#![tactic(auto)]

ghost use Rattle.std.specs.Prelude.{◌≡◌};
ghost use Rattle.totals_spec.specs.ten_bytes.Extended as ten;
ghost use Rattle.pages_spec.specs.Pages as pages;
ghost use Rattle.targets_spec.specs.contribution.Contribution as contribution;
ghost use Rattle.targets_spec.specs.within.Estimate as estimate;
ghost use Rattle.targets_spec.specs.several.Several as several;
ghost use Rattle.totals_spec.specs.pence.Entry.{pence_entry};
ghost use Rattle.figures_spec.specs.ranges.Entry.{range_entry};
ghost use Rattle.figures_spec.specs.tables.Entry.{table_entry};
ghost use Rattle.format.specs.Kinds.{bias_in};
ghost use Rattle.format.specs.Formats.{format_of};
ghost use Rattle.format.specs.Settings.{settings_of};
ghost use Rattle.totals.specs.Entered.{Enters, EntersFigure};
ghost use Rattle.totals.specs.Entered.{format_with, format_from, biased_from, settings_from};
ghost use Rattle.figures.specs.Ranges.{EntersRange};
ghost use Rattle.figures.specs.Tables.{EntersTable};

use figures::entry::{enter_range, enter_table};
use format::Format;
use format::settings::Settings;
use pages::entry::{enter_page_sum, enter_page_write};
use targets::entry::enter_sum_into;
use targets::entry_contribution::enter_contribution;
use targets::entry_within::{enter_dot_within, enter_sum_within};
use totals::entry::{NamedFormat, enter_dot, enter_pence, enter_sum};

// A format from an entry's numbers, and the bias where it names one.
#[inline(always)]
fn format(kind: u64, exponent_bits: u64, width: u64, named: Option<i64>) -> Format
    ensures { format_of result ≡ format_with kind exponent_bits width named }
{
    Format {
        kind,
        exponent_bits,
        width,
        named,
    }
}

// Settings from an entry's numbers, in its order.
#[inline(always)]
fn settings(
    rounding: u64,
    tininess: u64,
    nan_propagation: u64,
    default_nan_negative: u64,
    flush_to_zero: u64,
    denormals_are_zero: u64,
    saturate: u64,
    precision: u64,
) -> Settings
    ensures { settings_of result
        ≡ settings_from rounding tininess nan_propagation default_nan_negative flush_to_zero
        denormals_are_zero saturate precision }
{
    Settings {
        rounding,
        tininess,
        nan_propagation,
        default_nan_negative,
        flush_to_zero,
        denormals_are_zero,
        saturate,
        precision,
    }
}

/// The sum of the values (summand 0), of their magnitudes (1) or of their squares (2), as bytes.
/// Kind 4 is told apart before anything else is looked at (the specification, "Byte entries").
#[unsafe(no_mangle)]
pub extern "C" fn totals_sum(
    kind: u64,
    exponent_bits: u64,
    width: u64,
    rounding: u64,
    tininess: u64,
    nan_propagation: u64,
    default_nan_negative: u64,
    flush_to_zero: u64,
    denormals_are_zero: u64,
    saturate: u64,
    precision: u64,
    summand: u64,
    values: &[u8],
    answer: &mut [u8],
) -> u64
    ensures { Enters
        (ten.sum_call (format_from kind exponent_bits width)
        (settings_from rounding tininess nan_propagation default_nan_negative flush_to_zero
        denormals_are_zero saturate precision)
        summand values.now answer.old) result answer.new }
{
    let settings = settings(
        rounding,
        tininess,
        nan_propagation,
        default_nan_negative,
        flush_to_zero,
        denormals_are_zero,
        saturate,
        precision,
    );
    let format = format(kind, exponent_bits, width, None);
    enter_sum(format, settings, summand, values, answer)
}

/// The sum of the products of the pairs: all else is as in `totals_sum`.
#[unsafe(no_mangle)]
pub extern "C" fn totals_dot(
    kind: u64,
    exponent_bits: u64,
    width: u64,
    rounding: u64,
    tininess: u64,
    nan_propagation: u64,
    default_nan_negative: u64,
    flush_to_zero: u64,
    denormals_are_zero: u64,
    saturate: u64,
    precision: u64,
    left: &[u8],
    right: &[u8],
    answer: &mut [u8],
) -> u64
    ensures { Enters
        (ten.dot_call (format_from kind exponent_bits width)
        (settings_from rounding tininess nan_propagation default_nan_negative flush_to_zero
        denormals_are_zero saturate precision)
        left.now right.now answer.old) result answer.new }
{
    let settings = settings(
        rounding,
        tininess,
        nan_propagation,
        default_nan_negative,
        flush_to_zero,
        denormals_are_zero,
        saturate,
        precision,
    );
    let format = format(kind, exponent_bits, width, None);
    enter_dot(format, settings, left, right, answer)
}

/// `totals_sum` in a format that names its bias.
#[unsafe(no_mangle)]
pub extern "C" fn totals_sum_biased(
    kind: u64,
    exponent_bits: u64,
    width: u64,
    bias: i64,
    rounding: u64,
    tininess: u64,
    nan_propagation: u64,
    default_nan_negative: u64,
    flush_to_zero: u64,
    denormals_are_zero: u64,
    saturate: u64,
    precision: u64,
    summand: u64,
    values: &[u8],
    answer: &mut [u8],
) -> u64
    ensures { Enters
        (ten.sum_call (biased_from kind exponent_bits width bias)
        (settings_from rounding tininess nan_propagation default_nan_negative flush_to_zero
        denormals_are_zero saturate precision)
        summand values.now answer.old) result answer.new }
{
    let settings = settings(
        rounding,
        tininess,
        nan_propagation,
        default_nan_negative,
        flush_to_zero,
        denormals_are_zero,
        saturate,
        precision,
    );
    let format = format(kind, exponent_bits, width, Some(bias));
    enter_sum(format, settings, summand, values, answer)
}

/// `totals_dot` in a format that names its bias.
#[unsafe(no_mangle)]
pub extern "C" fn totals_dot_biased(
    kind: u64,
    exponent_bits: u64,
    width: u64,
    bias: i64,
    rounding: u64,
    tininess: u64,
    nan_propagation: u64,
    default_nan_negative: u64,
    flush_to_zero: u64,
    denormals_are_zero: u64,
    saturate: u64,
    precision: u64,
    left: &[u8],
    right: &[u8],
    answer: &mut [u8],
) -> u64
    ensures { Enters
        (ten.dot_call (biased_from kind exponent_bits width bias)
        (settings_from rounding tininess nan_propagation default_nan_negative flush_to_zero
        denormals_are_zero saturate precision)
        left.now right.now answer.old) result answer.new }
{
    let settings = settings(
        rounding,
        tininess,
        nan_propagation,
        default_nan_negative,
        flush_to_zero,
        denormals_are_zero,
        saturate,
        precision,
    );
    let format = format(kind, exponent_bits, width, Some(bias));
    enter_dot(format, settings, left, right, answer)
}

/// The pence of the exact sum of a list of words (the specification, "Pence").
#[unsafe(no_mangle)]
pub extern "C" fn totals_pence(
    kind: u64,
    exponent_bits: u64,
    width: u64,
    bias_named: u64,
    bias: i64,
    values: &[u64],
    figure: &mut i64,
) -> u64
    ensures { EntersFigure
        (pence_entry kind exponent_bits width bias_named bias values.now figure.old) result
        figure.new }
{
    let format = NamedFormat {
        kind,
        exponent_bits,
        width,
        bias_named,
        bias,
    };
    enter_pence(format, values, figure)
}

/// The totals of a table of words: the answer's 24 bytes are those of the total of all cells (the
/// specification, "Tables").
#[unsafe(no_mangle)]
pub extern "C" fn totals_table(
    kind: u64,
    exponent_bits: u64,
    width: u64,
    bias_named: u64,
    bias: i64,
    rounding: u64,
    tininess: u64,
    nan_propagation: u64,
    default_nan_negative: u64,
    flush_to_zero: u64,
    denormals_are_zero: u64,
    saturate: u64,
    precision: u64,
    rows: usize,
    columns: usize,
    cells: &[u64],
    row_totals: &mut [u64],
    column_totals: &mut [u64],
    answer: &mut [u8],
) -> u64
    ensures { EntersTable
        (table_entry kind exponent_bits width bias_named bias
        (settings_from rounding tininess nan_propagation default_nan_negative flush_to_zero
        denormals_are_zero saturate precision)
        rows columns cells.now row_totals.old column_totals.old answer.old)
        result row_totals.new column_totals.new answer.new }
{
    let format = NamedFormat {
        kind,
        exponent_bits,
        width,
        bias_named,
        bias,
    };
    let settings = settings(
        rounding,
        tininess,
        nan_propagation,
        default_nan_negative,
        flush_to_zero,
        denormals_are_zero,
        saturate,
        precision,
    );
    enter_table(
        format,
        settings,
        rows,
        columns,
        cells,
        row_totals,
        column_totals,
        answer,
    )
}

/// The lower and the upper total of amounts known within a range, as two words. Each entry's low
/// and high are left in the place of its figures (the specification, "Ranges").
#[unsafe(no_mangle)]
pub extern "C" fn totals_range(
    tags: &[u64],
    first: &mut [u64],
    second: &mut [u64],
    ceiling: u64,
    pair: &mut [u64],
) -> u64
    ensures { EntersRange (range_entry tags.now first.old second.old ceiling pair.old) result
        first.new second.new pair.new }
{
    enter_range(tags, first, second, ceiling, pair)
}

/// The plain sum of a list in three targets: each has 32 bytes of the answer (the specification,
/// "Targets").
#[unsafe(no_mangle)]
pub extern "C" fn totals_sum_into(
    kind: u64,
    exponent_bits: u64,
    width: u64,
    bias_named: u64,
    bias: i64,
    denormals_are_zero: u64,
    targets: &[u8],
    values: &[u8],
    answer: &mut [u8],
) -> u64
    ensures { Enters
        (several.target_entry kind exponent_bits width bias_named bias denormals_are_zero
        targets.now values.now answer.old) result answer.new }
{
    let format = NamedFormat {
        kind,
        exponent_bits,
        width,
        bias_named,
        bias,
    };
    enter_sum_into(format, denormals_are_zero, targets, values, answer)
}

/// The total of a span of a career page (the specification, "Career pages").
#[unsafe(no_mangle)]
pub extern "C" fn totals_page_sum(
    page: &[u8],
    start: usize,
    end: usize,
    rounding: u64,
    tininess: u64,
    nan_propagation: u64,
    default_nan_negative: u64,
    flush_to_zero: u64,
    denormals_are_zero: u64,
    saturate: u64,
    precision: u64,
    summand: u64,
    answer: &mut [u8],
) -> u64
    ensures { Enters
        (pages.page_entry
        (settings_from rounding tininess nan_propagation default_nan_negative flush_to_zero
        denormals_are_zero saturate precision)
        summand page.now start end answer.old) result answer.new }
{
    let settings = settings(
        rounding,
        tininess,
        nan_propagation,
        default_nan_negative,
        flush_to_zero,
        denormals_are_zero,
        saturate,
        precision,
    );
    enter_page_sum(settings, summand, page, start, end, answer)
}

/// The career page of some values (the specification, "Career pages").
#[unsafe(no_mangle)]
pub extern "C" fn totals_page_write(values: &[u64], page: &mut [u8]) -> u64
    ensures { Enters (pages.page_written values.now page.old) result page.new }
{
    enter_page_write(values, page)
}

/// The sum of the values (summand 0), of their magnitudes (1) or of their squares (2), within an
/// allowance of passes (the specification, "Within an allowance").
#[unsafe(no_mangle)]
pub extern "C" fn totals_sum_within(
    kind: u64,
    exponent_bits: u64,
    width: u64,
    bias_named: u64,
    bias: i64,
    rounding: u64,
    tininess: u64,
    nan_propagation: u64,
    default_nan_negative: u64,
    flush_to_zero: u64,
    denormals_are_zero: u64,
    saturate: u64,
    precision: u64,
    summand: u64,
    allowance: u64,
    values: &[u8],
    answer: &mut [u8],
) -> u64
    ensures { Enters
        (estimate.sum_within_entry kind exponent_bits width bias_named bias
        (settings_from rounding tininess nan_propagation default_nan_negative flush_to_zero
        denormals_are_zero saturate precision)
        summand allowance values.now answer.old) result answer.new }
{
    let format = NamedFormat {
        kind,
        exponent_bits,
        width,
        bias_named,
        bias,
    };
    let settings = settings(
        rounding,
        tininess,
        nan_propagation,
        default_nan_negative,
        flush_to_zero,
        denormals_are_zero,
        saturate,
        precision,
    );
    enter_sum_within(format, settings, summand, allowance, values, answer)
}

/// The sum of the products of the pairs, likewise.
#[unsafe(no_mangle)]
pub extern "C" fn totals_dot_within(
    kind: u64,
    exponent_bits: u64,
    width: u64,
    bias_named: u64,
    bias: i64,
    rounding: u64,
    tininess: u64,
    nan_propagation: u64,
    default_nan_negative: u64,
    flush_to_zero: u64,
    denormals_are_zero: u64,
    saturate: u64,
    precision: u64,
    allowance: u64,
    left: &[u8],
    right: &[u8],
    answer: &mut [u8],
) -> u64
    ensures { Enters
        (estimate.dot_within_entry kind exponent_bits width bias_named bias
        (settings_from rounding tininess nan_propagation default_nan_negative flush_to_zero
        denormals_are_zero saturate precision)
        allowance left.now right.now answer.old) result answer.new }
{
    let format = NamedFormat {
        kind,
        exponent_bits,
        width,
        bias_named,
        bias,
    };
    let settings = settings(
        rounding,
        tininess,
        nan_propagation,
        default_nan_negative,
        flush_to_zero,
        denormals_are_zero,
        saturate,
        precision,
    );
    enter_dot_within(format, settings, allowance, left, right, answer)
}

/// The least number with which, behind the values, the plain sum is the wanted total (the
/// specification, "Contributions").
#[unsafe(no_mangle)]
pub extern "C" fn totals_contribution(
    kind: u64,
    exponent_bits: u64,
    width: u64,
    bias_named: u64,
    bias: i64,
    rounding: u64,
    tininess: u64,
    nan_propagation: u64,
    default_nan_negative: u64,
    flush_to_zero: u64,
    denormals_are_zero: u64,
    saturate: u64,
    precision: u64,
    wanted: u64,
    values: &[u64],
    answer: &mut [u8],
) -> u64
    ensures { Enters
        (contribution.contribution_entry kind exponent_bits width bias_named bias
        (settings_from rounding tininess nan_propagation default_nan_negative flush_to_zero
        denormals_are_zero saturate precision)
        wanted values.now answer.old) result answer.new }
{
    let format = NamedFormat {
        kind,
        exponent_bits,
        width,
        bias_named,
        bias,
    };
    let settings = settings(
        rounding,
        tininess,
        nan_propagation,
        default_nan_negative,
        flush_to_zero,
        denormals_are_zero,
        saturate,
        precision,
    );
    enter_contribution(format, settings, wanted, values, answer)
}
