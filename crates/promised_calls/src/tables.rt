// The totals of a table: when they are refused, and that the order of the cells does not matter to
// the total of all.
ghost use Rattle.std.specs.Prelude.{◌≡◌, ◌≢◌, ◌%◌};
ghost use Rattle.figures_spec.specs.tables.Conditions.{table_conditions};
ghost use Rattle.figures_spec.specs.tables.Conditions.{table_entry_conditions};
ghost use Rattle.totals_spec.specs.refusals.Places.{StrayAt};
ghost use Rattle.figures_spec.specs.tables.Table as spec;
ghost use Rattle.totals_spec.specs.entries.Words.{format_by};
ghost use Rattle.figures_spec.specs.tables.Entry.{table_entry};
ghost use Rattle.format.specs.Formats.{format_of};
ghost use Rattle.format.specs.Settings.{settings_of};
ghost use Rattle.totals.specs.Asked.{answer_in};
ghost use Rattle.figures.specs.Tables.{EntersTable};
ghost use Rattle.figures.specs.Tables.{Tables};
ghost use Rattle.promised_calls.specs.Order.{Rearranged, WithoutNan};
ghost use Rattle.promised_calls.specs.Refusals.{RefusesExactly, TellsNothingElse, PlacedAt};
ghost use Rattle.promised_calls.specs.Refusals.{WritesNothing};

use figures::entry::enter_table;
use figures::table::table;
use format::Format;
use format::settings::Settings;
use reduction::total::Answer;
use totals::entry::NamedFormat;
use totals::refusal::Refusal;

/// The totals of a table, or their refusal, which leaves both lists.
pub fn table_or_refusal(
    f: Format,
    c: Settings,
    rows: usize,
    columns: usize,
    cells: &[u64],
    row_totals: &mut [u64],
    column_totals: &mut [u64],
) -> Result<Answer, Refusal>
    ensures is { Tables
        (spec.table_answer (format_of f) (settings_of c) rows columns cells.now row_totals.old
        column_totals.old) (answer_in result) row_totals.new column_totals.new }
    ensures exactly { RefusesExactly
        (table_conditions (format_of f) (settings_of c) rows columns cells.now row_totals.old
        column_totals.old) (answer_in result).refusal }
    ensures nothing_else { TellsNothingElse (answer_in result) }
    ensures place { PlacedAt (StrayAt (format_of f) cells.now) (answer_in result).refusal
        (answer_in result).place }
    ensures rows_kept { WritesNothing (answer_in result).refusal row_totals.old row_totals.new }
    ensures columns_kept { WritesNothing (answer_in result).refusal column_totals.old
        column_totals.new }
{
    table(f, c, rows, columns, cells, row_totals, column_totals)
}

/// The exported totals of a table, or their refusal: 2 and a misnamed bias before the others.
pub fn table_entry_or_refusal(
    kind: u64,
    exponent_bits: u64,
    width: u64,
    bias_named: u64,
    bias: i64,
    c: Settings,
    rows: usize,
    columns: usize,
    cells: &[u64],
    row_totals: &mut [u64],
    column_totals: &mut [u64],
    answer: &mut [u8],
) -> u64
    ensures is { EntersTable
        (table_entry kind exponent_bits width bias_named bias (settings_of c) rows columns cells.now
        row_totals.old column_totals.old answer.old)
        result row_totals.new column_totals.new answer.new }
    ensures exactly { RefusesExactly
        (table_entry_conditions bias_named bias answer.old
        (table_conditions (format_by kind exponent_bits width bias_named bias) (settings_of c)
        rows columns cells.now row_totals.old column_totals.old)) (result % 256) }
    ensures rows_kept { WritesNothing result row_totals.old row_totals.new }
    ensures columns_kept { WritesNothing result column_totals.old column_totals.new }
    ensures answer_kept { WritesNothing result answer.old answer.new }
{
    enter_table(
        NamedFormat {
            kind,
            exponent_bits,
            width,
            bias_named,
            bias,
        },
        c,
        rows,
        columns,
        cells,
        row_totals,
        column_totals,
        answer,
    )
}

/// Two tables of the same cells, in another order or of another shape, that are both accepted and
/// have no NaN: the totals of all cells are one record.
pub fn totals_of_all_cells(
    f: Format,
    c: Settings,
    rows: usize,
    columns: usize,
    cells: &[u64],
    row_totals: &mut [u64],
    column_totals: &mut [u64],
    moved_rows: usize,
    moved_columns: usize,
    moved_cells: &[u64],
    moved_row_totals: &mut [u64],
    moved_column_totals: &mut [u64],
) -> (Result<Answer, Refusal>, Result<Answer, Refusal>)
    ensures first { Tables
        (spec.table_answer (format_of f) (settings_of c) rows columns cells.now row_totals.old
        column_totals.old) (answer_in result.0) row_totals.new column_totals.new }
    ensures second { Tables
        (spec.table_answer (format_of f) (settings_of c) moved_rows moved_columns moved_cells.now
        moved_row_totals.old moved_column_totals.old)
        (answer_in result.1) moved_row_totals.new moved_column_totals.new }
    ensures alike { Rearranged cells.now moved_cells.now → WithoutNan (format_of f) cells.now
        → (answer_in result.0).refusal ≡ 0 → (answer_in result.1).refusal ≡ 0 → result.0 ≡ result.1 }
{
    let first = table(f, c, rows, columns, cells, row_totals, column_totals);
    let second = table(
        f,
        c,
        moved_rows,
        moved_columns,
        moved_cells,
        moved_row_totals,
        moved_column_totals,
    );
    (first, second)
}
