// The totals of a table: of each row, of each column, and of all cells, which stand row after row
// in one list.
ghost use Rattle.std.specs.Prelude.{◌≡◌, not, map, ◌*◌, ◌≤◌, eqb, length};
ghost use Rattle.figures_spec.specs.tables.Table as spec;
ghost use Rattle.totals_spec.specs.entries.Words.{filled};
ghost use Rattle.format.specs.Layouts.{layout_of};
ghost use Rattle.format.specs.Environments.{env_of};
ghost use Rattle.format.specs.Formats.{format_of};
ghost use Rattle.format.specs.Settings.{settings_of};
ghost use Rattle.totals.specs.Refusal.{sum_numbers};
ghost use Rattle.totals.specs.Asked.{answer_in};
ghost use Rattle.figures.specs.Tables.{Tables};

use binary::summand::Summand;
use format::Format;
use format::env::Env;
use format::layout::Layout;
use format::settings::Settings;
use reduction::total::Answer;
use totals::lists::sum;
use totals::refusal::{Refusal, refuse_if, result_of, sum_refusal};
use values::elements::{Column, Words};

// Whether rows times columns, as whole numbers, is another number than that of the cells.
fn misshapen(rows: usize, columns: usize, cells: usize) -> bool
    ensures { result ≡ not (eqb (rows * columns) cells) }
{
    rows.checked_mul(columns) != Some(cells)
}

// Each row is a part of the cells.
fn fill_rows(
    layout: Layout,
    env: Env,
    rows: usize,
    columns: usize,
    cells: &[u64],
    totals: &mut [u64],
)
    requires { (rows * columns ≡ length cells.now) × (rows ≤ length totals.old)
        × (sum_numbers (layout_of layout) (env_of env) 0 (length cells.now) ≡ 0) }
    ensures { totals.new
        ≡ filled (map (spec.plain_total (layout_of layout) (env_of env))
        (spec.rows_of rows columns cells.now)) totals.old }
{
    for i in 0..rows {
        let at = i * columns;
        let row = &cells[at..at + columns];
        totals[i] = result_of(sum(layout, env, Summand::Value, Words { values: row }));
    }
}

// Each column is a list of its own.
fn fill_columns(
    layout: Layout,
    env: Env,
    rows: usize,
    columns: usize,
    cells: &[u64],
    totals: &mut [u64],
)
    requires { (rows * columns ≡ length cells.now) × (columns ≤ length totals.old)
        × (sum_numbers (layout_of layout) (env_of env) 0 (length cells.now) ≡ 0) }
    ensures { totals.new
        ≡ filled (map (spec.plain_total (layout_of layout) (env_of env))
        (spec.columns_from rows columns cells.now 0 columns)) totals.old }
{
    for j in 0..columns {
        let column = Column {
            cells,
            first: j,
            step: columns,
            count: rows,
        };
        totals[j] = result_of(sum(layout, env, Summand::Value, column));
    }
}

/// The totals of a table: of the cells of each row, of each column, and of all. The first `rows`
/// places of `row_totals` and the first `columns` places of `column_totals` get results, and the
/// record of all cells is returned. Refused with 3, 4, 6, 9, 10 or 7, and then both lists are as
/// they were (the specification, "Tables").
//
// The total of all cells comes first, and with it the last refusal: nothing is written before.
pub fn table(
    format: Format,
    settings: Settings,
    rows: usize,
    columns: usize,
    cells: &[u64],
    row_totals: &mut [u64],
    column_totals: &mut [u64],
) -> Result<Answer, Refusal>
    ensures { Tables
        (spec.table_answer (format_of format) (settings_of settings) rows columns cells.now
        row_totals.old column_totals.old) (answer_in result) row_totals.new column_totals.new }
{
    let (asked, _) = sum_refusal(format, settings, 0, cells.len())?;
    refuse_if(misshapen(rows, columns, cells.len()), Refusal::BadShape)?;
    if row_totals.len() < rows || column_totals.len() < columns {
        return Err(Refusal::NoRoom);
    }
    let all = Words { values: cells };
    let grand = sum(asked.layout, asked.env, Summand::Value, all)?;
    fill_rows(asked.layout, asked.env, rows, columns, cells, row_totals);
    fill_columns(asked.layout, asked.env, rows, columns, cells, column_totals);
    Ok(grand)
}
