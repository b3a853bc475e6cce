// The entries of tables and ranges, over records. `totals_c` exports them over numbers, for callers
// in other languages.
ghost use Rattle.std.specs.Prelude.{◌≡◌};
ghost use Rattle.figures_spec.specs.ranges.Entry.{range_entry};
ghost use Rattle.figures_spec.specs.tables.Entry.{table_entry};
ghost use Rattle.format.specs.Settings.{settings_of};
ghost use Rattle.figures.specs.Ranges.{EntersRange};
ghost use Rattle.figures.specs.Tables.{EntersTable};

use crate::range::range_total;
use crate::table::table;
use format::settings::Settings;
use totals::entry::{ANSWER_BYTES, NamedFormat, enter};
use totals::refusal::Refusal;

// The words of a lower and an upper total.
const PAIR: usize = 2;

/// The entry of a table: the answer's first 24 bytes are those of the total of all cells. Returns
/// 0, or the refusal plus 256 times its place, and then nothing is written (the specification,
/// "Tables").
pub fn enter_table(
    format: NamedFormat,
    settings: Settings,
    rows: usize,
    columns: usize,
    cells: &[u64],
    row_totals: &mut [u64],
    column_totals: &mut [u64],
    answer: &mut [u8],
) -> u64
    ensures { EntersTable
        (table_entry format.kind format.exponent_bits format.width format.bias_named
        format.bias (settings_of settings) rows columns cells.now row_totals.old
        column_totals.old answer.old) result row_totals.new column_totals.new answer.new }
{
    if answer.len() < ANSWER_BYTES {
        return Refusal::ShortBuffer.number();
    }
    let Ok(format) = format.format() else {
        return Refusal::NoSuchFormat.number();
    };
    let grand = table(
        format,
        settings,
        rows,
        columns,
        cells,
        row_totals,
        column_totals,
    );
    enter(grand, answer)
}

/// The entry of the lower and the upper total of amounts known within a range, as two words. Each
/// entry's low and high are left in the place of its figures: only figures that are not used
/// change. Returns 0, or the refusal, and then nothing is written (the specification, "Ranges").
pub fn enter_range(
    tags: &[u64],
    firsts: &mut [u64],
    seconds: &mut [u64],
    ceiling: u64,
    pair: &mut [u64],
) -> u64
    ensures { EntersRange (range_entry tags.now firsts.old seconds.old ceiling pair.old)
        result firsts.new seconds.new pair.new }
{
    if pair.len() < PAIR {
        return Refusal::ShortBuffer.number();
    }
    match range_total(tags, firsts, seconds, ceiling) {
        Ok(bounds) => {
            pair[0] = f64::to_bits(bounds.lower);
            pair[1] = f64::to_bits(bounds.upper);
            0
        }
        Err(refusal) => refusal.number(),
    }
}
