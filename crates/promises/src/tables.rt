//! The totals of a table: of all cells, of each row and of each column.

ghost use Rattle.figures_spec.specs.tables.Promises as law;

/// A table has a refusal's number exactly where its condition holds and none before it does: 3, 4,
/// 6, 9, 10, 7.
pub fn refused_exactly()
    ensures { law.Table-refused-exactly }
{}

/// The entry of a table returns 2 or the bias's refusal before the table's own numbers, in its
/// lowest byte, each exactly under its condition.
pub fn entry_refused_exactly()
    ensures { law.Table-entry-refused-exactly }
{}

/// A refused table leaves both lists of totals as they were, and its record is zero but for number
/// and place.
pub fn refused()
    ensures { law.Table-refused }
{}

/// The place of a table's record is 0 but at number 7, and there it is that of the first cell that
/// has a stray bit.
pub fn place()
    ensures { law.Table-place }
{}

/// A refused entry of a table writes to neither list, nor to the buffer.
pub fn entry_refused()
    ensures { law.Table-entry-refused }
{}

/// After an accepted entry the buffer reads as the record of the plain sum of all cells.
pub fn entry_read_back()
    ensures { law.Table-entry-read-back }
{}

/// The plain sum accepts all cells of an accepted table, and the table's record is what it gives.
pub fn grand_total()
    ensures { law.Table-grand }
{}

/// The plain sum accepts each row of an accepted table, and the row's total is the result that it
/// gives.
pub fn row_totals()
    ensures { law.Table-row }
{}

/// The plain sum accepts each column of an accepted table, and the column's total is the result
/// that it gives.
pub fn column_totals()
    ensures { law.Table-column }
{}

/// A column has as many cells as there are rows, and its cell i is cell i × columns + j of the
/// table.
pub fn column_cells()
    ensures { law.Column-cells }
{}

/// Of every table, a refused one too, each list keeps its length and all that lies behind the
/// totals.
pub fn untouched()
    ensures { law.Table-untouched }
{}

/// Naming the bias that a kind has anyway changes no table.
pub fn naming_the_own_bias()
    ensures { law.Table-named-own }
{}

/// A table refuses kind 4 with 3.
pub fn refused_of_kind_four()
    ensures { law.Table-extended-elsewhere }
{}
