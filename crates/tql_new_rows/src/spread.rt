//! The rows that an INSERT adds. Each value goes to its column, columns without a value are NULL, and the generated
//! columns are left out.
ghost use Rattle.std.specs.Prelude.{◌≡◌, IsTrue, length, map, IfOk, IfErr};
ghost use Rattle.tql_value.specs.declared.refusal.Refusal.TheVariants.{OutOfMemory};
ghost use Rattle.tql_dml.specs.Cells.{data_of, stored_cells, StoresAsGiven};

use tql_catalog::table_def::TableDef;
use tql_dml::draft::{fill, nulls, packed, views_of};
use tql_expr::row::Row;
use tql_memory::Memory;
use tql_value::refusal::Refusal;
use tql_value::value::View;

/// Returns the stored cells of a new row: these values in these columns, and NULL in the others. The only error is a
/// refused allocation.
fn spread(
    memory: Memory,
    definition: &TableDef,
    columns: &[usize],
    values: &[View<'_>],
) -> Result<Row, Refusal>
    ensures row { IfOk result (λ row. row ≡ stored_cells definition.now columns.now (data_of values.now)) }
    ensures memory { IfErr result (λ e. e ≡ OutOfMemory) }
{
    let mut row = nulls(memory, definition.columns().len())?;
    fill(row.as_mut_slice(), columns, values);
    packed(memory, row, definition.system())
}

/// Whether values for these columns, in this order, already are the stored cells of a row.
pub(crate) fn are_stored(definition: &TableDef, columns: &[usize]) -> bool
    ensures { IsTrue result → StoresAsGiven definition.now columns.now }
{
    if columns != definition.assignable() {
        return false;
    }
    definition.are_assignable(columns)
}

/// Returns the stored cells of a new row. With `stored`, the values for these columns already are. The only error is a
/// refused allocation.
pub(crate) fn new_row(
    memory: Memory,
    definition: &TableDef,
    columns: &[usize],
    stored: bool,
    values: &[View<'_>],
) -> Result<Row, Refusal>
    requires { IsTrue stored → StoresAsGiven definition.now columns.now }
    ensures row { IfOk result (λ row. row ≡ stored_cells definition.now columns.now (data_of values.now)) }
    ensures memory { IfErr result (λ e. e ≡ OutOfMemory) }
{
    if stored && values.len() == columns.len() {
        return Ok(Row::of(memory, values)?);
    }
    spread(memory, definition, columns, values)
}

/// Returns the stored cells of the new row of a row of values. The only error is a refused allocation.
fn spread_row(
    memory: Memory,
    definition: &TableDef,
    columns: &[usize],
    row: &Row,
) -> Result<Row, Refusal>
    ensures row { IfOk result (λ made. made ≡ stored_cells definition.now columns.now row.now) }
    ensures memory { IfErr result (λ e. e ≡ OutOfMemory) }
{
    let views = views_of(memory, row)?;
    spread(memory, definition, columns, views.as_slice())
}

/// Changes a row of values to the stored cells of its new row. With `stored`, the values for these columns already are,
/// and the row stays as it is. The only error is a refused allocation.
fn store(
    memory: Memory,
    definition: &TableDef,
    columns: &[usize],
    stored: bool,
    row: &mut Row,
) -> Result<(), Refusal>
    requires { IsTrue stored → StoresAsGiven definition.now columns.now }
    ensures row { IfOk result (λ _. row.new ≡ stored_cells definition.now columns.now row.old) }
    ensures memory { IfErr result (λ e. e ≡ OutOfMemory) }
{
    if stored && row.width() == columns.len() {
        return Ok(());
    }
    *row = spread_row(memory, definition, columns, row)?;
    Ok(())
}

/// Returns the stored cells of the new row of each row of values, in place of these. The only error is a refused
/// allocation.
pub(crate) fn new_rows(
    memory: Memory,
    definition: &TableDef,
    columns: &[usize],
    mut rows: Vec<Row, Memory>,
) -> Result<Vec<Row, Memory>, Refusal>
    ensures rows { IfOk result
        (λ made. made.items ≡ map (stored_cells definition.now columns.now) rows.entry.items) }
    ensures memory { IfErr result (λ e. e ≡ OutOfMemory) }
{
    let stored = are_stored(definition, columns);
    for row in rows.iter_mut() {
        store(memory, definition, columns, stored, row)?;
    }
    Ok(rows)
}
