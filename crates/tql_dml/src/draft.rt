//! A row while it is made: a view of each cell, which borrows its text from a literal, a row of a query or the old row.
//! The cells are packed at the end.
ghost use Rattle.std.specs.Prelude.{◌≡◌, map, option_map, remove, replicate, slice_set, IfOk, IfErr};
ghost use Rattle.tql_spec.specs.Change.{filled};
ghost use Rattle.tql_spec.specs.Datum.{Null};
ghost use Rattle.tql_spec.specs.Definition.{without_generated};
ghost use Rattle.tql_catalog.specs.Definitions.{system_of};
ghost use Rattle.tql_value.specs.Views.{datum_of_view};
ghost use Rattle.tql_value.specs.declared.refusal.Refusal.TheVariants.{OutOfMemory};
ghost use Rattle.tql_dml.specs.Cells.{data_of};

use smallvec::SmallVec;
use tql_catalog::definition::System;
use tql_expr::row::Row;
use tql_memory::Memory;
use tql_value::refusal::Refusal;
use tql_value::value::View;

/// The cells of a row that is made. Up to eight make no allocation.
pub type Draft<'a> = SmallVec<View<'a>, 8, Memory>;

/// Returns a row of `width` NULLs. The only error is a refused allocation.
pub fn nulls<'a>(memory: Memory, width: usize) -> Result<Draft<'a>, Refusal>
    ensures row { IfOk result (λ row. data_of row.items ≡ replicate width Null) }
    ensures memory { IfErr result (λ e. e ≡ OutOfMemory) }
{
    let mut row = SmallVec::with_capacity(memory, width)?;
    for _ in 0..width {
        row.push(View::Null)?;
    }
    Ok(row)
}

/// Returns the values of a row, for reading. The only error is a refused allocation.
pub fn views_of<'a>(memory: Memory, row: &'a Row) -> Result<Draft<'a>, Refusal>
    ensures row { IfOk result (λ views. data_of views.items ≡ row.now) }
    ensures memory { IfErr result (λ e. e ≡ OutOfMemory) }
{
    let width = row.width();
    let mut views = SmallVec::with_capacity(memory, width)?;
    for place in 0..width {
        views.push(row.column(place))?;
    }
    Ok(views)
}

/// Sets a column to a value. Does nothing past the last column.
pub(crate) fn put<'a>(row: &mut [View<'a>], column: usize, value: View<'a>)
    ensures { data_of row.new ≡ slice_set (data_of row.old) column (datum_of_view value.entry) }
{
    if column < row.len() {
        row[column] = value;
    }
}

/// Puts the values into their columns. The longer of the two lists is cut.
pub fn fill<'a>(row: &mut [View<'a>], columns: &[usize], values: &[View<'a>])
    ensures { data_of row.new ≡ filled (data_of row.old) columns.now (data_of values.now) }
{
    for place in 0..columns.len().min(values.len()) {
        put(row, columns[place], values[place]);
    }
}

/// Returns the row without the cell at an index, or the same row if that is past the last cell.
fn take_out(mut row: Draft<'_>, place: usize) -> Draft<'_>
    ensures { data_of result.items ≡ remove (data_of row.entry.items) place }
{
    if place < row.len() {
        row.remove(place);
    }
    row
}

/// Returns a row without the cells of the generated columns.
fn drop_generated(row: Draft<'_>, system: Option<System>) -> Draft<'_>
    ensures { data_of result.items ≡ without_generated (option_map system_of system) (data_of row.entry.items) }
{
    match system {
        None => row,
        Some(system) if system.start < system.end => take_out(
            take_out(row, system.end),
            system.start,
        ),
        Some(system) => take_out(take_out(row, system.start), system.end),
    }
}

/// Packs a row, without the cells of the generated columns. The only error is a refused allocation.
pub fn packed(memory: Memory, row: Draft<'_>, system: Option<System>) -> Result<Row, Refusal>
    ensures row { IfOk result (λ stored. stored
        ≡ without_generated (option_map system_of system) (data_of row.entry.items)) }
    ensures memory { IfErr result (λ e. e ≡ OutOfMemory) }
{
    let stored = drop_generated(row, system);
    Ok(Row::of(memory, stored.as_slice())?)
}
