//! The text of a table: its headings, a line for each row, and the number of rows.
ghost use Rattle.std.specs.Prelude.{◌∷◌, ◌++◌, ◌↔◌, All, IsTrue, codes, decimal, length, map};
ghost use Rattle.std.specs.List.{flat_map, join_with_byte};
ghost use Rattle.tql_spec.specs.Machine.{Table};
ghost use Rattle.tql_spec.specs.Text.{cell_text, row_text, line, reply_text};
ghost use Rattle.tql_value.specs.Views.{datum_of_value, row_of};
ghost use Rattle.tql_result.specs.Devices.{Pushes, held};
ghost use Rattle.tql_result.specs.Replies.{table_rows, headings_of};
ghost use Rattle.tql_value.specs.Points.{IsPrintable, ArePrintable};

use crate::cell::{is_printable, write_cell};
use crate::device::DeviceFault;
use crate::heading::push_headings;
use crate::number::push_decimal;
use crate::pieces::push_all;
use crate::sink::Sink;
use tql_memory::Memory;
use tql_value::value::{ResultTable, Value};

/// Pushes a value that is not the first of its row, after a bar as separator.
fn push_next_cell<S: Sink>(sink: &mut S, cell: &Value) -> Result<(), DeviceFault>
    requires { IsPrintable (datum_of_value cell.now) }
    ensures { Pushes (124 ∷ cell_text (datum_of_value cell.now)) result
        (held S.written S.kept sink.old) (held S.written S.kept sink.new) (S.failures sink.old) (S.failures sink.new) }
{
    push_all(sink, b"|")?;
    write_cell(sink, cell.view())
}

/// Pushes values, each after a bar.
fn push_next_cells<S: Sink>(sink: &mut S, cells: &[Value]) -> Result<(), DeviceFault>
    requires { All (λ v. IsPrintable (datum_of_value v)) cells.now }
    ensures { Pushes (flat_map (λ v. 124 ∷ cell_text (datum_of_value v)) cells.now) result
        (held S.written S.kept sink.old) (held S.written S.kept sink.new) (S.failures sink.old) (S.failures sink.new) }
{
    for cell in cells {
        push_next_cell(sink, cell)?;
    }
    Ok(())
}

/// Pushes values, separated by bars.
fn push_joined<S: Sink>(sink: &mut S, cells: &[Value]) -> Result<(), DeviceFault>
    requires { All (λ v. IsPrintable (datum_of_value v)) cells.now }
    ensures { Pushes (join_with_byte 124 (map cell_text (row_of cells.now))) result
        (held S.written S.kept sink.old) (held S.written S.kept sink.new) (S.failures sink.old) (S.failures sink.new) }
{
    match cells.split_first() {
        None => Ok(()),
        Some((first, others)) => {
            write_cell(sink, first.view())?;
            push_next_cells(sink, others)
        }
    }
}

/// Pushes the line of a row.
fn push_row<S: Sink>(sink: &mut S, cells: &[Value]) -> Result<(), DeviceFault>
    requires { All (λ v. IsPrintable (datum_of_value v)) cells.now }
    ensures { Pushes (row_text (row_of cells.now)) result
        (held S.written S.kept sink.old) (held S.written S.kept sink.new) (S.failures sink.old) (S.failures sink.new) }
{
    push_joined(sink, cells)?;
    push_all(sink, b"\n")
}

/// Pushes the lines of the rows.
fn push_rows<S: Sink>(sink: &mut S, rows: &[Vec<Value, Memory>]) -> Result<(), DeviceFault>
    requires { All (λ r. All (λ v. IsPrintable (datum_of_value v)) r.items) rows.now }
    ensures { Pushes (flat_map (λ r. row_text (row_of r.items)) rows.now) result
        (held S.written S.kept sink.old) (held S.written S.kept sink.new) (S.failures sink.old) (S.failures sink.new) }
{
    for row in rows {
        push_row(sink, row.as_slice())?;
    }
    Ok(())
}

/// Pushes the line with the number of rows.
fn push_row_count<S: Sink>(sink: &mut S, count: usize) -> Result<(), DeviceFault>
    ensures { Pushes (line (40 ∷ decimal count ++ codes " rows)")) result
        (held S.written S.kept sink.old) (held S.written S.kept sink.new) (S.failures sink.old) (S.failures sink.new) }
{
    push_all(sink, b"(")?;
    push_decimal(sink, count as u64)?;
    push_all(sink, b" rows)\n")
}

/// Whether all values of a row can be printed.
fn is_printable_row(cells: &[Value]) -> bool
    ensures { IsTrue result ↔ All (λ v. IsPrintable (datum_of_value v)) cells.now }
{
    cells.iter().all(|cell| is_printable(cell.view()))
}

/// Whether all values of some rows can be printed.
fn are_printable_rows(rows: &[Vec<Value, Memory>]) -> bool
    ensures { IsTrue result ↔ All (λ r. All (λ v. IsPrintable (datum_of_value v)) r.items) rows.now }
{
    rows.iter().all(|row| is_printable_row(row.as_slice()))
}

/// Whether a table can be printed, as `write_table` requires: all its dates and timestamps are in the years 1 to 9999.
pub fn is_printable_table(table: &ResultTable) -> bool
    ensures { IsTrue result ↔ ArePrintable (table_rows table.now) }
{
    are_printable_rows(table.rows.as_slice())
}

/// Pushes a table: the line of its headings, a line for each row, and the number of rows. Headings and values are
/// separated by `|`. A heading is in `"` unless it is a letter A to Z or `_`, followed by such letters and digits (a
/// choice of this project). Allocates no memory. After an error a prefix of the text has been pushed.
pub fn write_table<S: Sink>(sink: &mut S, table: &ResultTable) -> Result<(), DeviceFault>
    requires { ArePrintable (table_rows table.now) }
    ensures { Pushes (reply_text (Table (headings_of table.now) (table_rows table.now))) result
        (held S.written S.kept sink.old) (held S.written S.kept sink.new) (S.failures sink.old) (S.failures sink.new) }
{
    let rows = table.rows.as_slice();
    push_headings(sink, table.headings.as_slice())?;
    push_rows(sink, rows)?;
    push_row_count(sink, rows.len())
}
