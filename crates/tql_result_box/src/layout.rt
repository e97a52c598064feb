//! The layout of the columns of a table: their widths and alignment.
ghost use Rattle.std.specs.Prelude.{◌≡◌, IfOk, All, [], map, drop, string_bytes};
ghost use Rattle.std.specs.List.{fold};
ghost use Rattle.tql_value.specs.Views.{datum_of_value, datum_of_view, row_of};
ghost use Rattle.tql_value.specs.Points.{IsPrintable, ArePrintable};
ghost use Rattle.tql_result.specs.Replies.{table_rows, headings_of};
ghost use Rattle.tql_result_box.specs.Box.{is_number as number_of, column_layout, box_layouts};
ghost use Rattle.tql_result_box.specs.Layouts.{first_layout, widened as widened_by, with_row};

use crate::shown::{text_width, value_width};
use std::alloc::AllocError;
use tql_memory::Memory;
use tql_value::value::{ResultTable, Value, View};

/// The layout of a column.
#[derive(Clone, Copy)]
pub struct Layout {
    /// The maximum width of its heading and its values, in terminal columns.
    pub width: usize,
    /// Whether its first value that is not NULL is a number; None if all values are NULL.
    pub number: Option<bool>,
}

/// The layout of a column about which nothing is known.
const UNKNOWN: Layout = Layout {
    width: 0,
    number: None,
};

/// Returns the layout of the first column, and those of the others.
pub fn next_layout(layouts: &[Layout]) -> (Layout, &[Layout])
    ensures first { result.0 ≡ first_layout layouts.now }
    ensures others { result.1.now ≡ drop 1 layouts.now }
{
    match layouts.split_first() {
        None => (UNKNOWN, layouts),
        Some((first, others)) => (*first, others),
    }
}

/// Whether a value is a number; None for NULL.
fn is_number(cell: View<'_>) -> Option<bool>
    ensures { result ≡ number_of (datum_of_view cell.entry) }
{
    match cell {
        View::Null => None,
        View::Int(_) => Some(true),
        _ => Some(false),
    }
}

/// Returns the layout of a column after a value was added.
pub fn widened(layout: Layout, cell: View<'_>) -> Layout
    requires { IsPrintable (datum_of_view cell) }
    ensures { result ≡ widened_by layout (datum_of_view cell.entry) }
{
    Layout {
        width: layout.width.max(value_width(cell)),
        number: layout.number.or(is_number(cell)),
    }
}

/// Adds a row to the layouts of the columns.
fn add_row(layouts: &mut [Layout], cells: &[Value])
    requires { All (λ v. IsPrintable (datum_of_value v)) cells.now }
    ensures { layouts.new ≡ with_row layouts.old (row_of cells.now) }
{
    let mut place = 0;
    'columns: while place < layouts.len() && place < cells.len() {
        layouts[place] = widened(layouts[place], cells[place].view());
        place += 1;
    }
}

/// Returns the layout of a column with a heading and no values.
fn heading_layout(name: &str) -> Layout
    ensures { result ≡ column_layout name.now [] }
{
    Layout {
        width: text_width(name),
        number: None,
    }
}

/// Returns the layouts of columns with headings and no values. The only error is a refused allocation.
pub fn heading_layouts(
    memory: Memory,
    names: &[String<Memory>],
) -> Result<Vec<Layout, Memory>, AllocError>
    ensures { IfOk result (λ v. v.items ≡ box_layouts (map string_bytes names.now) []) }
{
    let mut layouts = Vec::with_capacity(memory, names.len())?;
    for name in names {
        layouts.push(heading_layout(name.as_str()))?;
    }
    Ok(layouts)
}

/// Adds rows to the layouts of the columns.
fn add_rows(layouts: &mut [Layout], rows: &[Vec<Value, Memory>])
    requires { All (λ r. All (λ v. IsPrintable (datum_of_value v)) r.items) rows.now }
    ensures { layouts.new ≡ fold with_row layouts.old (map (λ r. row_of r.items) rows.now) }
{
    for row in rows {
        add_row(layouts, row.as_slice());
    }
}

/// Returns the layouts of the columns of a table. The only error is a refused allocation.
pub(crate) fn table_layouts(
    memory: Memory,
    table: &ResultTable,
) -> Result<Vec<Layout, Memory>, AllocError>
    requires { ArePrintable (table_rows table.now) }
    ensures { IfOk result (λ v. v.items ≡ box_layouts (headings_of table.now) (table_rows table.now)) }
{
    let mut layouts = heading_layouts(memory, table.headings.as_slice())?;
    add_rows(layouts.as_mut_slice(), table.rows.as_slice());
    Ok(layouts)
}
