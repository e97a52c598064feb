//! The layout of the columns of a table whose highest moments are shown as `-`, and whether a box of them has room.
ghost use Rattle.std.specs.Prelude.{◌≡◌, IfOk, All, map};
ghost use Rattle.std.specs.List.{fold};
ghost use Rattle.tql_value.specs.Views.{datum_of_value, datum_of_view};
ghost use Rattle.tql_value.specs.Points.{IsMoment, IsPrintable, ArePrintable};
ghost use Rattle.tql_result.specs.Replies.{table_rows, headings_of};
ghost use Rattle.tql_result_box.specs.Box.{box_layouts};
ghost use Rattle.tql_result_box.specs.Layouts.{with_row};
ghost use Rattle.tql_terminal.specs.Dashes.{dashed, dashed_moment, dashed_row, dashed_rows};
ghost use Rattle.tql_terminal.specs.Terminal.{has_room};

use std::alloc::AllocError;
use tql_memory::Memory;
use tql_result_box::layout::{Layout, heading_layouts, widened};
use tql_value::calendar::HIGH;
use tql_value::value::{ResultTable, Value, View};

/// Returns what is shown for a moment: the text `-` for the highest one, which is the ROW END of a row that is in the
/// table.
fn shown_moment(moment: i64) -> View<'static>
    requires { IsMoment moment }
    ensures value { datum_of_view result ≡ dashed_moment moment }
    ensures printable { IsPrintable (datum_of_view result) }
{
    if moment == HIGH {
        View::Text("-")
    } else {
        View::Moment(moment)
    }
}

/// Returns the value that is shown for another.
pub(crate) fn shown_view(cell: View<'_>) -> View<'_>
    requires { IsPrintable (datum_of_view cell) }
    ensures value { datum_of_view result ≡ dashed (datum_of_view cell.entry) }
    ensures printable { IsPrintable (datum_of_view result) }
{
    match cell {
        View::Null => View::Null,
        View::Int(number) => View::Int(number),
        View::Text(text) => View::Text(text),
        View::Day(day) => View::Day(day),
        View::Moment(moment) => shown_moment(moment),
    }
}

/// Adds a row to the layouts of the columns.
fn add_row(layouts: &mut [Layout], cells: &[Value])
    requires { All (λ v. IsPrintable (datum_of_value v)) cells.now }
    ensures { layouts.new ≡ with_row layouts.old (dashed_row cells.now) }
{
    let mut place = 0;
    'columns: while place < layouts.len() && place < cells.len() {
        layouts[place] = widened(layouts[place], shown_view(cells[place].view()));
        place += 1;
    }
}

/// Adds rows to the layouts of the columns.
fn add_rows(layouts: &mut [Layout], rows: &[Vec<Value, Memory>])
    requires { All (λ r. All (λ v. IsPrintable (datum_of_value v)) r.items) rows.now }
    ensures { layouts.new ≡ fold with_row layouts.old (map (λ r. dashed_row r.items) rows.now) }
{
    for row in rows {
        add_row(layouts, row.as_slice());
    }
}

/// Returns the layouts of the columns of a table. The only error is a refused allocation.
pub(crate) fn shown_layouts(
    memory: Memory,
    table: &ResultTable,
) -> Result<Vec<Layout, Memory>, AllocError>
    requires { ArePrintable (table_rows table.now) }
    ensures { IfOk result (λ v. v.items ≡ box_layouts (headings_of table.now) (dashed_rows (table_rows table.now))) }
{
    let mut layouts = heading_layouts(memory, table.headings.as_slice())?;
    add_rows(layouts.as_mut_slice(), table.rows.as_slice());
    Ok(layouts)
}

/// Whether a box with these columns is at most as wide as a terminal.
pub(crate) fn has_room(layouts: &[Layout], width: usize) -> bool
    ensures { result ≡ has_room width layouts.now }
{
    let mut room = width;
    for layout in layouts {
        let column = layout.width.saturating_add(3);
        if column >= room {
            return false;
        }
        room -= column;
    }
    room > 0
}
