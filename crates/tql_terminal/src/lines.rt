//! The lines of a box whose highest moments are shown as `-`.
ghost use Rattle.std.specs.Prelude.{◌≡◌, All, map, string_bytes};
ghost use Rattle.std.specs.List.{concat, flat_map};
ghost use Rattle.tql_value.specs.Views.{datum_of_value};
ghost use Rattle.tql_value.specs.Points.{IsPrintable};
ghost use Rattle.tql_result.specs.Devices.{Pushes, held};
ghost use Rattle.tql_result_box.specs.Box.{box_text, laid, row_line, value_box};
ghost use Rattle.tql_terminal.specs.Dashes.{dashed_row};

use crate::layout::shown_view;
use tql_memory::Memory;
use tql_result::device::DeviceFault;
use tql_result::pieces::push_all;
use tql_result::sink::Sink;
use tql_result_box::box_table::{push_count, push_head};
use tql_result_box::layout::{Layout, next_layout};
use tql_result_box::lines::{push_boxed, push_rule};
use tql_value::value::Value;

/// Pushes values in their columns.
fn push_cells<S: Sink>(sink: &mut S, layouts: &[Layout], cells: &[Value]) -> Result<(), DeviceFault>
    requires { All (λ v. IsPrintable (datum_of_value v)) cells.now }
    ensures { Pushes (concat (laid value_box layouts.now (dashed_row cells.now))) result
        (held S.written S.kept sink.old) (held S.written S.kept sink.new) (S.failures sink.old) (S.failures sink.new) }
{
    let mut behind = layouts;
    for cell in cells {
        let (layout, others) = next_layout(behind);
        push_boxed(
            sink,
            layout.width,
            layout.number.unwrap_or(false),
            shown_view(cell.view()),
        )?;
        behind = others;
    }
    Ok(())
}

/// Pushes the line of a row.
fn push_row<S: Sink>(sink: &mut S, layouts: &[Layout], cells: &[Value]) -> Result<(), DeviceFault>
    requires { All (λ v. IsPrintable (datum_of_value v)) cells.now }
    ensures { Pushes (row_line layouts.now (dashed_row cells.now)) result
        (held S.written S.kept sink.old) (held S.written S.kept sink.new) (S.failures sink.old) (S.failures sink.new) }
{
    push_cells(sink, layouts, cells)?;
    push_all(sink, "│\n".as_bytes())
}

/// Pushes the lines of the rows.
fn push_rows<S: Sink>(
    sink: &mut S,
    layouts: &[Layout],
    rows: &[Vec<Value, Memory>],
) -> Result<(), DeviceFault>
    requires { All (λ r. All (λ v. IsPrintable (datum_of_value v)) r.items) rows.now }
    ensures { Pushes (flat_map (λ r. row_line layouts.now (dashed_row r.items)) rows.now) result
        (held S.written S.kept sink.old) (held S.written S.kept sink.new) (S.failures sink.old) (S.failures sink.new) }
{
    for row in rows {
        push_row(sink, layouts, row.as_slice())?;
    }
    Ok(())
}

/// Pushes a table with these column layouts.
pub(crate) fn push_lines<S: Sink>(
    sink: &mut S,
    layouts: &[Layout],
    names: &[String<Memory>],
    rows: &[Vec<Value, Memory>],
) -> Result<(), DeviceFault>
    requires { All (λ r. All (λ v. IsPrintable (datum_of_value v)) r.items) rows.now }
    ensures { Pushes (box_text layouts.now (map string_bytes names.now) (map (λ r. dashed_row r.items) rows.now)) result
        (held S.written S.kept sink.old) (held S.written S.kept sink.new) (S.failures sink.old) (S.failures sink.new) }
{
    push_head(sink, layouts, names)?;
    push_rows(sink, layouts, rows)?;
    push_rule(sink, "└", "┴", "┘", layouts, names)?;
    push_count(sink, rows.len())
}
