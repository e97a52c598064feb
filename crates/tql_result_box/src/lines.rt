//! The lines of a box: its border, its headings, and its rows.
ghost use Rattle.std.specs.Prelude.{◌≡◌, ◌++◌, All, map, string_bytes};
ghost use Rattle.std.specs.List.{concat, flat_map};
ghost use Rattle.tql_value.specs.Views.{datum_of_value, datum_of_view, row_of};
ghost use Rattle.tql_value.specs.Points.{IsPrintable};
ghost use Rattle.tql_result.specs.Devices.{Pushes, held};
ghost use Rattle.tql_result_box.specs.Box.{times as times_of, filled, boxed, heading_box, value_box, laid, bar, joined};
ghost use Rattle.tql_result_box.specs.Box.{heading_line, row_line, rule_line};

use crate::layout::{Layout, next_layout};
use crate::shown::{push_shown, value_width};
use tql_memory::Memory;
use tql_result::device::DeviceFault;
use tql_result::pieces::push_all;
use tql_result::sink::Sink;
use tql_value::value::{Value, View};

/// Pushes a piece `times` times.
fn push_times<S: Sink>(sink: &mut S, piece: &str, times: usize) -> Result<(), DeviceFault>
    ensures { Pushes (times_of times piece.now) result
        (held S.written S.kept sink.old) (held S.written S.kept sink.new) (S.failures sink.old) (S.failures sink.new) }
{
    let mut left = times;
    'each: while left > 0 {
        push_all(sink, piece.as_bytes())?;
        left -= 1;
    }
    Ok(())
}

/// Pushes the part of the border above or below a column.
fn push_bar<S: Sink>(sink: &mut S, width: usize) -> Result<(), DeviceFault>
    ensures { Pushes (bar width) result
        (held S.written S.kept sink.old) (held S.written S.kept sink.new) (S.failures sink.old) (S.failures sink.new) }
{
    push_all(sink, "──".as_bytes())?;
    push_times(sink, "─", width)
}

/// Pushes `front`, then a bar.
fn push_next_bar<S: Sink>(sink: &mut S, front: &[u8], width: usize) -> Result<(), DeviceFault>
    ensures { Pushes (front.now ++ bar width) result
        (held S.written S.kept sink.old) (held S.written S.kept sink.new) (S.failures sink.old) (S.failures sink.new) }
{
    push_all(sink, front)?;
    push_bar(sink, width)
}

/// Pushes the bars of the columns, with `cross` between adjacent columns.
fn push_bars<S: Sink>(
    sink: &mut S,
    cross: &[u8],
    layouts: &[Layout],
    names: &[String<Memory>],
) -> Result<(), DeviceFault>
    ensures { Pushes (joined cross.now (laid (λ l h. bar l.width) layouts.now (map string_bytes names.now))) result
        (held S.written S.kept sink.old) (held S.written S.kept sink.new) (S.failures sink.old) (S.failures sink.new) }
{
    let mut front: &[u8] = b"";
    let mut behind = layouts;
    'columns: for _ in names {
        let (layout, others) = next_layout(behind);
        push_next_bar(sink, front, layout.width)?;
        front = cross;
        behind = others;
    }
    Ok(())
}

/// Pushes a line of the border, given its left end, the cross between columns, and its right end.
pub fn push_rule<S: Sink>(
    sink: &mut S,
    left: &str,
    cross: &str,
    right: &str,
    layouts: &[Layout],
    names: &[String<Memory>],
) -> Result<(), DeviceFault>
    ensures { Pushes (rule_line left.now cross.now right.now layouts.now (map string_bytes names.now)) result
        (held S.written S.kept sink.old) (held S.written S.kept sink.new) (S.failures sink.old) (S.failures sink.new) }
{
    push_all(sink, left.as_bytes())?;
    push_bars(sink, cross.as_bytes(), layouts, names)?;
    push_all(sink, right.as_bytes())?;
    push_all(sink, b"\n")
}

/// Pushes a value, padded with blanks to the width of its column.
pub fn push_filled<S: Sink>(
    sink: &mut S,
    width: usize,
    is_right: bool,
    cell: View<'_>,
) -> Result<(), DeviceFault>
    requires { IsPrintable (datum_of_view cell) }
    ensures { Pushes (filled width is_right (datum_of_view cell.entry)) result
        (held S.written S.kept sink.old) (held S.written S.kept sink.new) (S.failures sink.old) (S.failures sink.new) }
{
    let blanks = width.saturating_sub(value_width(cell));
    if is_right {
        push_times(sink, " ", blanks)?;
        push_shown(sink, cell)
    } else {
        push_shown(sink, cell)?;
        push_times(sink, " ", blanks)
    }
}

/// Pushes a value in its column, after the border.
pub fn push_boxed<S: Sink>(
    sink: &mut S,
    width: usize,
    is_right: bool,
    cell: View<'_>,
) -> Result<(), DeviceFault>
    requires { IsPrintable (datum_of_view cell) }
    ensures { Pushes (boxed width is_right (datum_of_view cell.entry)) result
        (held S.written S.kept sink.old) (held S.written S.kept sink.new) (S.failures sink.old) (S.failures sink.new) }
{
    push_all(sink, "│ ".as_bytes())?;
    push_filled(sink, width, is_right, cell)?;
    push_all(sink, b" ")
}

/// Pushes headings in their columns.
fn push_names<S: Sink>(
    sink: &mut S,
    layouts: &[Layout],
    names: &[String<Memory>],
) -> Result<(), DeviceFault>
    ensures { Pushes (concat (laid heading_box layouts.now (map string_bytes names.now))) result
        (held S.written S.kept sink.old) (held S.written S.kept sink.new) (S.failures sink.old) (S.failures sink.new) }
{
    let mut behind = layouts;
    for name in names {
        let (layout, others) = next_layout(behind);
        push_boxed(sink, layout.width, false, View::Text(name.as_str()))?;
        behind = others;
    }
    Ok(())
}

/// Pushes the line of the headings.
pub fn push_headings<S: Sink>(
    sink: &mut S,
    layouts: &[Layout],
    names: &[String<Memory>],
) -> Result<(), DeviceFault>
    ensures { Pushes (heading_line layouts.now (map string_bytes names.now)) result
        (held S.written S.kept sink.old) (held S.written S.kept sink.new) (S.failures sink.old) (S.failures sink.new) }
{
    push_names(sink, layouts, names)?;
    push_all(sink, "│\n".as_bytes())
}

/// Pushes values in their columns.
fn push_cells<S: Sink>(sink: &mut S, layouts: &[Layout], cells: &[Value]) -> Result<(), DeviceFault>
    requires { All (λ v. IsPrintable (datum_of_value v)) cells.now }
    ensures { Pushes (concat (laid value_box layouts.now (row_of cells.now))) result
        (held S.written S.kept sink.old) (held S.written S.kept sink.new) (S.failures sink.old) (S.failures sink.new) }
{
    let mut behind = layouts;
    for cell in cells {
        let (layout, others) = next_layout(behind);
        push_boxed(
            sink,
            layout.width,
            layout.number.unwrap_or(false),
            cell.view(),
        )?;
        behind = others;
    }
    Ok(())
}

/// Pushes the line of a row.
fn push_row<S: Sink>(sink: &mut S, layouts: &[Layout], cells: &[Value]) -> Result<(), DeviceFault>
    requires { All (λ v. IsPrintable (datum_of_value v)) cells.now }
    ensures { Pushes (row_line layouts.now (row_of cells.now)) result
        (held S.written S.kept sink.old) (held S.written S.kept sink.new) (S.failures sink.old) (S.failures sink.new) }
{
    push_cells(sink, layouts, cells)?;
    push_all(sink, "│\n".as_bytes())
}

/// Pushes the lines of the rows.
pub(crate) fn push_rows<S: Sink>(
    sink: &mut S,
    layouts: &[Layout],
    rows: &[Vec<Value, Memory>],
) -> Result<(), DeviceFault>
    requires { All (λ r. All (λ v. IsPrintable (datum_of_value v)) r.items) rows.now }
    ensures { Pushes (flat_map (λ r. row_line layouts.now (row_of r.items)) rows.now) result
        (held S.written S.kept sink.old) (held S.written S.kept sink.new) (S.failures sink.old) (S.failures sink.new) }
{
    for row in rows {
        push_row(sink, layouts, row.as_slice())?;
    }
    Ok(())
}
