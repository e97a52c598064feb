//! Tables as records: a line above each row, and then a column a line.
ghost use Rattle.std.specs.Prelude.{◌≡◌, ◌+◌, ◌<◌, ◌^◌, All, drop, map, string_bytes};
ghost use Rattle.tql_value.specs.Views.{datum_of_value, datum_of_view};
ghost use Rattle.tql_value.specs.Points.{IsPrintable};
ghost use Rattle.tql_result.specs.Devices.{Pushes, held};
ghost use Rattle.tql_terminal.specs.Dashes.{dashed_row};
ghost use Rattle.tql_terminal.specs.Terminal.{field, fields, first_name, names_width, record_line, record_text};
ghost use Rattle.tql_terminal.specs.Terminal.{records_after, records_text};

use crate::layout::shown_view;
use tql_memory::Memory;
use tql_result::device::DeviceFault;
use tql_result::number::push_decimal;
use tql_result::pieces::push_all;
use tql_result::sink::Sink;
use tql_result_box::box_table::push_count;
use tql_result_box::lines::push_filled;
use tql_result_box::shown::{push_shown, text_width};
use tql_value::value::{Value, View};

/// Returns the width of the widest name, in terminal columns.
fn widest(names: &[String<Memory>]) -> usize
    ensures { result ≡ names_width (map string_bytes names.now) }
{
    let mut width = 0usize;
    for name in names {
        width = width.max(text_width(name.as_str()));
    }
    width
}

/// Returns the first name. If there is none, it is empty.
fn front_name(names: &[String<Memory>]) -> &str
    ensures { result.now ≡ first_name (map string_bytes names.now) }
{
    match names.first() {
        None => "",
        Some(first) => first.as_str(),
    }
}

/// Returns the names after the first one.
fn other_names(names: &[String<Memory>]) -> &[String<Memory>]
    ensures { result.now ≡ drop 1 names.now }
{
    if names.is_empty() { names } else { &names[1..] }
}

/// Pushes a column of a record.
fn push_field<S: Sink>(
    sink: &mut S,
    width: usize,
    name: &str,
    cell: View<'_>,
) -> Result<(), DeviceFault>
    requires { IsPrintable (datum_of_view cell) }
    ensures { Pushes (field width name.now (datum_of_view cell.entry)) result
        (held S.written S.kept sink.old) (held S.written S.kept sink.new) (S.failures sink.old) (S.failures sink.new) }
{
    push_filled(sink, width, false, View::Text(name))?;
    push_all(sink, b"  ")?;
    push_shown(sink, cell)?;
    push_all(sink, b"\n")
}

/// Pushes the columns of a record.
fn push_fields<S: Sink>(
    sink: &mut S,
    width: usize,
    names: &[String<Memory>],
    cells: &[Value],
) -> Result<(), DeviceFault>
    requires { All (λ v. IsPrintable (datum_of_value v)) cells.now }
    ensures { Pushes (fields width (map string_bytes names.now) (dashed_row cells.now)) result
        (held S.written S.kept sink.old) (held S.written S.kept sink.new) (S.failures sink.old) (S.failures sink.new) }
{
    let mut behind = names;
    for cell in cells {
        push_field(sink, width, front_name(behind), shown_view(cell.view()))?;
        behind = other_names(behind);
    }
    Ok(())
}

/// Pushes the line above a record with a number.
fn push_record_line<S: Sink>(sink: &mut S, number: usize) -> Result<(), DeviceFault>
    ensures { Pushes (record_line number) result
        (held S.written S.kept sink.old) (held S.written S.kept sink.new) (S.failures sink.old) (S.failures sink.new) }
{
    push_all(sink, b"-- row ")?;
    push_decimal(sink, number as u64)?;
    push_all(sink, b"\n")
}

/// Pushes a record with a number.
fn push_record<S: Sink>(
    sink: &mut S,
    number: usize,
    width: usize,
    names: &[String<Memory>],
    cells: &[Value],
) -> Result<(), DeviceFault>
    requires { All (λ v. IsPrintable (datum_of_value v)) cells.now }
    ensures { Pushes (record_text number width (map string_bytes names.now) (dashed_row cells.now)) result
        (held S.written S.kept sink.old) (held S.written S.kept sink.new) (S.failures sink.old) (S.failures sink.new) }
{
    push_record_line(sink, number)?;
    push_fields(sink, width, names, cells)
}

/// Pushes records, numbered from 1.
fn push_all_records<S: Sink>(
    sink: &mut S,
    width: usize,
    names: &[String<Memory>],
    rows: &[Vec<Value, Memory>],
) -> Result<(), DeviceFault>
    requires { All (λ r. All (λ v. IsPrintable (datum_of_value v)) r.items) rows.now }
    ensures { Pushes (records_after 0 width (map string_bytes names.now) (map (λ r. dashed_row r.items) rows.now))
        result (held S.written S.kept sink.old) (held S.written S.kept sink.new)
        (S.failures sink.old) (S.failures sink.new) }
{
    let mut number = 0usize;
    for row in rows {
        number += 1;
        push_record(sink, number, width, names, row.as_slice())?;
    }
    Ok(())
}

/// Pushes a table as records, and the number of its rows.
pub(crate) fn push_records<S: Sink>(
    sink: &mut S,
    names: &[String<Memory>],
    rows: &[Vec<Value, Memory>],
) -> Result<(), DeviceFault>
    requires { All (λ r. All (λ v. IsPrintable (datum_of_value v)) r.items) rows.now }
    ensures { Pushes (records_text (map string_bytes names.now) (map (λ r. dashed_row r.items) rows.now)) result
        (held S.written S.kept sink.old) (held S.written S.kept sink.new) (S.failures sink.old) (S.failures sink.new) }
{
    push_all_records(sink, widest(names), names, rows)?;
    push_count(sink, rows.len())
}
