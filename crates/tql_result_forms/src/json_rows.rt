//! Headings, values and rows as JSON arrays.
ghost use Rattle.std.specs.Prelude.{◌≡◌, ◌∷◌, ◌++◌, All, map, string_bytes};
ghost use Rattle.std.specs.List.{flat_map};
ghost use Rattle.tql_result_laws.specs.Json.{string, in_quotes, json_value, parted, array, row_array};
ghost use Rattle.tql_spec.specs.Datum.{Day, Moment};
ghost use Rattle.tql_spec.specs.Text.{cell_text};
ghost use Rattle.tql_value.specs.Views.{datum_of_value, datum_of_view, row_of};
ghost use Rattle.tql_value.specs.Points.{IsDay, IsMoment, IsPrintable};
ghost use Rattle.tql_result.specs.Devices.{Pushes, held};

use crate::escape::push_string;
use tql_memory::Memory;
use tql_result::device::DeviceFault;
use tql_result::number::push_int;
use tql_result::pieces::push_all;
use tql_result::point::{push_day, push_moment};
use tql_result::sink::Sink;
use tql_value::value::{Value, View};

/// Pushes a date as a JSON string.
fn push_day_string<S: Sink>(sink: &mut S, day: i64) -> Result<(), DeviceFault>
    requires { IsDay day }
    ensures { Pushes (in_quotes (cell_text (Day day))) result
        (held S.written S.kept sink.old) (held S.written S.kept sink.new) (S.failures sink.old) (S.failures sink.new) }
{
    push_all(sink, b"\"")?;
    push_day(sink, day)?;
    push_all(sink, b"\"")
}

/// Pushes a timestamp as a JSON string.
fn push_moment_string<S: Sink>(sink: &mut S, moment: i64) -> Result<(), DeviceFault>
    requires { IsMoment moment }
    ensures { Pushes (in_quotes (cell_text (Moment moment))) result
        (held S.written S.kept sink.old) (held S.written S.kept sink.new) (S.failures sink.old) (S.failures sink.new) }
{
    push_all(sink, b"\"")?;
    push_moment(sink, b' ', moment)?;
    push_all(sink, b"\"")
}

/// Pushes a value as JSON.
pub(crate) fn push_value<S: Sink>(sink: &mut S, cell: View<'_>) -> Result<(), DeviceFault>
    requires { IsPrintable (datum_of_view cell) }
    ensures { Pushes (json_value (datum_of_view cell.entry)) result
        (held S.written S.kept sink.old) (held S.written S.kept sink.new) (S.failures sink.old) (S.failures sink.new) }
{
    match cell {
        View::Null => push_all(sink, b"null"),
        View::Int(number) => push_int(sink, number),
        View::Text(text) => push_string(sink, text.as_bytes()),
        View::Day(day) => push_day_string(sink, day),
        View::Moment(moment) => push_moment_string(sink, moment),
    }
}

/// Pushes a name that is not the first, after a comma and a blank.
fn push_next_name<S: Sink>(sink: &mut S, name: &str) -> Result<(), DeviceFault>
    ensures { Pushes (44 ∷ 32 ∷ string name.now) result
        (held S.written S.kept sink.old) (held S.written S.kept sink.new) (S.failures sink.old) (S.failures sink.new) }
{
    push_all(sink, b", ")?;
    push_string(sink, name.as_bytes())
}

/// Pushes names, each after a comma.
fn push_next_names<S: Sink>(sink: &mut S, names: &[String<Memory>]) -> Result<(), DeviceFault>
    ensures { Pushes (flat_map (λ n. 44 ∷ 32 ∷ string (string_bytes n)) names.now) result
        (held S.written S.kept sink.old) (held S.written S.kept sink.new) (S.failures sink.old) (S.failures sink.new) }
{
    for name in names {
        push_next_name(sink, name.as_str())?;
    }
    Ok(())
}

/// Pushes names, separated by commas.
fn push_parted_names<S: Sink>(sink: &mut S, names: &[String<Memory>]) -> Result<(), DeviceFault>
    ensures { Pushes (parted (map string (map string_bytes names.now))) result
        (held S.written S.kept sink.old) (held S.written S.kept sink.new) (S.failures sink.old) (S.failures sink.new) }
{
    match names.split_first() {
        None => Ok(()),
        Some((first, others)) => {
            push_string(sink, first.as_bytes())?;
            push_next_names(sink, others)
        }
    }
}

/// Pushes an array of names.
pub(crate) fn push_names<S: Sink>(sink: &mut S, names: &[String<Memory>]) -> Result<(), DeviceFault>
    ensures { Pushes (array (map string (map string_bytes names.now))) result
        (held S.written S.kept sink.old) (held S.written S.kept sink.new) (S.failures sink.old) (S.failures sink.new) }
{
    push_all(sink, b"[")?;
    push_parted_names(sink, names)?;
    push_all(sink, b"]")
}

/// Pushes a value that is not the first of its row, after a comma and a blank.
fn push_next_value<S: Sink>(sink: &mut S, cell: &Value) -> Result<(), DeviceFault>
    requires { IsPrintable (datum_of_value cell.now) }
    ensures { Pushes (44 ∷ 32 ∷ json_value (datum_of_value cell.now)) result
        (held S.written S.kept sink.old) (held S.written S.kept sink.new) (S.failures sink.old) (S.failures sink.new) }
{
    push_all(sink, b", ")?;
    push_value(sink, cell.view())
}

/// Pushes values, each after a comma.
fn push_next_values<S: Sink>(sink: &mut S, cells: &[Value]) -> Result<(), DeviceFault>
    requires { All (λ v. IsPrintable (datum_of_value v)) cells.now }
    ensures { Pushes (flat_map (λ v. 44 ∷ 32 ∷ json_value (datum_of_value v)) cells.now) result
        (held S.written S.kept sink.old) (held S.written S.kept sink.new) (S.failures sink.old) (S.failures sink.new) }
{
    for cell in cells {
        push_next_value(sink, cell)?;
    }
    Ok(())
}

/// Pushes values, separated by commas.
fn push_parted_values<S: Sink>(sink: &mut S, cells: &[Value]) -> Result<(), DeviceFault>
    requires { All (λ v. IsPrintable (datum_of_value v)) cells.now }
    ensures { Pushes (parted (map json_value (row_of cells.now))) result
        (held S.written S.kept sink.old) (held S.written S.kept sink.new) (S.failures sink.old) (S.failures sink.new) }
{
    match cells.split_first() {
        None => Ok(()),
        Some((first, others)) => {
            push_value(sink, first.view())?;
            push_next_values(sink, others)
        }
    }
}

/// Pushes a row as an array of its values.
fn push_row<S: Sink>(sink: &mut S, cells: &[Value]) -> Result<(), DeviceFault>
    requires { All (λ v. IsPrintable (datum_of_value v)) cells.now }
    ensures { Pushes (row_array (row_of cells.now)) result
        (held S.written S.kept sink.old) (held S.written S.kept sink.new) (S.failures sink.old) (S.failures sink.new) }
{
    push_all(sink, b"[")?;
    push_parted_values(sink, cells)?;
    push_all(sink, b"]")
}

/// Pushes a row that is not the first, after a comma and a blank.
fn push_next_row<S: Sink>(sink: &mut S, cells: &[Value]) -> Result<(), DeviceFault>
    requires { All (λ v. IsPrintable (datum_of_value v)) cells.now }
    ensures { Pushes (44 ∷ 32 ∷ row_array (row_of cells.now)) result
        (held S.written S.kept sink.old) (held S.written S.kept sink.new) (S.failures sink.old) (S.failures sink.new) }
{
    push_all(sink, b", ")?;
    push_row(sink, cells)
}

/// Pushes rows, each after a comma.
fn push_next_rows<S: Sink>(sink: &mut S, rows: &[Vec<Value, Memory>]) -> Result<(), DeviceFault>
    requires { All (λ r. All (λ v. IsPrintable (datum_of_value v)) r.items) rows.now }
    ensures { Pushes (flat_map (λ r. 44 ∷ 32 ∷ row_array (row_of r.items)) rows.now) result
        (held S.written S.kept sink.old) (held S.written S.kept sink.new) (S.failures sink.old) (S.failures sink.new) }
{
    for row in rows {
        push_next_row(sink, row.as_slice())?;
    }
    Ok(())
}

/// Pushes rows, separated by commas.
fn push_parted_rows<S: Sink>(sink: &mut S, rows: &[Vec<Value, Memory>]) -> Result<(), DeviceFault>
    requires { All (λ r. All (λ v. IsPrintable (datum_of_value v)) r.items) rows.now }
    ensures { Pushes (parted (map row_array (map (λ r. row_of r.items) rows.now))) result
        (held S.written S.kept sink.old) (held S.written S.kept sink.new) (S.failures sink.old) (S.failures sink.new) }
{
    match rows.split_first() {
        None => Ok(()),
        Some((first, others)) => {
            push_row(sink, first.as_slice())?;
            push_next_rows(sink, others)
        }
    }
}

/// Pushes an array of rows.
pub(crate) fn push_rows<S: Sink>(
    sink: &mut S,
    rows: &[Vec<Value, Memory>],
) -> Result<(), DeviceFault>
    requires { All (λ r. All (λ v. IsPrintable (datum_of_value v)) r.items) rows.now }
    ensures { Pushes (array (map row_array (map (λ r. row_of r.items) rows.now))) result
        (held S.written S.kept sink.old) (held S.written S.kept sink.new) (S.failures sink.old) (S.failures sink.new) }
{
    push_all(sink, b"[")?;
    push_parted_rows(sink, rows)?;
    push_all(sink, b"]")
}
