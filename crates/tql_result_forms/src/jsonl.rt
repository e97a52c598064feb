//! The text of a table as JSON Lines: each row is one object on one line.
ghost use Rattle.std.specs.Prelude.{◌≡◌, ◌∷◌, ◌++◌, All, map, string_bytes};
ghost use Rattle.std.specs.List.{flat_map};
ghost use Rattle.tql_result_laws.specs.Json.{parted, member, json_value};
ghost use Rattle.tql_result_laws.specs.Jsonl.{row_members, row_line, jsonl_text};
ghost use Rattle.tql_value.specs.Views.{datum_of_value, datum_of_view, row_of};
ghost use Rattle.tql_value.specs.Points.{IsPrintable, ArePrintable};
ghost use Rattle.tql_result.specs.Devices.{Pushes, held};
ghost use Rattle.tql_result.specs.Replies.{table_rows, headings_of};

use crate::escape::push_string;
use crate::json_rows::push_value;
use tql_memory::Memory;
use tql_result::device::DeviceFault;
use tql_result::pieces::push_all;
use tql_result::sink::Sink;
use tql_value::value::{ResultTable, Value, View};

/// Pushes a key and its value.
fn push_member<S: Sink>(sink: &mut S, name: &str, cell: View<'_>) -> Result<(), DeviceFault>
    requires { IsPrintable (datum_of_view cell) }
    ensures { Pushes (member name.now (json_value (datum_of_view cell.entry))) result
        (held S.written S.kept sink.old) (held S.written S.kept sink.new) (S.failures sink.old) (S.failures sink.new) }
{
    push_string(sink, name.as_bytes())?;
    push_all(sink, b": ")?;
    push_value(sink, cell)
}

/// Pushes `front`, a key and its value.
fn push_next_member<S: Sink>(
    sink: &mut S,
    front: &[u8],
    name: &str,
    cell: View<'_>,
) -> Result<(), DeviceFault>
    requires { IsPrintable (datum_of_view cell) }
    ensures { Pushes (front.now ++ member name.now (json_value (datum_of_view cell.entry))) result
        (held S.written S.kept sink.old) (held S.written S.kept sink.new) (S.failures sink.old) (S.failures sink.new) }
{
    push_all(sink, front)?;
    push_member(sink, name, cell)
}

/// Pushes the members of a row, each with the heading of its column as the key.
fn push_members<S: Sink>(
    sink: &mut S,
    names: &[String<Memory>],
    cells: &[Value],
) -> Result<(), DeviceFault>
    requires { All (λ v. IsPrintable (datum_of_value v)) cells.now }
    ensures { Pushes (parted (row_members (map string_bytes names.now) (row_of cells.now))) result
        (held S.written S.kept sink.old) (held S.written S.kept sink.new) (S.failures sink.old) (S.failures sink.new) }
{
    let mut front: &[u8] = b"";
    for (name, cell) in names.iter().zip(cells) {
        push_next_member(sink, front, name.as_str(), cell.view())?;
        front = b", ";
    }
    Ok(())
}

/// Pushes a row as an object on a line of its own.
fn push_object<S: Sink>(
    sink: &mut S,
    names: &[String<Memory>],
    cells: &[Value],
) -> Result<(), DeviceFault>
    requires { All (λ v. IsPrintable (datum_of_value v)) cells.now }
    ensures { Pushes (row_line (map string_bytes names.now) (row_of cells.now)) result
        (held S.written S.kept sink.old) (held S.written S.kept sink.new) (S.failures sink.old) (S.failures sink.new) }
{
    push_all(sink, b"{")?;
    push_members(sink, names, cells)?;
    push_all(sink, b"}\n")
}

/// Pushes the lines of the rows.
fn push_objects<S: Sink>(
    sink: &mut S,
    names: &[String<Memory>],
    rows: &[Vec<Value, Memory>],
) -> Result<(), DeviceFault>
    requires { All (λ r. All (λ v. IsPrintable (datum_of_value v)) r.items) rows.now }
    ensures { Pushes (flat_map (λ r. row_line (map string_bytes names.now) (row_of r.items)) rows.now) result
        (held S.written S.kept sink.old) (held S.written S.kept sink.new) (S.failures sink.old) (S.failures sink.new) }
{
    for row in rows {
        push_object(sink, names, row.as_slice())?;
    }
    Ok(())
}

/// Pushes the rows of a table as JSON Lines: each row is one object (RFC 8259) on one line. Its keys are the headings
/// in order, and its values are as in `write_json_answer`. A table without rows has an empty text. Allocates no memory.
///
/// # Errors
///
/// Fails if the sink fails. A prefix of the text has then been pushed.
pub fn write_json_rows<S: Sink>(sink: &mut S, table: &ResultTable) -> Result<(), DeviceFault>
    requires { ArePrintable (table_rows table.now) }
    ensures { Pushes (jsonl_text (headings_of table.now) (table_rows table.now)) result
        (held S.written S.kept sink.old) (held S.written S.kept sink.new) (S.failures sink.old) (S.failures sink.new) }
{
    push_objects(sink, table.headings.as_slice(), table.rows.as_slice())
}
