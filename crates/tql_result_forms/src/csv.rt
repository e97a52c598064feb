//! The text of a table as comma-separated values.
ghost use Rattle.std.specs.Prelude.{◌≡◌, ◌∷◌, ◌++◌, All, map, string_bytes};
ghost use Rattle.std.specs.List.{flat_map, join_with_byte, list_any};
ghost use Rattle.tql_result_laws.specs.Csv.{is_sign as sign_of, is_quoted as quoted_of, text_field, field, csv_line};
ghost use Rattle.tql_result_laws.specs.Csv.{csv_text};
ghost use Rattle.tql_value.specs.Views.{datum_of_value, datum_of_view, row_of};
ghost use Rattle.tql_value.specs.Points.{IsPrintable, ArePrintable};
ghost use Rattle.tql_result.specs.Devices.{Pushes, held};
ghost use Rattle.tql_result.specs.Replies.{table_rows, headings_of};

use tql_memory::Memory;
use tql_result::device::DeviceFault;
use tql_result::number::push_int;
use tql_result::pieces::push_all;
use tql_result::point::{push_day, push_moment};
use tql_result::quoted::push_quoted;
use tql_result::sink::Sink;
use tql_value::value::{ResultTable, Value, View};

/// Whether the byte is a comma, a quote, a carriage return or a line feed.
fn is_sign(byte: u8) -> bool
    ensures { result ≡ sign_of byte }
{
    byte == b',' || byte == b'"' || byte == b'\r' || byte == b'\n'
}

/// Whether a text contains a comma, a quote, a carriage return or a line feed.
fn has_sign(text: &[u8]) -> bool
    ensures { result ≡ list_any sign_of text.now }
{
    text.iter().any(|byte| is_sign(*byte))
}

/// Whether a text needs quotes: it is empty, or contains a comma, a quote, a carriage return or a line feed.
#[tactic(auto, using(crate::proofs::Quoting::quoted_empty, crate::proofs::Quoting::quoted_some))]
fn is_quoted(text: &[u8]) -> bool
    ensures { result ≡ quoted_of text.now }
{
    text.is_empty() || has_sign(text)
}

/// Pushes a text as a field.
fn push_text<S: Sink>(sink: &mut S, text: &[u8]) -> Result<(), DeviceFault>
    ensures { Pushes (text_field text.now) result
        (held S.written S.kept sink.old) (held S.written S.kept sink.new) (S.failures sink.old) (S.failures sink.new) }
{
    if is_quoted(text) {
        push_quoted(sink, b'"', text)
    } else {
        push_all(sink, text)
    }
}

/// Pushes a value as a field.
fn push_field<S: Sink>(sink: &mut S, cell: View<'_>) -> Result<(), DeviceFault>
    requires { IsPrintable (datum_of_view cell) }
    ensures { Pushes (field (datum_of_view cell.entry)) result
        (held S.written S.kept sink.old) (held S.written S.kept sink.new) (S.failures sink.old) (S.failures sink.new) }
{
    match cell {
        View::Null => Ok(()),
        View::Int(number) => push_int(sink, number),
        View::Text(text) => push_text(sink, text.as_bytes()),
        View::Day(day) => push_day(sink, day),
        View::Moment(moment) => push_moment(sink, b' ', moment),
    }
}

/// Pushes a heading that is not the first, after a comma.
fn push_next_heading<S: Sink>(sink: &mut S, name: &str) -> Result<(), DeviceFault>
    ensures { Pushes (44 ∷ text_field name.now) result
        (held S.written S.kept sink.old) (held S.written S.kept sink.new) (S.failures sink.old) (S.failures sink.new) }
{
    push_all(sink, b",")?;
    push_text(sink, name.as_bytes())
}

/// Pushes headings, each after a comma.
fn push_next_headings<S: Sink>(sink: &mut S, names: &[String<Memory>]) -> Result<(), DeviceFault>
    ensures { Pushes (flat_map (λ n. 44 ∷ text_field (string_bytes n)) names.now) result
        (held S.written S.kept sink.old) (held S.written S.kept sink.new) (S.failures sink.old) (S.failures sink.new) }
{
    for name in names {
        push_next_heading(sink, name.as_str())?;
    }
    Ok(())
}

/// Pushes headings, separated by commas.
fn push_joined_headings<S: Sink>(sink: &mut S, names: &[String<Memory>]) -> Result<(), DeviceFault>
    ensures { Pushes (join_with_byte 44 (map text_field (map string_bytes names.now))) result
        (held S.written S.kept sink.old) (held S.written S.kept sink.new) (S.failures sink.old) (S.failures sink.new) }
{
    match names.split_first() {
        None => Ok(()),
        Some((first, others)) => {
            push_text(sink, first.as_bytes())?;
            push_next_headings(sink, others)
        }
    }
}

/// Pushes the line of the headings.
fn push_headings<S: Sink>(sink: &mut S, names: &[String<Memory>]) -> Result<(), DeviceFault>
    ensures { Pushes (csv_line (map text_field (map string_bytes names.now))) result
        (held S.written S.kept sink.old) (held S.written S.kept sink.new) (S.failures sink.old) (S.failures sink.new) }
{
    push_joined_headings(sink, names)?;
    push_all(sink, b"\r\n")
}

/// Pushes a value that is not the first of its row, after a comma.
fn push_next_field<S: Sink>(sink: &mut S, cell: &Value) -> Result<(), DeviceFault>
    requires { IsPrintable (datum_of_value cell.now) }
    ensures { Pushes (44 ∷ field (datum_of_value cell.now)) result
        (held S.written S.kept sink.old) (held S.written S.kept sink.new) (S.failures sink.old) (S.failures sink.new) }
{
    push_all(sink, b",")?;
    push_field(sink, cell.view())
}

/// Pushes values, each after a comma.
fn push_next_fields<S: Sink>(sink: &mut S, cells: &[Value]) -> Result<(), DeviceFault>
    requires { All (λ v. IsPrintable (datum_of_value v)) cells.now }
    ensures { Pushes (flat_map (λ v. 44 ∷ field (datum_of_value v)) cells.now) result
        (held S.written S.kept sink.old) (held S.written S.kept sink.new) (S.failures sink.old) (S.failures sink.new) }
{
    for cell in cells {
        push_next_field(sink, cell)?;
    }
    Ok(())
}

/// Pushes values, separated by commas.
fn push_joined_fields<S: Sink>(sink: &mut S, cells: &[Value]) -> Result<(), DeviceFault>
    requires { All (λ v. IsPrintable (datum_of_value v)) cells.now }
    ensures { Pushes (join_with_byte 44 (map field (row_of cells.now))) result
        (held S.written S.kept sink.old) (held S.written S.kept sink.new) (S.failures sink.old) (S.failures sink.new) }
{
    match cells.split_first() {
        None => Ok(()),
        Some((first, others)) => {
            push_field(sink, first.view())?;
            push_next_fields(sink, others)
        }
    }
}

/// Pushes the line of a row.
fn push_row<S: Sink>(sink: &mut S, cells: &[Value]) -> Result<(), DeviceFault>
    requires { All (λ v. IsPrintable (datum_of_value v)) cells.now }
    ensures { Pushes (csv_line (map field (row_of cells.now))) result
        (held S.written S.kept sink.old) (held S.written S.kept sink.new) (S.failures sink.old) (S.failures sink.new) }
{
    push_joined_fields(sink, cells)?;
    push_all(sink, b"\r\n")
}

/// Pushes the lines of the rows.
fn push_rows<S: Sink>(sink: &mut S, rows: &[Vec<Value, Memory>]) -> Result<(), DeviceFault>
    requires { All (λ r. All (λ v. IsPrintable (datum_of_value v)) r.items) rows.now }
    ensures { Pushes (flat_map (λ r. csv_line (map field (row_of r.items))) rows.now) result
        (held S.written S.kept sink.old) (held S.written S.kept sink.new) (S.failures sink.old) (S.failures sink.new) }
{
    for row in rows {
        push_row(sink, row.as_slice())?;
    }
    Ok(())
}

/// Pushes a table as comma-separated values (RFC 4180): a line of its headings and a line for each row, each ended by
/// CR LF. NULL is an empty field. A text is in `"`, with each `"` in it doubled, if it is empty or contains a comma,
/// `"`, CR or LF; other texts are bare. Numbers, dates and timestamps are written as by `write_cell`. Allocates no
/// memory. After an error a prefix of the text has been pushed.
pub fn write_csv_table<S: Sink>(sink: &mut S, table: &ResultTable) -> Result<(), DeviceFault>
    requires { ArePrintable (table_rows table.now) }
    ensures { Pushes (csv_text (headings_of table.now) (table_rows table.now)) result
        (held S.written S.kept sink.old) (held S.written S.kept sink.new) (S.failures sink.old) (S.failures sink.new) }
{
    push_headings(sink, table.headings.as_slice())?;
    push_rows(sink, table.rows.as_slice())
}
