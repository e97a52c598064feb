//! The text of a table in a box.
ghost use Rattle.std.specs.Prelude.{◌≡◌, ◌⊎◌, List, [], All, map, string_bytes};
ghost use Rattle.tql_value.specs.Points.{IsPrintable, ArePrintable};
ghost use Rattle.tql_value.specs.Views.{datum_of_value, rows_of};
ghost use Rattle.tql_result.specs.Devices.{Pushes, held};
ghost use Rattle.tql_result.specs.Replies.{table_rows, headings_of};
ghost use Rattle.tql_result_box.specs.Box.{rows_end as end_of_count, count_line, head_lines, box_layouts, box_text};

use crate::layout::{Layout, table_layouts};
use crate::lines::{push_headings, push_rows, push_rule};
use tql_memory::Memory;
use tql_result::device::DeviceFault;
use tql_result::number::push_decimal;
use tql_result::pieces::push_all;
use tql_result::sink::Sink;
use tql_value::value::{ResultTable, Value};

/// Returns the rest of the line after the number of rows.
fn rows_end(count: usize) -> &'static [u8]
    ensures { result.now ≡ end_of_count count }
{
    if count == 1 { b" row)\n" } else { b" rows)\n" }
}

/// Pushes the line with the number of rows.
pub fn push_count<S: Sink>(sink: &mut S, count: usize) -> Result<(), DeviceFault>
    ensures { Pushes (count_line count) result
        (held S.written S.kept sink.old) (held S.written S.kept sink.new) (S.failures sink.old) (S.failures sink.new) }
{
    push_all(sink, b"(")?;
    push_decimal(sink, count as u64)?;
    push_all(sink, rows_end(count))
}

/// Pushes the line of the headings, between two lines of the border.
pub fn push_head<S: Sink>(
    sink: &mut S,
    layouts: &[Layout],
    names: &[String<Memory>],
) -> Result<(), DeviceFault>
    ensures { Pushes (head_lines layouts.now (map string_bytes names.now)) result
        (held S.written S.kept sink.old) (held S.written S.kept sink.new) (S.failures sink.old) (S.failures sink.new) }
{
    push_rule(sink, "┌", "┬", "┐", layouts, names)?;
    push_headings(sink, layouts, names)?;
    push_rule(sink, "├", "┼", "┤", layouts, names)
}

/// Pushes a table with these column layouts.
pub fn push_box<S: Sink>(
    sink: &mut S,
    layouts: &[Layout],
    names: &[String<Memory>],
    rows: &[Vec<Value, Memory>],
) -> Result<(), DeviceFault>
    requires { All (λ r. All (λ v. IsPrintable (datum_of_value v)) r.items) rows.now }
    ensures { Pushes (box_text layouts.now (map string_bytes names.now) (rows_of rows.now)) result
        (held S.written S.kept sink.old) (held S.written S.kept sink.new) (S.failures sink.old) (S.failures sink.new) }
{
    push_head(sink, layouts, names)?;
    push_rows(sink, layouts, rows)?;
    push_rule(sink, "└", "┴", "┘", layouts, names)?;
    push_count(sink, rows.len())
}

/// Pushes a table as aligned columns with a border, and the number of its rows. `memory` holds the column widths during
/// the call. If their memory is refused, the columns are not aligned.
///
/// A column is as wide as the widest of its heading and its values. Values are right-aligned if the first value that is
/// not NULL is a number. NULL is shown as `NULL`, and a text without quotes. A control character is shown as `\n`,
/// `\r`, `\t`, or by its number, for example `\u{1b}`.
///
/// # Errors
///
/// Fails if the sink fails. A prefix of the text has then been pushed.
pub fn write_box_table<S: Sink>(
    memory: Memory,
    sink: &mut S,
    table: &ResultTable,
) -> Result<(), DeviceFault>
    requires { ArePrintable (table_rows table.now) }
    ensures { (layouts : List Layout)
        × ((layouts ≡ box_layouts (headings_of table.now) (table_rows table.now)) ⊎ (layouts ≡ []))
        × Pushes (box_text layouts (headings_of table.now) (table_rows table.now)) result
        (held S.written S.kept sink.old) (held S.written S.kept sink.new) (S.failures sink.old) (S.failures sink.new) }
{
    let names = table.headings.as_slice();
    let rows = table.rows.as_slice();
    match table_layouts(memory, table) {
        Ok(layouts) => push_box(sink, layouts.as_slice(), names, rows),
        Err(_) => push_box(sink, &[], names, rows),
    }
}
