//! The text of a table at a terminal.
ghost use Rattle.std.specs.Prelude.{◌≡◌, List, ℕ, All, map, string_bytes};
ghost use Rattle.tql_value.specs.Points.{IsPrintable, ArePrintable};
ghost use Rattle.tql_value.specs.Views.{datum_of_value};
ghost use Rattle.tql_result.specs.Devices.{Pushes, held};
ghost use Rattle.tql_result.specs.Replies.{table_rows, headings_of};
ghost use Rattle.tql_terminal.specs.Dashes.{dashed_row};
ghost use Rattle.tql_terminal.specs.Terminal.{IsShown, fitting};

use crate::layout::{has_room, shown_layouts};
use crate::lines::push_lines;
use crate::records::push_records;
use tql_memory::Memory;
use tql_result::device::DeviceFault;
use tql_result::sink::Sink;
use tql_result_box::layout::Layout;
use tql_value::value::{ResultTable, Value};

/// Pushes a table with these column layouts: in a box, or as records if the terminal is not as wide as a box.
fn push_fitting<S: Sink>(
    sink: &mut S,
    width: usize,
    layouts: &[Layout],
    names: &[String<Memory>],
    rows: &[Vec<Value, Memory>],
) -> Result<(), DeviceFault>
    requires { All (λ r. All (λ v. IsPrintable (datum_of_value v)) r.items) rows.now }
    ensures { Pushes (fitting width layouts.now (map string_bytes names.now) (map (λ r. dashed_row r.items) rows.now))
        result (held S.written S.kept sink.old) (held S.written S.kept sink.new)
        (S.failures sink.old) (S.failures sink.new) }
{
    if has_room(layouts, width) {
        push_lines(sink, layouts, names, rows)
    } else {
        push_records(sink, names, rows)
    }
}

/// Pushes a table for a terminal of this width: in a box as `write_box_table` does, or, if it has no room there, as
/// records, a line for each column below a line with the number of the row. The highest moment, 9999-12-31
/// 23:59:59.999999, is shown as `-`. `memory` holds the column widths during the call. If their memory is refused, the
/// table is in a box, and its columns are not aligned.
///
/// # Errors
///
/// Fails if the sink fails. A prefix of the text has then been pushed.
pub fn write_table<S: Sink>(
    memory: Memory,
    sink: &mut S,
    table: &ResultTable,
    width: usize,
) -> Result<(), DeviceFault>
    requires { ArePrintable (table_rows table.now) }
    ensures { (text : List ℕ) × IsShown width (headings_of table.now) (table_rows table.now) text
        × Pushes text result
        (held S.written S.kept sink.old) (held S.written S.kept sink.new) (S.failures sink.old) (S.failures sink.new) }
{
    let names = table.headings.as_slice();
    let rows = table.rows.as_slice();
    match shown_layouts(memory, table) {
        Ok(layouts) => push_fitting(sink, width, layouts.as_slice(), names, rows),
        Err(_) => push_lines(sink, &[], names, rows),
    }
}
