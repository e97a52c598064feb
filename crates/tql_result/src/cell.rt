//! The text of a value, and which values can be printed.
ghost use Rattle.std.specs.Prelude.{◌↔◌, IsTrue};
ghost use Rattle.tql_spec.specs.Text.{cell_text};
ghost use Rattle.tql_value.specs.Views.{datum_of_view};
ghost use Rattle.tql_result.specs.Devices.{Pushes, held};
ghost use Rattle.tql_value.specs.Points.{IsPrintable};

use crate::device::DeviceFault;
use crate::number::push_int;
use crate::pieces::push_all;
use crate::point::{push_day, push_moment};
use crate::quoted::push_quoted;
use crate::sink::Sink;
use tql_value::calendar::{is_day, is_moment};
use tql_value::value::View;

/// Whether a value can be printed, as `write_cell` requires: a date or a timestamp must be in the years 1 to 9999.
pub fn is_printable(cell: View<'_>) -> bool
    ensures { IsTrue result ↔ IsPrintable (datum_of_view cell.entry) }
{
    match cell {
        View::Day(day) => is_day(day),
        View::Moment(moment) => is_moment(moment),
        _ => true,
    }
}

/// Pushes a value as printed: `NULL`, a number in decimal, or a text in `'` with each `'` doubled. A date is
/// `YYYY-MM-DD`. A timestamp is `YYYY-MM-DD HH:MM:SS`, followed by a point and six digits unless its microseconds are
/// zero (a choice of this project). Allocates no memory. After an error a prefix of the text has been pushed.
pub fn write_cell<S: Sink>(sink: &mut S, cell: View<'_>) -> Result<(), DeviceFault>
    requires { IsPrintable (datum_of_view cell) }
    ensures { Pushes (cell_text (datum_of_view cell.entry)) result
        (held S.written S.kept sink.old) (held S.written S.kept sink.new) (S.failures sink.old) (S.failures sink.new) }
{
    match cell {
        View::Null => push_all(sink, b"NULL"),
        View::Int(number) => push_int(sink, number),
        View::Text(text) => push_quoted(sink, b'\'', text.as_bytes()),
        View::Day(day) => push_day(sink, day),
        View::Moment(moment) => push_moment(sink, b' ', moment),
    }
}
