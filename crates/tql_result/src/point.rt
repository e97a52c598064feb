//! The text of dates and timestamps.
ghost use Rattle.std.specs.Prelude.{◌<◌, ◌∷◌, ◌++◌};
ghost use Rattle.tql_spec.specs.Calendar.{moment_day, moment_micros};
ghost use Rattle.tql_spec.specs.Datum.{Day};
ghost use Rattle.tql_spec.specs.Text.{cell_text, date_text, time_text, fraction_text};
ghost use Rattle.tql_value.specs.Points.{IsDay, IsMoment};
ghost use Rattle.tql_result.specs.Devices.{Pushes, held};

use crate::device::DeviceFault;
use crate::number::{clock_bytes, date_bytes, fraction_bytes};
use crate::pieces::push_all;
use crate::sink::Sink;
use tql_value::calendar::{day_parts, moment_parts};

/// Pushes a date, given in days since 1970-01-01, as `YYYY-MM-DD`.
pub fn push_day<S: Sink>(sink: &mut S, day: i64) -> Result<(), DeviceFault>
    requires { IsDay day }
    ensures { Pushes (cell_text (Day day)) result
        (held S.written S.kept sink.old) (held S.written S.kept sink.new) (S.failures sink.old) (S.failures sink.new) }
{
    let parts = day_parts(day);
    push_all(sink, &date_bytes(parts.year, parts.month, parts.day))
}

/// Pushes a point and six digits, unless the microseconds of the second are zero.
fn push_fraction<S: Sink>(sink: &mut S, micros: u32) -> Result<(), DeviceFault>
    requires { micros < 1000000 }
    ensures { Pushes (fraction_text micros) result
        (held S.written S.kept sink.old) (held S.written S.kept sink.new) (S.failures sink.old) (S.failures sink.new) }
{
    if micros == 0 {
        Ok(())
    } else {
        push_all(sink, &fraction_bytes(micros))
    }
}

/// Pushes a timestamp, given in microseconds since 1970-01-01 00:00:00: `YYYY-MM-DD`, the byte `parter`, `HH:MM:SS`,
/// and the fraction of the second unless it is zero.
pub fn push_moment<S: Sink>(sink: &mut S, parter: u8, moment: i64) -> Result<(), DeviceFault>
    requires { IsMoment moment }
    ensures { Pushes (date_text (moment_day moment) ++ parter ∷ time_text (moment_micros moment)) result
        (held S.written S.kept sink.old) (held S.written S.kept sink.new) (S.failures sink.old) (S.failures sink.new) }
{
    let parts = moment_parts(moment);
    push_all(sink, &date_bytes(parts.year, parts.month, parts.day))?;
    push_all(
        sink,
        &clock_bytes(parter, parts.hour, parts.minute, parts.second),
    )?;
    push_fraction(sink, parts.microsecond)
}
