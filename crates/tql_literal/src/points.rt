//! The texts of dates and timestamps.
ghost use Rattle.std.specs.Prelude.{◌≡◌, ◌<◌, ◌++◌, IfOk, string_bytes};
ghost use Rattle.std.specs.Str.{IsAscii};
ghost use Rattle.tql_spec.specs.Datum.{Day, Moment};
ghost use Rattle.tql_spec.specs.Text.{cell_text, fraction_text};
ghost use Rattle.tql_value.specs.Points.{IsDay, IsMoment};

use std::alloc::AllocError;
use tql_memory::Memory;
use tql_result::number::{clock_bytes, date_bytes, fraction_bytes};
use tql_value::calendar::{day_parts, moment_parts};

/// Appends ASCII bytes to a text.
fn push_ascii(text: &mut String<Memory>, bytes: &[u8]) -> Result<(), AllocError>
    requires { IsAscii bytes.now }
    ensures { IfOk result (λ _. string_bytes text.new ≡ string_bytes text.old ++ bytes.now) }
{
    match str::from_utf8(bytes) {
        Ok(shown) => text.push_str(shown),
        Err(_) => unreachable!(),
    }
}

/// Appends the text of a date to a text.
pub(crate) fn push_day(text: &mut String<Memory>, day: i64) -> Result<(), AllocError>
    requires { IsDay day }
    ensures { IfOk result (λ _. string_bytes text.new ≡ string_bytes text.old ++ cell_text (Day day)) }
{
    let parts = day_parts(day);
    push_ascii(text, &date_bytes(parts.year, parts.month, parts.day))
}

/// Appends a point and six digits to a text, unless the microseconds of the second are zero.
fn push_fraction(text: &mut String<Memory>, micros: u32) -> Result<(), AllocError>
    requires { micros < 1000000 }
    ensures { IfOk result (λ _. string_bytes text.new ≡ string_bytes text.old ++ fraction_text micros) }
{
    if micros == 0 {
        return Ok(());
    }
    push_ascii(text, &fraction_bytes(micros))
}

/// Appends the text of a timestamp to a text.
pub(crate) fn push_moment(text: &mut String<Memory>, moment: i64) -> Result<(), AllocError>
    requires { IsMoment moment }
    ensures { IfOk result (λ _. string_bytes text.new ≡ string_bytes text.old ++ cell_text (Moment moment)) }
{
    let parts = moment_parts(moment);
    push_ascii(text, &date_bytes(parts.year, parts.month, parts.day))?;
    push_ascii(
        text,
        &clock_bytes(b' ', parts.hour, parts.minute, parts.second),
    )?;
    push_fraction(text, parts.microsecond)?;
    Ok(())
}

/// Returns the text of a date, given in days since 1970-01-01: `YYYY-MM-DD`. `read_date` reads it back
/// (`points_read_back`). `is_day` checks whether a number is a date. The only error is a refused allocation.
pub fn date_text(memory: Memory, day: i64) -> Result<String<Memory>, AllocError>
    requires { IsDay day }
    ensures { IfOk result (λ text. string_bytes text ≡ cell_text (Day day)) }
{
    let mut text = String::new(memory);
    push_day(&mut text, day)?;
    Ok(text)
}

/// Returns the text of a timestamp, given in microseconds since 1970-01-01 00:00:00: `YYYY-MM-DD HH:MM:SS`, followed by
/// a point and six digits unless its microseconds are zero. `read_timestamp` reads it back (`points_read_back`).
/// `is_moment` checks whether a number is a timestamp. The only error is a refused allocation.
pub fn timestamp_text(memory: Memory, moment: i64) -> Result<String<Memory>, AllocError>
    requires { IsMoment moment }
    ensures { IfOk result (λ text. string_bytes text ≡ cell_text (Moment moment)) }
{
    let mut text = String::new(memory);
    push_moment(&mut text, moment)?;
    Ok(text)
}
