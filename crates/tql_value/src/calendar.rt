//! The Gregorian calendar: days and moments as numbers, and their parts.
ghost use Rattle.std.specs.Prelude.{◌≡◌, ◌↔◌, ◌/◌, ◌%◌, ◌<◌, IsTrue, IfSome, MatchOption, Some, false};
ghost use Rattle.tql_spec.specs.Calendar.{is_date, days_after_start, where_true, date_after_start, day_count};
ghost use Rattle.tql_spec.specs.Calendar.{day_parts as parts_of_day, moment_day, moment_micros, micros_of_time};
ghost use Rattle.tql_value.specs.JiffDate.{HasParts, IsDateOf};
ghost use Rattle.tql_value.specs.Points.{IsDay, IsMoment};

use jiff::civil::{Date, date};

/// The first day, 0001-01-01, in days since 1970-01-01.
pub(crate) const FIRST_DAY: i64 = -719_162;

/// The last day, 9999-12-31, in days since 1970-01-01.
pub(crate) const LAST_DAY: i64 = 2_932_896;

/// The first moment, 0001-01-01 00:00:00, in microseconds since 1970-01-01 00:00:00.
pub const FIRST_MOMENT: i64 = -62_135_596_800_000_000;

/// The last moment, 9999-12-31 23:59:59.999999, in microseconds since 1970-01-01 00:00:00.
pub const HIGH: i64 = 253_402_300_799_999_999;

/// The number of microseconds in a day.
pub(crate) const DAY_LENGTH: u64 = 86_400_000_000;

/// A date of the Gregorian calendar.
#[derive(Clone, Copy, PartialEq, Eq, Debug)]
pub struct DayParts {
    /// The year, from 1 to 9999.
    pub year: u16,
    /// The month, from 1 to 12.
    pub month: u8,
    /// The day of the month, from 1.
    pub day: u8,
}

/// A date of the Gregorian calendar with a time of the day.
#[derive(Clone, Copy, PartialEq, Eq, Debug)]
pub struct MomentParts {
    /// The year, from 1 to 9999.
    pub year: u16,
    /// The month, from 1 to 12.
    pub month: u8,
    /// The day of the month, from 1.
    pub day: u8,
    /// The hour, from 0 to 23.
    pub hour: u8,
    /// The minute, from 0 to 59.
    pub minute: u8,
    /// The second, from 0 to 59.
    pub second: u8,
    /// The microsecond, from 0 to 999,999.
    pub microsecond: u32,
}

/// Whether a number of days since 1970-01-01 is a day from 0001-01-01 to 9999-12-31.
pub fn is_day(day: i64) -> bool
    ensures { IsTrue result ↔ IsDay day }
{
    day >= FIRST_DAY && day <= LAST_DAY
}

/// Whether a number of microseconds since 1970-01-01 00:00:00 is a moment from 0001-01-01 00:00:00
/// to 9999-12-31 23:59:59.999999.
pub fn is_moment(moment: i64) -> bool
    ensures { IsTrue result ↔ IsMoment moment }
{
    moment >= FIRST_MOMENT && moment <= HIGH
}

/// Returns the date of these parts, if the calendar has it.
fn date_of(year: u16, month: u16, day: u16) -> Option<Date>
    ensures { MatchOption result (is_date year month day ≡ false) (IsDateOf year month day) }
{
    if year == 0 {
        return None;
    }
    let year = i16::try_from(year).ok()?;
    let month = i8::try_from(month).ok()?;
    let day = i8::try_from(day).ok()?;
    Date::new(year, month, day).ok()
}

/// Returns the number of days from 0001-01-01 to a date, if the calendar has the date.
pub(crate) fn days_to_date(year: u16, month: u16, day: u16) -> Option<u32>
    ensures value { result ≡ where_true (is_date year month day) (Some (days_after_start year month day)) }
    ensures within { IfSome result (λ days. days < day_count) }
{
    let date = date_of(year, month, day)?;
    let number = date.to_plain().to_unix_epoch_day();
    Some((i64::from(number) - FIRST_DAY) as u32)
}

/// Returns the date that is `days` days after 0001-01-01, as `jiff` represents it.
fn date_after(days: u64) -> Date
    requires { days < day_count }
    ensures { HasParts result (date_after_start days) }
{
    let first = date(1, 1, 1).to_plain();
    let found = first.checked_add(days as i64).unwrap();
    Date::from_plain(found)
}

/// Returns the parts of the date that is `days` days after 0001-01-01.
fn parts_after(days: u64) -> DayParts
    requires { days < day_count }
    ensures date { (result.year, result.month, result.day) ≡ date_after_start days }
    ensures valid { IsTrue (is_date result.year result.month result.day) }
{
    let date = date_after(days);
    DayParts {
        year: date.year() as u16,
        month: date.month() as u8,
        day: date.day() as u8,
    }
}

/// Returns the date of a day, given in days since 1970-01-01.
pub fn day_parts(day: i64) -> DayParts
    requires { IsDay day }
    ensures date { (result.year, result.month, result.day) ≡ parts_of_day day }
    ensures valid { IsTrue (is_date result.year result.month result.day) }
{
    parts_after((day - FIRST_DAY) as u64)
}

/// Returns the date and the time of a moment, given in microseconds since 1970-01-01 00:00:00.
pub fn moment_parts(moment: i64) -> MomentParts
    requires { IsMoment moment }
    ensures date { (result.year, result.month, result.day) ≡ moment_day moment }
    ensures valid { IsTrue (is_date result.year result.month result.day) }
    ensures hour { result.hour ≡ moment_micros moment / 1_000_000 / 3600 }
    ensures minute { result.minute ≡ moment_micros moment / 1_000_000 / 60 % 60 }
    ensures second { result.second ≡ moment_micros moment / 1_000_000 % 60 }
    ensures microsecond { result.microsecond ≡ moment_micros moment % 1_000_000 }
    ensures time { micros_of_time result.hour result.minute result.second result.microsecond
        ≡ Some (moment_micros moment) }
{
    let micros = (moment - FIRST_MOMENT) as u64;
    let DayParts { year, month, day } = parts_after(micros / DAY_LENGTH);
    let seconds = micros % DAY_LENGTH / 1_000_000;
    MomentParts {
        year,
        month,
        day,
        hour: (seconds / 3600) as u8,
        minute: (seconds / 60 % 60) as u8,
        second: (seconds % 60) as u8,
        microsecond: (micros % 1_000_000) as u32,
    }
}
