//! Parses the texts of DATE and TIMESTAMP literals.
ghost use Rattle.std.specs.Prelude.{◌≡◌, ◌+◌, ◌*◌, ◌<◌, ◌≤◌, ◌^◌, length, drop, IsTrue, IfSome, All, Some, None};
ghost use Rattle.std.specs.Prelude.{if◌then◌else◌, pos, ◌-ℤ◌, ◌&&◌, ◌-◌, ◌++◌, slice_index, replicate};
ghost use Rattle.std.specs.List.{list_all};
ghost use Rattle.tql_spec.specs.Calendar.{is_digit, number_of, digits_at as digits, has_byte_at as stands};
ghost use Rattle.tql_spec.specs.Calendar.{days_at_start, day_count, read_date as date_read};
ghost use Rattle.tql_spec.specs.Calendar.{read_fraction as fraction_read, micros_of, micros_of_time, day_length};
ghost use Rattle.tql_spec.specs.Calendar.{read_timestamp as timestamp_read};
ghost use Rattle.tql_value.specs.Literals.{time_read};
ghost use Rattle.tql_value.specs.Points.{IsDay, IsMoment};

use crate::calendar::{DAY_LENGTH, FIRST_DAY, FIRST_MOMENT, days_to_date};

/// Returns the number that up to four bytes spell, if all of them are ASCII digits.
fn number_of_digits(bytes: &[u8]) -> Option<u16>
    requires { length bytes.now ≤ 4 }
    ensures { result ≡ (if list_all is_digit bytes.now then Some (number_of bytes.now) else None) }
{
    let mut number = 0;
    for byte in bytes {
        if !byte.is_ascii_digit() {
            return None;
        }
        number = number * 10 + u16::from(*byte - b'0');
    }
    Some(number)
}

/// Returns the number that `count` bytes from `start` on spell, if they all exist and are digits.
fn digits_at(bytes: &[u8], start: usize, count: usize) -> Option<u16>
    requires near { start ≤ 20 }
    requires some { 0 < count }
    requires short { count ≤ 4 }
    ensures { result ≡ digits bytes.now start count }
{
    let part = bytes.get(start..start + count)?;
    number_of_digits(part)
}

/// Returns the bytes from a position on.
fn rest_from(bytes: &[u8], place: usize) -> &[u8]
    ensures { result.now ≡ drop place bytes.now }
{
    bytes.get(place..).unwrap_or(&[])
}

/// Whether this byte, which is not 0, is at this position.
fn has_byte_at(bytes: &[u8], place: usize, byte: u8) -> bool
    requires { 0 < byte }
    ensures { result ≡ stands bytes.now place byte }
{
    match bytes.get(place) {
        Some(found) => *found == byte,
        None => false,
    }
}

/// Parses the date `YYYY-MM-DD` at the start of the bytes. Returns days since 0001-01-01.
fn date_at_start(bytes: &[u8]) -> Option<u32>
    ensures value { result ≡ days_at_start bytes.now }
    ensures within { IfSome result (λ days. days < day_count) }
{
    let year = digits_at(bytes, 0, 4)?;
    let month = digits_at(bytes, 5, 2)?;
    let day = digits_at(bytes, 8, 2)?;
    if has_byte_at(bytes, 4, b'-') && has_byte_at(bytes, 7, b'-') {
        days_to_date(year, month, day)
    } else {
        None
    }
}

/// Parses the text of a DATE literal, `YYYY-MM-DD`. Returns days since 1970-01-01. Returns `None` if the text has
/// another form, or if the Gregorian calendar has no such date from the year 1 to the year 9999 (ISO/IEC 9075-2:2011,
/// 5.3).
pub fn read_date(text: &str) -> Option<i64>
    ensures value { result ≡ date_read text.now }
    ensures within { IfSome result IsDay }
{
    if text.len() != 10 {
        return None;
    }
    let days = date_at_start(text.as_bytes())?;
    Some(i64::from(days) + FIRST_DAY)
}

/// Whether all bytes are ASCII digits.
fn are_digits(bytes: &[u8]) -> bool
    ensures { result ≡ list_all is_digit bytes.now }
{
    bytes.iter().all(|byte| byte.is_ascii_digit())
}

/// Returns the digit at one of six positions, or 0 past the last digit.
fn digit_or_zero(digits: &[u8], place: usize) -> u8
    requires digits { IsTrue (list_all is_digit digits.now) }
    requires within { place < 6 }
    ensures value { result ≡ slice_index (digits.now ++ replicate 6 48) place - 48 }
    ensures digit { IsTrue (is_digit (slice_index (digits.now ++ replicate 6 48) place)) }
{
    match digits.get(place) {
        Some(byte) => *byte - b'0',
        None => 0,
    }
}

/// Returns the microseconds of a fraction: its first six digits, filled with zeros on the right.
fn micros_of_digits(digits: &[u8]) -> u32
    requires { IsTrue (list_all is_digit digits.now) }
    ensures value { result ≡ micros_of digits.now }
    ensures within { result < 1_000_000 }
{
    let mut micros = 0;
    for place in 0..6 {
        micros = micros * 10 + u32::from(digit_or_zero(digits, place));
    }
    micros
}

/// Parses a fraction: nothing, or a point and 1 to 12 digits. Returns microseconds.
fn fraction_at_end(bytes: &[u8]) -> Option<u32>
    ensures value { result ≡ fraction_read bytes.now }
    ensures within { IfSome result (λ micros. micros < 1_000_000) }
{
    match bytes {
        [] => Some(0),
        [point, digits @ ..] => {
            if *point == b'.' && are_digits(digits) && 1 <= digits.len() && digits.len() <= 12 {
                Some(micros_of_digits(digits))
            } else {
                None
            }
        }
    }
}

/// Returns the microseconds of a time of day, if the clock has it.
fn time_of_day(hour: u16, minute: u16, second: u16, fraction: u32) -> Option<u64>
    requires { fraction < 1_000_000 }
    ensures value { result ≡ micros_of_time hour minute second fraction }
    ensures within { IfSome result (λ micros. micros < day_length) }
{
    if hour < 24 && minute < 60 && second < 60 {
        let seconds = (u64::from(hour) * 60 + u64::from(minute)) * 60 + u64::from(second);
        Some(seconds * 1_000_000 + u64::from(fraction))
    } else {
        None
    }
}

/// Whether the separators of a time are in place: a blank before it, and `:` after hour and minute.
fn has_signs_of_time(bytes: &[u8]) -> bool
    ensures { result ≡ (stands bytes.now 10 32 && stands bytes.now 13 58 && stands bytes.now 16 58) }
{
    has_byte_at(bytes, 10, b' ') && has_byte_at(bytes, 13, b':') && has_byte_at(bytes, 16, b':')
}

/// Parses the time `HH:MM:SS`, with or without a fraction, at the end of the bytes of a TIMESTAMP literal. Returns
/// microseconds.
fn time_at_end(bytes: &[u8]) -> Option<u64>
    ensures value { result ≡ time_read bytes.now }
    ensures within { IfSome result (λ micros. micros < day_length) }
{
    let hour = digits_at(bytes, 11, 2)?;
    let minute = digits_at(bytes, 14, 2)?;
    let second = digits_at(bytes, 17, 2)?;
    let fraction = fraction_at_end(rest_from(bytes, 19))?;
    let micros = time_of_day(hour, minute, second, fraction)?;
    if has_signs_of_time(bytes) {
        Some(micros)
    } else {
        None
    }
}

/// Parses the text of a TIMESTAMP literal, `YYYY-MM-DD HH:MM:SS`, optionally with a point and 1 to 12 digits. Returns
/// microseconds since 1970-01-01 00:00:00. Digits past the sixth are dropped. Returns `None` if the text has another
/// form or there is no such moment from the year 1 to the year 9999 (ISO/IEC 9075-2:2011, 5.3; dropping the digits is
/// this project's choice).
pub fn read_timestamp(text: &str) -> Option<i64>
    ensures value { result ≡ timestamp_read text.now }
    ensures within { IfSome result IsMoment }
{
    let days = date_at_start(text.as_bytes())?;
    let micros = time_at_end(text.as_bytes())?;
    Some((u64::from(days) * DAY_LENGTH + micros) as i64 + FIRST_MOMENT)
}
