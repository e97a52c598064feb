//! Values that a host passes as bytes.
//!
//! | Byte | What it is |
//! |---|---|
//! | 0 | The kind: 0 NULL, 1 a number, 2 a text, 3 a date, 4 a timestamp. |
//! | 1 to 8 | The number, the lowest byte first. Of a date days since 1970-01-01, of a timestamp microseconds. |
//! | 9 and more | Of a text its bytes. Its number says how many there are. |
//!
//! The next value follows.
ghost use Rattle.std.specs.Prelude.{◌≡◌, ◌≤◌, drop, length, IfSome};
ghost use Rattle.tql_value.specs.Points.{IsPrintable};
ghost use Rattle.tql_value.specs.Views.{datum_of_view};
ghost use Rattle.tql_places.specs.Passed.{FillsPassed, Reads, day_passed, first_of, first_passed, moment_passed};
ghost use Rattle.tql_places.specs.Passed.{number_in, passed_as, text_passed, values_passed};

use crate::places::{Unfilled, fill};
use tql_memory::Memory;
use tql_value::calendar::{is_day, is_moment};
use tql_value::value::View;

/// A value, and the bytes after it.
#[derive(Clone, Copy)]
struct First<'a> {
    value: View<'a>,
    rest: &'a [u8],
}

/// Returns the number in the eight bytes after the first one.
fn number_in(bytes: &[u8]) -> u64
    requires { 9 ≤ length bytes.now }
    ensures { result ≡ number_in bytes.now }
{
    u64::from_le_bytes([
        bytes[1], bytes[2], bytes[3], bytes[4], bytes[5], bytes[6], bytes[7], bytes[8],
    ])
}

/// Returns a text of this length. None if there are fewer bytes, or they are not UTF-8.
fn text_passed(length: u64, rest: &[u8]) -> Option<First<'_>>
    ensures { first_of result ≡ text_passed length rest.now }
{
    if length > rest.len() as u64 {
        return None;
    }
    let (text, rest) = rest.split_at(length as usize);
    match str::from_utf8(text) {
        Ok(text) => Some(First {
            value: View::Text(text),
            rest,
        }),
        Err(_) => None,
    }
}

/// Returns a date. None outside the years 1 to 9999.
#[tactic(auto, using(crate::proofs::Values::is_day_test))]
fn day_passed(day: i64, rest: &[u8]) -> Option<First<'_>>
    ensures passed { first_of result ≡ day_passed day rest.now }
    ensures printable { IfSome result (λ f. IsPrintable (datum_of_view f.value)) }
{
    if !is_day(day) {
        return None;
    }
    Some(First {
        value: View::Day(day),
        rest,
    })
}

/// Returns a timestamp. None outside the years 1 to 9999.
#[tactic(auto, using(crate::proofs::Values::is_moment_test))]
fn moment_passed(moment: i64, rest: &[u8]) -> Option<First<'_>>
    ensures passed { first_of result ≡ moment_passed moment rest.now }
    ensures printable { IfSome result (λ f. IsPrintable (datum_of_view f.value)) }
{
    if !is_moment(moment) {
        return None;
    }
    Some(First {
        value: View::Moment(moment),
        rest,
    })
}

/// Returns a value of a kind. None if there is none with this number.
fn passed_as(kind: u8, number: u64, rest: &[u8]) -> Option<First<'_>>
    ensures passed { first_of result ≡ passed_as kind number rest.now }
    ensures printable { IfSome result (λ f. IsPrintable (datum_of_view f.value)) }
{
    match kind {
        0 => Some(First {
            value: View::Null,
            rest,
        }),
        1 => Some(First {
            value: View::Int(number.cast_signed()),
            rest,
        }),
        2 => text_passed(number, rest),
        3 => day_passed(number.cast_signed(), rest),
        4 => moment_passed(number.cast_signed(), rest),
        _ => None,
    }
}

/// Returns the first value of some bytes, if they begin with one.
fn first_passed(bytes: &[u8]) -> Option<First<'_>>
    ensures passed { first_of result ≡ first_passed bytes.now }
    ensures printable { IfSome result (λ f. IsPrintable (datum_of_view f.value)) }
{
    if bytes.len() < 9 {
        return None;
    }
    passed_as(bytes[0], number_in(bytes), &bytes[9..])
}

/// Returns this many values, one after another.
fn values_passed<'a>(
    memory: Memory,
    count: u64,
    bytes: &'a [u8],
) -> Result<Vec<View<'a>, Memory>, Unfilled>
    ensures { Reads (values_passed count bytes.now) result }
{
    let mut values = Vec::new(memory);
    let mut rest = bytes;
    for _ in 0..count {
        let Some(first) = first_passed(rest) else {
            return Err(Unfilled::NoValues);
        };
        values.push(first.value)?;
        rest = first.rest;
    }
    Ok(values)
}

/// Returns the text with the literals of values that are passed as bytes, as `fill` does.
///
/// # Errors
///
/// `NoValues` if the bytes do not begin with this many values: there are too few, a kind is none of these, a text is
/// not UTF-8, or a date or a timestamp is outside the years 1 to 9999. Else those of `fill`.
pub fn fill_passed(
    memory: Memory,
    text: &[u8],
    count: u64,
    bytes: &[u8],
) -> Result<Vec<u8, Memory>, Unfilled>
    ensures { FillsPassed text.now (values_passed count bytes.now) result }
{
    let values = values_passed(memory, count, bytes)?;
    fill(memory, text, values.as_slice())
}
