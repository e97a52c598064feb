//! Parsing and writing of the parts of a line.
use crate::stop::Stop;
use std::alloc::AllocError;
use tql_memory::Memory;
use tql_period::period::Period;
use tql_value::value::{Value, View};

/// Returns the texts on both sides of the first ` | `.
pub fn sides(text: &str) -> Result<(&str, &str), Stop> {
    text.split_once(" | ").ok_or(Stop::Form)
}

/// Parses two parts with a blank between them.
pub fn two(text: &str) -> Result<(&str, &str), Stop> {
    text.split_once(' ').ok_or(Stop::Form)
}

/// Parses a whole number.
pub fn int(text: &str) -> Result<i64, Stop> {
    text.parse().ok().ok_or(Stop::Form)
}

/// Parses a whole number that is not negative.
pub fn count(text: &str) -> Result<usize, Stop> {
    text.parse().ok().ok_or(Stop::Form)
}

/// Parses a period, given by its ends.
pub fn period(text: &str) -> Result<Period, Stop> {
    let (start, end) = two(text)?;
    Period::new(int(start)?, int(end)?).ok_or(Stop::Form)
}

/// Parses a text in quotes.
fn quoted(text: &str) -> Result<View<'_>, Stop> {
    let behind = text.strip_prefix('\'').ok_or(Stop::Form)?;
    let content = behind.strip_suffix('\'').ok_or(Stop::Form)?;
    Ok(View::Text(content))
}

/// Parses a value: `NULL`, a number, `day N`, `moment N`, or a text in quotes, in which a quote is not doubled.
pub fn view(text: &str) -> Result<View<'_>, Stop> {
    if text == "NULL" {
        return Ok(View::Null);
    }
    if let Some(day) = text.strip_prefix("day ") {
        return Ok(View::Day(int(day)?));
    }
    if let Some(moment) = text.strip_prefix("moment ") {
        return Ok(View::Moment(int(moment)?));
    }
    match int(text) {
        Ok(number) => Ok(View::Int(number)),
        Err(_) => quoted(text),
    }
}

/// Writes a value in the form that `view` parses.
pub fn write_view(out: &mut String, view: View<'_>) -> Result<(), AllocError> {
    match view {
        View::Null => out.push_str("NULL"),
        View::Int(number) => write!(out, "{number}"),
        View::Text(text) => write!(out, "'{text}'"),
        View::Day(day) => write!(out, "day {day}"),
        View::Moment(moment) => write!(out, "moment {moment}"),
    }
}

/// Returns the letter of an answer: `Y` or `N`.
pub fn mark(holds: bool) -> char {
    if holds { 'Y' } else { 'N' }
}

/// Parses values with `, ` between them, or none, and copies them.
pub fn row(memory: Memory, text: &str) -> Result<Vec<Value, Memory>, Stop> {
    let mut row = Vec::new(memory);
    for part in text.split(", ") {
        if !part.is_empty() {
            row.push(view(part)?.to_value(memory)?)?;
        }
    }
    Ok(row)
}

/// Parses rows with `; ` between them, or none.
pub fn rows(memory: Memory, text: &str) -> Result<Vec<Vec<Value, Memory>, Memory>, Stop> {
    let mut rows = Vec::new(memory);
    for part in text.split("; ") {
        if !part.is_empty() {
            rows.push(row(memory, part)?)?;
        }
    }
    Ok(rows)
}
