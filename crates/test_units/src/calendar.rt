//! Lines about date and timestamp literals, and the parts of days and moments.
use crate::line::Line;
use crate::parts::int;
use crate::stop::Stop;
use std::alloc::AllocError;
use tql_value::calendar::{day_parts, is_day, is_moment, moment_parts};
use tql_value::literal::{read_date, read_timestamp};

fn write_number(out: &mut String, number: Option<i64>) -> Result<(), AllocError> {
    match number {
        Some(number) => write!(out, "{number}"),
        None => out.push_str("none"),
    }
}

/// Writes numbers, each with a blank after it.
fn write_numbers(out: &mut String, numbers: &[i64]) -> Result<(), AllocError> {
    for number in numbers {
        write!(out, "{number} ")?;
    }
    Ok(())
}

fn write_day(out: &mut String, day: i64) -> Result<(), AllocError> {
    if !is_day(day) {
        return write_number(out, None);
    }
    let parts = day_parts(day);
    let numbers = [parts.year as i64, parts.month as i64, parts.day as i64];
    write_numbers(out, &numbers)
}

fn write_moment(out: &mut String, moment: i64) -> Result<(), AllocError> {
    if !is_moment(moment) {
        return write_number(out, None);
    }
    let parts = moment_parts(moment);
    let numbers = [
        parts.year as i64,
        parts.month as i64,
        parts.day as i64,
        parts.hour as i64,
        parts.minute as i64,
        parts.second as i64,
        parts.microsecond as i64,
    ];
    write_numbers(out, &numbers)
}

/// Answers a line about the calendar.
pub fn answer(line: &Line<'_>, out: &mut String) -> Result<(), Stop> {
    Ok(match line.command {
        "date" => write_number(out, read_date(line.input))?,
        "timestamp" => write_number(out, read_timestamp(line.input))?,
        "day" => write_day(out, int(line.input)?)?,
        "moment" => write_moment(out, int(line.input)?)?,
        _ => return Err(Stop::Form),
    })
}
