//! Lines about the parts of periods, their points, and coverage.
use crate::line::Line;
use crate::parts::{int, mark, period, sides, two};
use crate::stop::Stop;
use std::alloc::AllocError;
use tql_memory::Memory;
use tql_period::coverage::{covers, starts_rise};
use tql_period::period::Period;
use tql_period::pieces::split;

/// Writes the ends of a period, or a dash if there is none.
fn write_period(out: &mut String, period: Option<Period>) -> Result<(), AllocError> {
    match period {
        Some(period) => write!(out, "{} {}", period.start, period.end),
        None => out.push('-'),
    }
}

/// Writes the parts into which a portion cuts a period.
fn cut(out: &mut String, input: &str) -> Result<(), Stop> {
    let (whole, portion) = sides(input)?;
    let pieces = split(period(whole)?, period(portion)?);
    write_period(out, pieces.before)?;
    out.push_str(", ")?;
    write_period(out, pieces.inside)?;
    out.push_str(", ")?;
    write_period(out, pieces.after)?;
    Ok(())
}

/// Writes with which of some periods a period shares a point.
fn shares(out: &mut String, input: &str) -> Result<(), Stop> {
    let (one, others) = sides(input)?;
    let one = period(one)?;
    for other in others.split(", ") {
        out.push(mark(one.shares_a_point(period(other)?)))?;
    }
    Ok(())
}

/// Writes which of some points lie in a period.
fn holds(out: &mut String, input: &str) -> Result<(), Stop> {
    let (one, points) = sides(input)?;
    let one = period(one)?;
    for point in points.split(' ') {
        out.push(mark(one.holds(int(point)?)))?;
    }
    Ok(())
}

/// Writes the period with two ends, if they rise.
fn rising(out: &mut String, input: &str) -> Result<(), Stop> {
    let (start, end) = two(input)?;
    write_period(out, Period::new(int(start)?, int(end)?))?;
    Ok(())
}

/// Parses periods with `, ` between them, or none.
fn periods(memory: Memory, text: &str) -> Result<Vec<Period, Memory>, Stop> {
    let mut periods = Vec::new(memory);
    for part in text.split(", ") {
        if part != "none" {
            periods.push(period(part)?)?;
        }
    }
    Ok(periods)
}

/// Writes whether some periods cover another one, if their starts rise.
fn write_covered(out: &mut String, parts: &[Period], whole: Period) -> Result<(), AllocError> {
    if !starts_rise(parts) {
        return out.push_str("falling");
    }
    out.push(mark(covers(parts, whole)))
}

/// Writes which of some periods are covered by others.
fn coverage(out: &mut String, memory: Memory, input: &str) -> Result<(), Stop> {
    let (parts, wholes) = sides(input)?;
    let parts = periods(memory, parts)?;
    for whole in wholes.split(", ") {
        write_covered(out, &parts, period(whole)?)?;
    }
    Ok(())
}

/// Answers a line about periods.
pub fn answer(memory: Memory, line: &Line<'_>, out: &mut String) -> Result<(), Stop> {
    match line.command {
        "split" => cut(out, line.input),
        "shares" => shares(out, line.input),
        "holds" => holds(out, line.input),
        "period" => rising(out, line.input),
        "covers" => coverage(out, memory, line.input),
        _ => Err(Stop::Form),
    }
}
