//! Lines about rows in their packed form.
use crate::line::Line;
use crate::parts::{row as values, view, write_view};
use crate::stop::Stop;
use std::alloc::AllocError;
use tql_memory::Memory;
use tql_row::row::Row;
use tql_value::value::View;

/// Parses values with `, ` between them, or none.
fn views(memory: Memory, text: &str) -> Result<Vec<View<'_>, Memory>, Stop> {
    let mut views = Vec::new(memory);
    for part in text.split(", ") {
        if !part.is_empty() {
            views.push(view(part)?)?;
        }
    }
    Ok(views)
}

/// Writes the number of columns, the value of each, and the value that a column after them has.
fn write_row(out: &mut String, row: &Row) -> Result<(), AllocError> {
    write!(out, "{}: ", row.width())?;
    for place in 0..row.width() {
        write_view(out, row.column(place))?;
        out.push_str(", ")?;
    }
    out.push_str("then ")?;
    write_view(out, row.column(row.width()))
}

/// Makes a row of these values.
fn row(memory: Memory, text: &str) -> Result<Row, Stop> {
    let views = views(memory, text)?;
    Ok(Row::of(memory, &views)?)
}

/// Makes a copy of a row that is made of owned values.
fn copy(memory: Memory, text: &str) -> Result<Row, Stop> {
    let values = values(memory, text)?;
    let row = Row::of_values(memory, &values)?;
    Ok(row.clone()?)
}

/// Writes how many bytes a row takes, and how many of them are in a block.
fn write_bytes(out: &mut String, memory: Memory, views: &[View<'_>]) -> Result<(), Stop> {
    let before = memory.in_use();
    let _row = Row::of(memory, views)?;
    let block = memory.in_use().saturating_sub(before);
    write!(out, "{} and {block}", size_of::<Row>())?;
    Ok(())
}

/// Answers a line about rows.
pub fn answer(memory: Memory, line: &Line<'_>, out: &mut String) -> Result<(), Stop> {
    match line.command {
        "row" => Ok(write_row(out, &row(memory, line.input)?)?),
        "copy" => Ok(write_row(out, &copy(memory, line.input)?)?),
        "empty" => Ok(write_row(out, &Row::empty(memory))?),
        "bytes" => write_bytes(out, memory, &views(memory, line.input)?),
        _ => Err(Stop::Form),
    }
}
