//! The columns and periods of a table, as its CREATE TABLE has them.
use crate::names::{Text, push_name};
use std::alloc::AllocError;
use tql_catalog::definition::Column;
use tql_catalog::table_def::TableDef;
use tql_value::value::Kind;

/// Appends what stands before the next element: a line of its own, after a comma behind an earlier one.
pub(crate) fn push_next(text: &mut Text, is_first: &mut bool) -> Result<(), AllocError> {
    let before = if *is_first { "\n  " } else { ",\n  " };
    *is_first = false;
    text.push_str(before)
}

/// Appends a type.
fn push_type(text: &mut Text, column: &Column) -> Result<(), AllocError> {
    match (column.kind, column.limit) {
        (Kind::Int, _) => text.push_str("INTEGER"),
        (Kind::Day, _) => text.push_str("DATE"),
        (Kind::Moment, _) => text.push_str("TIMESTAMP"),
        (Kind::Text, Some(limit)) => write!(text, "VARCHAR({limit})"),
        (Kind::Text, None) => text.push_str("VARCHAR(1048576)"),
    }
}

/// Returns what is generated in a column, if it is generated.
fn generated(definition: &TableDef, number: usize) -> &'static str {
    match definition.generated() {
        Some((start, _)) if start == number => " GENERATED ALWAYS AS ROW START",
        Some((_, end)) if end == number => " GENERATED ALWAYS AS ROW END",
        _ => "",
    }
}

/// Appends the name of the column of a number, from 0.
pub(crate) fn push_column_name(
    text: &mut Text,
    columns: &[Column],
    number: usize,
) -> Result<(), AllocError> {
    match columns.get(number) {
        Some(column) => push_name(text, column.name.as_str()),
        None => Ok(()),
    }
}

/// Appends the columns.
pub(crate) fn push_columns(
    text: &mut Text,
    definition: &TableDef,
    is_first: &mut bool,
) -> Result<(), AllocError> {
    for (number, column) in definition.columns().iter().enumerate() {
        push_next(text, is_first)?;
        push_name(text, column.name.as_str())?;
        text.push_str(" ")?;
        push_type(text, column)?;
        let generated = generated(definition, number);
        if column.is_required && generated.is_empty() {
            text.push_str(" NOT NULL")?;
        }
        text.push_str(generated)?;
    }
    Ok(())
}

/// Appends the two columns of a period in parentheses.
fn push_ends(
    text: &mut Text,
    columns: &[Column],
    start: usize,
    end: usize,
) -> Result<(), AllocError> {
    text.push_str(" (")?;
    push_column_name(text, columns, start)?;
    text.push_str(", ")?;
    push_column_name(text, columns, end)?;
    text.push_str(")")
}

/// Appends the periods.
pub(crate) fn push_periods(
    text: &mut Text,
    definition: &TableDef,
    is_first: &mut bool,
) -> Result<(), AllocError> {
    if let Some(period) = definition.application() {
        push_next(text, is_first)?;
        text.push_str("PERIOD FOR ")?;
        push_name(text, period.name.as_str())?;
        push_ends(text, definition.columns(), period.start, period.end)?;
    }
    if let Some((start, end)) = definition.generated() {
        push_next(text, is_first)?;
        text.push_str("PERIOD FOR SYSTEM_TIME")?;
        push_ends(text, definition.columns(), start, end)?;
    }
    Ok(())
}
