//! Formatting of the column names and keys of a table.
use std::alloc::AllocError;
use tql_catalog::constraint::Key;
use tql_catalog::table_def::TableDef;
use tql_detail::shown::{Words, push_shown};

/// Adds the name of the column with this number.
pub fn push_column(words: &mut Words, table: &TableDef, number: usize) -> Result<(), AllocError> {
    match table.columns().get(number) {
        Some(column) => push_shown(words, column.name.as_str()),
        None => Ok(()),
    }
}

/// Adds the names of columns without the closing parenthesis: `(A, B`.
fn push_open_names(
    words: &mut Words,
    table: &TableDef,
    columns: &[usize],
) -> Result<(), AllocError> {
    let mut before = "(";
    for number in columns {
        words.push_str(before)?;
        push_column(words, table, *number)?;
        before = ", ";
    }
    Ok(())
}

/// Adds the names of columns: `(A, B)`.
pub fn push_names(
    words: &mut Words,
    table: &TableDef,
    columns: &[usize],
) -> Result<(), AllocError> {
    push_open_names(words, table, columns)?;
    words.push(')')
}

/// Adds a key of a table, as it is declared: `(A, P WITHOUT OVERLAPS)`.
pub fn push_key(words: &mut Words, table: &TableDef, key: &Key) -> Result<(), AllocError> {
    push_open_names(words, table, &key.columns)?;
    if key.by_period
        && let Some(application) = table.application()
    {
        words.push_str(", ")?;
        push_shown(words, application.name.as_str())?;
        words.push_str(" WITHOUT OVERLAPS")?;
    }
    words.push(')')
}
