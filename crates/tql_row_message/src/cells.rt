//! Columns and values of a row in words.
use std::alloc::AllocError;
use tql_bind_message::names::push_names;
use tql_catalog::table_def::TableDef;
use tql_detail::detail::Detail;
use tql_detail::shown::{Words, push_shown};
use tql_expr::row::Row;
use tql_result::cell::{is_printable, write_cell};
use tql_result::vec_sink::VecSink;
use tql_value::value::View;

/// The row of a change that a detail is about.
#[derive(Clone, Copy)]
pub enum Subject {
    /// A row of an INSERT, by its number from 0.
    Numbered(usize),
    /// A row that an UPDATE or DELETE changes. Its number means nothing to the user.
    Changed,
}

impl Subject {
    /// Returns the number of the row in the statement, from 1, if it has one.
    pub fn row(self) -> Option<u64> {
        match self {
            Subject::Numbered(row) => Some((row as u64).saturating_add(1)),
            Subject::Changed => None,
        }
    }
}

/// The cells that a row of a table stores: those of the columns that are not generated.
#[derive(Clone, Copy)]
pub struct Cells<'a> {
    pub definition: &'a TableDef,
    pub row: &'a Row,
}

/// Adds columns of a table, by their numbers, to the columns of a detail.
pub fn add_columns(
    detail: &mut Detail,
    definition: &TableDef,
    columns: &[usize],
) -> Result<(), AllocError> {
    for number in columns {
        if let Some(column) = definition.columns().get(*number) {
            detail.add_column(column.name.as_str())?;
        }
    }
    Ok(())
}

/// Returns the maximal number of bytes of a value as a query prints it.
fn room_for(value: View<'_>) -> usize {
    match value {
        View::Text(text) => text.len().saturating_mul(2).saturating_add(2),
        View::Null | View::Int(_) | View::Day(_) | View::Moment(_) => 32,
    }
}

/// Appends a value as a query prints it, or the first characters of that.
pub fn push_view(words: &mut Words, value: View<'_>) -> Result<(), AllocError> {
    if !is_printable(value) {
        return words.push('?');
    }
    let room = Vec::with_capacity(*words.allocator(), room_for(value))?;
    let mut sink = VecSink::new(room);
    if write_cell(&mut sink, value).is_err() {
        return words.push('?');
    }
    let bytes = sink.into_bytes();
    push_shown(words, str::from_utf8(&bytes).unwrap_or(""))
}

impl<'a> Cells<'a> {
    /// Returns the value of a column, by its number; NULL if the row does not store the column.
    pub fn value(&self, number: usize) -> View<'a> {
        let stored = self.definition.assignable();
        match stored.iter().position(|column| *column == number) {
            Some(place) => self.row.column(place),
            None => View::Null,
        }
    }

    /// Appends the value of a column.
    pub fn push_value(&self, words: &mut Words, number: usize) -> Result<(), AllocError> {
        push_view(words, self.value(number))
    }

    /// Appends the values of columns: `(1, 'x')`.
    pub fn push_values(&self, words: &mut Words, columns: &[usize]) -> Result<(), AllocError> {
        let mut before = "(";
        for number in columns {
            words.push_str(before)?;
            self.push_value(words, *number)?;
            before = ", ";
        }
        words.push(')')
    }

    /// Appends the names of columns and their values: `(A, B) = (1, 'x')`.
    pub fn push_tuple(&self, words: &mut Words, columns: &[usize]) -> Result<(), AllocError> {
        push_names(words, self.definition, columns)?;
        words.push_str(" = ")?;
        self.push_values(words, columns)
    }

    /// Appends the application period, if the table has one: ` from 2024-01-01 to 2025-01-01`.
    pub fn push_period(&self, words: &mut Words) -> Result<(), AllocError> {
        match self.definition.application() {
            Some(application) => {
                words.push_str(" from ")?;
                self.push_value(words, application.start)?;
                words.push_str(" to ")?;
                self.push_value(words, application.end)
            }
            None => Ok(()),
        }
    }
}

/// Appends a row of a change: `row 3`, or `changed row with (A) = (1)`, by its first key.
pub fn push_subject(
    words: &mut Words,
    subject: Subject,
    cells: &Cells<'_>,
) -> Result<(), AllocError> {
    if let Subject::Numbered(row) = subject {
        return write!(words, "row {}", row.saturating_add(1));
    }
    words.push_str("changed row")?;
    match cells.definition.keys().first() {
        Some(key) => {
            words.push_str(" with ")?;
            cells.push_tuple(words, &key.columns)
        }
        None => Ok(()),
    }
}

/// Appends the start of a sentence about a row's values: `row 3 has `, or `a changed row has `.
pub fn push_owner(words: &mut Words, subject: Subject) -> Result<(), AllocError> {
    match subject {
        Subject::Numbered(row) => write!(words, "row {} has ", row.saturating_add(1)),
        Subject::Changed => words.push_str("a changed row has "),
    }
}
