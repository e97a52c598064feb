//! Details of rows that are invalid by themselves: because of a column, their period or a CHECK.
use crate::cells::{Cells, Subject, add_columns, push_subject};
use crate::checks::{name_check, push_values_read};
use std::alloc::AllocError;
use std::cmp::Ordering;
use tql_bind_message::names::push_column;
use tql_catalog::table_def::TableDef;
use tql_detail::detail::Detail;
use tql_detail::shown::{Words, push_shown};
use tql_memory::Memory;
use tql_new_rows::failures::Failed;
use tql_value::comparison::order;
use tql_value::value::Kind;

/// Appends the type of a column for whose texts there is a limit: `VARCHAR(20)`.
fn push_limit(words: &mut Words, definition: &TableDef, column: usize) -> Result<(), AllocError> {
    match definition.columns().get(column) {
        Some(column) => match column.limit {
            Some(limit) => write!(words, "VARCHAR({limit})"),
            None => words.push_str("its column"),
        },
        None => Ok(()),
    }
}

/// Returns the number of a column, by its number among the columns that are not generated.
fn column_number(cells: &Cells<'_>, stored: usize) -> usize {
    match cells.definition.assignable().get(stored) {
        Some(number) => *number,
        None => 0,
    }
}

/// Appends a text that is too long: `: NAME = 'a text' is longer than VARCHAR(5)`.
fn push_long_text(words: &mut Words, cells: &Cells<'_>, column: usize) -> Result<(), AllocError> {
    words.push_str(": ")?;
    push_column(words, cells.definition, column)?;
    words.push_str(" = ")?;
    cells.push_value(words, column)?;
    words.push_str(" is longer than ")?;
    push_limit(words, cells.definition, column)
}

/// Appends a column that is NULL: `: column NAME is NULL`.
fn push_null(words: &mut Words, cells: &Cells<'_>, column: usize) -> Result<(), AllocError> {
    words.push_str(": column ")?;
    push_column(words, cells.definition, column)?;
    words.push_str(" is NULL")
}

/// Sets the hint of a column that is NULL, if it is the end of the application period.
fn advise_end(detail: &mut Detail, definition: &TableDef, column: usize) -> Result<(), AllocError> {
    let is_end = match definition.application() {
        Some(application) => application.end == column,
        None => false,
    };
    let kind = match definition.columns().get(column) {
        Some(column) => Some(column.kind),
        None => None,
    };
    match kind {
        Some(Kind::Day) if is_end => detail.advise("for no end write DATE '9999-12-31'"),
        _ => Ok(()),
    }
}

/// Sets the hint of a column of an INSERT that is NULL since the list of columns lacks it. `listed` has the numbers of
/// the columns of the list.
fn advise_unlisted(detail: &mut Detail, listed: &[usize], column: usize) -> Result<(), AllocError> {
    if listed.iter().any(|number| *number == column) {
        return Ok(());
    }
    detail.advise("the list of columns lacks it: add it there, and a value to the row")
}

/// Appends a period that does not rise: `: VALID from 2025-01-01 to 2024-01-01 does not rise`.
fn tell_fallen(detail: &mut Detail, cells: &Cells<'_>) -> Result<(), AllocError> {
    detail.words.push_str(": ")?;
    if let Some(application) = cells.definition.application() {
        push_shown(&mut detail.words, application.name.as_str())?;
        let ends = [application.start, application.end];
        add_columns(detail, cells.definition, &ends)?;
        if order(cells.value(application.start), cells.value(application.end)) == Ordering::Equal {
            detail.advise("the end is the first point after the period")?;
        }
    }
    cells.push_period(&mut detail.words)?;
    detail.words.push_str(" does not rise")
}

/// Appends the name of a CHECK between these words, and the values of the columns that it reads.
fn tell_check(
    detail: &mut Detail,
    cells: &Cells<'_>,
    check: usize,
    before: &str,
    behind: &str,
) -> Result<(), AllocError> {
    detail.words.push_str(before)?;
    name_check(detail, cells.definition, check)?;
    detail.words.push_str(behind)?;
    push_values_read(detail, cells, check)
}

/// Appends why a row fails, after the row itself.
fn tell_failed(
    detail: &mut Detail,
    cells: &Cells<'_>,
    failed: Failed,
    listed: Option<&[usize]>,
) -> Result<(), AllocError> {
    match failed {
        Failed::LongText(stored) => {
            let column = column_number(cells, stored);
            push_long_text(&mut detail.words, cells, column)?;
            add_columns(detail, cells.definition, &[column])
        }
        Failed::Null(stored) => {
            let column = column_number(cells, stored);
            push_null(&mut detail.words, cells, column)?;
            advise_end(detail, cells.definition, column)?;
            if let Some(listed) = listed {
                advise_unlisted(detail, listed, column)?;
            }
            add_columns(detail, cells.definition, &[column])
        }
        Failed::Period => tell_fallen(detail, cells),
        Failed::CheckRange(check) => {
            let behind = " calculates is out of range";
            tell_check(detail, cells, check, ": a number that ", behind)
        }
        Failed::Check(check) => tell_check(detail, cells, check, " fails ", ""),
    }
}

/// Returns the detail of a row that is invalid by itself (E30 and E32 to E34). `listed` has the numbers of the columns
/// to which an INSERT gives values. None if there is no memory for it.
pub fn fault_detail(
    memory: Memory,
    subject: Subject,
    cells: &Cells<'_>,
    failed: Failed,
    listed: Option<&[usize]>,
) -> Option<Detail> {
    let mut detail = Detail::of(String::new(memory));
    detail.row = subject.row();
    push_subject(&mut detail.words, subject, cells).ok()?;
    tell_failed(&mut detail, cells, failed, listed).ok()?;
    Some(detail)
}

/// Appends a column and that the value for it, named before, is out of range.
pub(crate) fn tell_range(
    detail: &mut Detail,
    definition: &TableDef,
    column: usize,
) -> Result<(), AllocError> {
    push_column(&mut detail.words, definition, column)?;
    detail.words.push_str(" is out of range")?;
    add_columns(detail, definition, &[column])
}

/// Returns the detail of a value of an INSERT that is out of range (E30), by its row and its column, numbered from 0.
/// None if there is no memory for it.
pub fn value_detail(
    memory: Memory,
    definition: &TableDef,
    row: usize,
    column: usize,
) -> Option<Detail> {
    let number = row.saturating_add(1);
    let words = format!(in memory; "row {number}: the value of ").ok()?;
    let mut detail = Detail::of(words);
    detail.row = Subject::Numbered(row).row();
    tell_range(&mut detail, definition, column).ok()?;
    Some(detail)
}
