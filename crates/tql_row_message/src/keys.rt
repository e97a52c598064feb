//! Details of rows that clash in a key.
use crate::cells::{Cells, Subject, push_owner};
use crate::constraints::name_constraint;
use std::alloc::AllocError;
use std::cmp::Ordering;
use tql_bind_message::names::push_key;
use tql_catalog::constraint::Key;
use tql_catalog::table_def::TableDef;
use tql_detail::detail::Detail;
use tql_detail::shown::{Words, push_shown};
use tql_memory::Memory;
use tql_value::comparison::order;

/// The row that a row clashes with: its cells, and which row of the change it is, or none for a row of the table.
#[derive(Clone, Copy)]
pub struct Rival<'a> {
    pub cells: Cells<'a>,
    pub subject: Option<Subject>,
}

/// Appends the row with its values: `row 2 has (A) = (7), which `.
fn push_row(
    words: &mut Words,
    subject: Subject,
    cells: &Cells<'_>,
    key: &Key,
) -> Result<(), AllocError> {
    push_owner(words, subject)?;
    cells.push_tuple(words, &key.columns)?;
    if key.by_period {
        cells.push_period(words)?;
    }
    words.push_str(", which ")
}

/// Appends the row that has these values already: ` already holds in row 1 of the statement`.
fn push_rival(words: &mut Words, key: &Key, rival: &Rival<'_>) -> Result<(), AllocError> {
    words.push_str(" already holds")?;
    if key.by_period {
        rival.cells.push_period(words)?;
    }
    match rival.subject {
        Some(Subject::Numbered(row)) => {
            write!(words, " in row {} of the statement", row.saturating_add(1))
        }
        Some(Subject::Changed) => words.push_str(" in another changed row"),
        None => Ok(()),
    }
}

/// Whether the period of a row is within that of another row of the table.
fn is_within(cells: &Cells<'_>, other: &Cells<'_>) -> bool {
    let Some(application) = cells.definition.application() else {
        return false;
    };
    let (start, end) = (application.start, application.end);
    order(other.value(start), cells.value(start)) != Ordering::Greater
        && order(cells.value(end), other.value(end)) != Ordering::Greater
}

/// Sets the hint of a new row whose period a row of the table has already.
fn advise_portion(detail: &mut Detail, definition: &TableDef) -> Result<(), AllocError> {
    let Some(application) = definition.application() else {
        return Ok(());
    };
    let mut hint = String::from_str(*detail.words.allocator(), "to change that row: UPDATE ")?;
    push_shown(&mut hint, definition.name())?;
    hint.push_str(" FOR PORTION OF ")?;
    push_shown(&mut hint, application.name.as_str())?;
    detail.hint = Some(hint);
    Ok(())
}

/// Appends the row, the key and the row that it clashes with.
fn tell_clash(
    detail: &mut Detail,
    subject: Subject,
    cells: &Cells<'_>,
    key: &Key,
    rival: &Rival<'_>,
) -> Result<(), AllocError> {
    let definition = cells.definition;
    push_row(&mut detail.words, subject, cells, key)?;
    name_constraint(detail, key.name.as_str(), definition, &key.columns)?;
    detail.words.push(' ')?;
    push_key(&mut detail.words, definition, key)?;
    push_rival(&mut detail.words, key, rival)?;
    let is_new = rival.subject.is_none() && subject.row().is_some();
    if is_new && key.by_period && is_within(cells, &rival.cells) {
        advise_portion(detail, definition)?;
    }
    Ok(())
}

/// Returns the detail of a row that clashes with another in the key with this number (E35). None if the table has no
/// such key, or if there is no memory for it.
pub fn key_detail(
    memory: Memory,
    subject: Subject,
    cells: &Cells<'_>,
    number: usize,
    rival: &Rival<'_>,
) -> Option<Detail> {
    let key = cells.definition.keys().get(number)?;
    let mut detail = Detail::of(String::new(memory));
    detail.row = subject.row();
    tell_clash(&mut detail, subject, cells, key, rival).ok()?;
    Some(detail)
}
