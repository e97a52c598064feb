//! Details of rows of a child table that no row of the parent table matches.
use crate::cells::{Cells, Subject, push_owner};
use crate::constraints::name_constraint;
use std::alloc::AllocError;
use tql_bind_message::names::push_names;
use tql_catalog::constraint::Reference;
use tql_catalog::table_def::TableDef;
use tql_detail::detail::Detail;
use tql_detail::shown::{Words, push_shown};
use tql_memory::Memory;

/// Appends the values of a child row: `(A) = (7)`, and its period if the reference has PERIOD.
fn push_values(
    words: &mut Words,
    cells: &Cells<'_>,
    reference: &Reference,
) -> Result<(), AllocError> {
    cells.push_tuple(words, &reference.columns)?;
    if reference.by_period {
        cells.push_period(words)?;
    }
    Ok(())
}

/// Appends the name of the reference in parentheses, and sets it as the constraint of the detail.
fn name_reference(
    detail: &mut Detail,
    cells: &Cells<'_>,
    reference: &Reference,
) -> Result<(), AllocError> {
    detail.words.push_str(" (")?;
    let name = reference.name.as_str();
    name_constraint(detail, name, cells.definition, &reference.columns)?;
    detail.words.push(')')
}

/// Returns what to do for a child row that no row of the parent table matches.
fn parent_hint(memory: Memory, reference: &Reference) -> Result<Words, AllocError> {
    let mut hint = String::from_str(memory, "insert that row of ")?;
    push_shown(&mut hint, reference.parent.as_str())?;
    hint.push_str(" first")?;
    Ok(hint)
}

/// Appends a new child row that has no match in the parent table.
fn tell_missing(
    detail: &mut Detail,
    subject: Subject,
    cells: &Cells<'_>,
    reference: &Reference,
) -> Result<(), AllocError> {
    let words = &mut detail.words;
    push_owner(words, subject)?;
    push_values(words, cells, reference)?;
    let (before, behind) = if reference.by_period {
        (", which the rows of ", " do not cover")
    } else {
        (", which no row of ", " has")
    };
    words.push_str(before)?;
    push_shown(words, reference.parent.as_str())?;
    words.push_str(behind)?;
    if !reference.by_period {
        let hint = parent_hint(*words.allocator(), reference)?;
        detail.hint = Some(hint);
    }
    name_reference(detail, cells, reference)
}

/// Appends a parent row that is changed or removed, and the child row that still references it.
fn tell_still_referenced(
    detail: &mut Detail,
    cells: &Cells<'_>,
    reference: &Reference,
    parent: &TableDef,
) -> Result<(), AllocError> {
    let words = &mut detail.words;
    words.push_str("row of ")?;
    push_shown(words, reference.parent.as_str())?;
    words.push_str(" with ")?;
    push_names(words, parent, &reference.parent_columns)?;
    words.push_str(" = ")?;
    cells.push_values(words, &reference.columns)?;
    words.push_str(" is still referenced by ")?;
    push_shown(words, cells.definition.name())?;
    if reference.by_period {
        cells.push_period(words)?;
    }
    name_reference(detail, cells, reference)
}

/// Returns the detail of a new row of a child table that no row of the parent table matches in the reference with this
/// number (E36). None if there is no memory for it.
pub fn missing_detail(
    memory: Memory,
    subject: Subject,
    cells: &Cells<'_>,
    reference: usize,
) -> Option<Detail> {
    let reference = cells.definition.references().get(reference)?;
    let mut detail = Detail::of(String::new(memory));
    detail.row = subject.row();
    tell_missing(&mut detail, subject, cells, reference).ok()?;
    Some(detail)
}

/// Returns the detail of a row of a child table that a change of the parent table leaves without a match in the
/// reference with this number (E36). The names of its columns come from the parent table.
pub fn referenced_detail(
    memory: Memory,
    cells: &Cells<'_>,
    reference: usize,
    parent: &TableDef,
) -> Option<Detail> {
    let reference = cells.definition.references().get(reference)?;
    let mut detail = Detail::of(String::new(memory));
    tell_still_referenced(&mut detail, cells, reference, parent).ok()?;
    Some(detail)
}
