//! The names of the checks of a new table, once they are bound.

use std::alloc::AllocError;
use tql_bind_draft::constraint_names::ConstraintNames;
use tql_bind_expr::texts::meant;
use tql_catalog::constraint::Checks;
use tql_catalog::definition::Column;
use tql_expr::search::Search;
use tql_memory::Memory;
use tql_syntax_tree::expression::Name;
use tql_syntax_tree::statement::{Constraint, CreateTree, Element};

/// Returns the written name of an element that is a check, if any. None if the element is no check.
fn check_name<'a>(element: &Element<'a>) -> Option<Option<Name<'a>>> {
    match element {
        Element::Constraint(written, constraint) if is_check(constraint) => Some(*written),
        _ => None,
    }
}

/// Whether a constraint is a check.
fn is_check(constraint: &Constraint<'_>) -> bool {
    match constraint {
        Constraint::Check(_) => true,
        Constraint::Key(_) | Constraint::Foreign(_) => false,
    }
}

/// Whether a check, given by its number, reads a column.
fn reads(checks: &Checks, check: usize, column: usize) -> bool {
    match checks.conditions.get(check) {
        Some(condition) => checks.terms.finds_in(Search::OneOf(&[column]), *condition),
        None => false,
    }
}

/// Returns the only column that a check, given by its number, reads. None if it reads several, or none.
fn only_column<'c>(columns: &'c [Column], checks: &Checks, check: usize) -> Option<&'c Column> {
    let mut only = None;
    for (number, column) in columns.iter().enumerate() {
        if reads(checks, check, number) {
            if only.is_some() {
                return None;
            }
            only = Some(column);
        }
    }
    only
}

/// Returns the name of an element that is the check with this number: the written one, else a generated one. None if
/// the element is no check.
fn name_of(
    memory: Memory,
    names: &mut ConstraintNames,
    element: &Element<'_>,
    columns: &[Column],
    checks: &Checks,
    number: usize,
) -> Result<Option<String<Memory>>, AllocError> {
    match check_name(element) {
        Some(Some(written)) => Ok(Some(meant(memory, written)?)),
        Some(None) => {
            let column = only_column(columns, checks, number);
            Ok(Some(names.of_check(memory, column)?))
        }
        None => Ok(None),
    }
}

/// Returns the names of the bound checks of a statement, in its order. The only error is a refused allocation.
pub fn check_names(
    memory: Memory,
    create: &CreateTree<'_>,
    columns: &[Column],
    checks: &Checks,
) -> Result<Vec<String<Memory>, Memory>, AllocError> {
    let mut names = ConstraintNames::written(memory, create)?;
    let mut given: Vec<String<Memory>, Memory> = Vec::new(memory);
    if let Some(name) = name_of(memory, &mut names, &create.first, columns, checks, 0)? {
        given.push(name)?;
    }
    for element in &create.more {
        let number = given.len();
        if let Some(name) = name_of(memory, &mut names, element, columns, checks, number)? {
            given.push(name)?;
        }
    }
    Ok(given)
}
