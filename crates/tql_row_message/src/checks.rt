//! CHECKs in words.
use crate::cells::{Cells, add_columns};
use crate::constraints::name_constraint;
use std::alloc::AllocError;
use tql_bind_message::names::push_column;
use tql_catalog::constraint::Checks;
use tql_catalog::table_def::TableDef;
use tql_detail::detail::Detail;
use tql_expr::search::Search;

/// Whether a CHECK, by its number, reads a column.
fn reads(checks: &Checks, check: usize, column: usize) -> bool {
    match checks.conditions.get(check) {
        Some(condition) => checks.terms.finds_in(Search::OneOf(&[column]), *condition),
        None => false,
    }
}

/// Appends the name of a CHECK, by its number, and sets it as the constraint of the detail.
pub(crate) fn name_check(
    detail: &mut Detail,
    definition: &TableDef,
    check: usize,
) -> Result<(), AllocError> {
    match definition.checks().names.get(check) {
        Some(name) => name_constraint(detail, name.as_str(), definition, &[]),
        None => detail.words.push_str("a CHECK"),
    }
}

/// Appends the values of the columns that a CHECK reads, and adds these columns to the detail: `: A = 1, B = 'x'`.
pub fn push_values_read(
    detail: &mut Detail,
    cells: &Cells<'_>,
    check: usize,
) -> Result<(), AllocError> {
    let definition = cells.definition;
    let checks = definition.checks();
    let mut before = ": ";
    for column in 0..definition.columns().len() {
        if reads(checks, check, column) {
            detail.words.push_str(before)?;
            push_column(&mut detail.words, definition, column)?;
            detail.words.push_str(" = ")?;
            cells.push_value(&mut detail.words, column)?;
            add_columns(detail, definition, &[column])?;
            before = ", ";
        }
    }
    Ok(())
}
