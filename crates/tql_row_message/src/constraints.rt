//! The names of constraints in words.
use crate::cells::add_columns;
use std::alloc::AllocError;
use tql_catalog::table_def::TableDef;
use tql_detail::detail::Detail;
use tql_detail::shown::{Words, push_shown};

/// Appends the name of a constraint. A long name is shown whole if its parts between underscores are short, as the
/// names of its table and its columns are.
fn push_constraint_name(words: &mut Words, name: &str) -> Result<(), AllocError> {
    let mut is_first = true;
    for part in name.split('_') {
        if !is_first {
            words.push('_')?;
        }
        is_first = false;
        push_shown(words, part)?;
    }
    Ok(())
}

/// Sets the constraint of a detail to this name and these columns of a table, and appends the name to its words.
pub(crate) fn name_constraint(
    detail: &mut Detail,
    name: &str,
    definition: &TableDef,
    columns: &[usize],
) -> Result<(), AllocError> {
    push_constraint_name(&mut detail.words, name)?;
    detail.constraint = Some(String::from_str(*detail.words.allocator(), name)?);
    add_columns(detail, definition, columns)
}
