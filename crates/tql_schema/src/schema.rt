//! The statement that makes a table.
use crate::columns::{push_columns, push_periods};
use crate::constraints::{push_checks, push_keys, push_references};
use crate::names::{Text, push_name};
use std::alloc::AllocError;
use tql_catalog::table_def::TableDef;
use tql_memory::Memory;

/// Appends the elements of a table.
fn push_elements(
    text: &mut Text,
    tables: &[&TableDef],
    definition: &TableDef,
) -> Result<(), AllocError> {
    let mut is_first = true;
    push_columns(text, definition, &mut is_first)?;
    push_periods(text, definition, &mut is_first)?;
    push_keys(text, definition, &mut is_first)?;
    push_references(text, tables, definition, &mut is_first)?;
    push_checks(text, definition, &mut is_first)
}

/// Returns the CREATE TABLE that makes a table, with an element a line. `tables` are the tables that its references
/// name. The names of constraints are left out. The only error is a refused allocation.
pub fn schema_text(
    memory: Memory,
    tables: &[&TableDef],
    definition: &TableDef,
) -> Result<String<Memory>, AllocError> {
    let mut text = String::new(memory);
    text.push_str("CREATE TABLE ")?;
    push_name(&mut text, definition.name())?;
    text.push_str(" (")?;
    push_elements(&mut text, tables, definition)?;
    text.push_str(")")?;
    if definition.is_versioned() {
        text.push_str(" WITH SYSTEM VERSIONING")?;
    }
    text.push_str(";")?;
    Ok(text)
}

/// Returns the name of a table as a statement writes it. The only error is a refused allocation.
pub fn table_name(memory: Memory, definition: &TableDef) -> Result<String<Memory>, AllocError> {
    let mut text = String::new(memory);
    push_name(&mut text, definition.name())?;
    Ok(text)
}
