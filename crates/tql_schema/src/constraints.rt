//! The constraints of a table, as its CREATE TABLE has them.
ghost use Rattle.std.specs.Prelude.{All};
ghost use Rattle.tql_expr.specs.Meaning.{HasCond};

use crate::columns::{push_column_name, push_next};
use crate::conditions::push_condition;
use crate::names::{Text, push_name};
use std::alloc::AllocError;
use tql_catalog::constraint::{Key, Reference};
use tql_catalog::definition::Column;
use tql_catalog::table_def::TableDef;

/// Appends the names of columns, with commas between them.
fn push_list(text: &mut Text, columns: &[Column], numbers: &[usize]) -> Result<(), AllocError> {
    let mut comma = "";
    for number in numbers {
        text.push_str(comma)?;
        push_column_name(text, columns, *number)?;
        comma = ", ";
    }
    Ok(())
}

/// Appends the name of a table's application period.
fn push_period_name(text: &mut Text, definition: &TableDef) -> Result<(), AllocError> {
    match definition.application() {
        Some(period) => push_name(text, period.name.as_str()),
        None => Ok(()),
    }
}

/// Whether all columns of a key refuse NULL.
fn is_required(columns: &[Column], key: &Key) -> bool {
    for number in &key.columns {
        match columns.get(*number) {
            Some(column) if column.is_required => {}
            _ => return false,
        }
    }
    true
}

/// Appends a key. The first one is a PRIMARY KEY if its columns refuse NULL.
fn push_key(
    text: &mut Text,
    definition: &TableDef,
    key: &Key,
    is_first: bool,
) -> Result<(), AllocError> {
    let columns = definition.columns();
    let is_primary = is_first && is_required(columns, key);
    text.push_str(if is_primary {
        "PRIMARY KEY ("
    } else {
        "UNIQUE ("
    })?;
    push_list(text, columns, &key.columns)?;
    if key.by_period {
        text.push_str(", ")?;
        push_period_name(text, definition)?;
        text.push_str(" WITHOUT OVERLAPS")?;
    }
    text.push_str(")")
}

/// Appends the keys.
pub(crate) fn push_keys(
    text: &mut Text,
    definition: &TableDef,
    is_first: &mut bool,
) -> Result<(), AllocError> {
    for (place, key) in definition.keys().iter().enumerate() {
        push_next(text, is_first)?;
        push_key(text, definition, key, place == 0)?;
    }
    Ok(())
}

/// Returns the table of a name.
fn table_named<'d>(tables: &[&'d TableDef], name: &str) -> Option<&'d TableDef> {
    for table in tables {
        if table.name() == name {
            return Some(*table);
        }
    }
    None
}

/// Appends the columns of one side of a reference, and its period.
fn push_side(
    text: &mut Text,
    definition: &TableDef,
    numbers: &[usize],
    by_period: bool,
) -> Result<(), AllocError> {
    text.push_str(" (")?;
    push_list(text, definition.columns(), numbers)?;
    if by_period {
        text.push_str(", PERIOD ")?;
        push_period_name(text, definition)?;
    }
    text.push_str(")")
}

/// Appends a reference.
fn push_reference(
    text: &mut Text,
    tables: &[&TableDef],
    definition: &TableDef,
    reference: &Reference,
) -> Result<(), AllocError> {
    text.push_str("FOREIGN KEY")?;
    push_side(text, definition, &reference.columns, reference.by_period)?;
    text.push_str(" REFERENCES ")?;
    push_name(text, reference.parent.as_str())?;
    match table_named(tables, reference.parent.as_str()) {
        Some(parent) => push_side(text, parent, &reference.parent_columns, reference.by_period),
        None => Ok(()),
    }
}

/// Appends the references. `tables` are the tables that they name.
pub(crate) fn push_references(
    text: &mut Text,
    tables: &[&TableDef],
    definition: &TableDef,
    is_first: &mut bool,
) -> Result<(), AllocError> {
    for reference in definition.references() {
        push_next(text, is_first)?;
        push_reference(text, tables, definition, reference)?;
    }
    Ok(())
}

/// Appends the checks.
pub(crate) fn push_checks(
    text: &mut Text,
    definition: &TableDef,
    is_first: &mut bool,
) -> Result<(), AllocError> {
    let checks = definition.checks();
    for check in &checks.conditions {
        push_next(text, is_first)?;
        text.push_str("CHECK (")?;
        push_condition(text, definition, &checks.terms, *check)?;
        text.push_str(")")?;
    }
    Ok(())
}
