//! The columns that alone are a key or a reference of a table.
ghost use Rattle.std.specs.Prelude.{◌≡◌, ◌++◌, ◌∷◌, [], IfOk, OnOk, List, ℕ};
ghost use Rattle.tql_catalog.specs.Defined.{IsDefinition};
ghost use Rattle.tql_catalog.specs.Sought.{key_columns, reference_columns, sought_columns};
ghost use Rattle.tql_plan_access.specs.Choices.{FindsSame};

use std::alloc::AllocError;
use tql_catalog::table_def::TableDef;
use tql_memory::Memory;

/// The columns of a table that alone are a key or a reference, each once, in the order of declaration: keys before
/// references. There are at most as many as the table has columns, however many keys have the same one.
pub(crate) struct Singles<'d> {
    pub(crate) definition: &'d TableDef,
    pub(crate) columns: Vec<usize, Memory>,
    ghost finds: { FindsSame (sought_columns definition.now) columns.items },
}

impl Drop for Singles<'_> {
    fn drop(self) {
        let Singles {
            definition: _,
            columns,
        } = self;
        drop(columns);
    }
}

/// Adds a column, unless it is there.
fn add_column(column: usize, found: &mut Vec<usize, Memory>) -> Result<(), AllocError>
    ensures { OnOk result ((lists : List (List ℕ)) → FindsSame lists found.old.items
        → FindsSame (lists ++ (column ∷ []) ∷ []) found.new.items) }
{
    if !found.contains(&column) {
        found.push(column)?;
    }
    Ok(())
}

/// Adds the only column of a list, unless it is there. Adds none if the list has another number of columns.
fn add_single(columns: &[usize], found: &mut Vec<usize, Memory>) -> Result<(), AllocError>
    ensures { OnOk result ((lists : List (List ℕ)) → FindsSame lists found.old.items
        → FindsSame (lists ++ columns.now ∷ []) found.new.items) }
{
    if columns.len() != 1 {
        return Ok(());
    }
    add_column(columns[0], found)
}

/// Adds the columns that alone are a key.
fn add_keys(definition: &TableDef, found: &mut Vec<usize, Memory>) -> Result<(), AllocError>
    ensures finds { OnOk result ((lists : List (List ℕ)) → FindsSame lists found.old.items
        → FindsSame (lists ++ key_columns definition.now) found.new.items) }
    ensures right { IfOk result (λ _. IsDefinition definition.now) }
{
    for key in definition.keys() {
        add_single(&key.columns, found)?;
    }
    Ok(())
}

/// Adds the columns that alone are a reference.
fn add_references(definition: &TableDef, found: &mut Vec<usize, Memory>) -> Result<(), AllocError>
    ensures { OnOk result ((lists : List (List ℕ)) → FindsSame lists found.old.items
        → FindsSame (lists ++ reference_columns definition.now) found.new.items) }
{
    for reference in definition.references() {
        add_single(&reference.columns, found)?;
    }
    Ok(())
}

/// Returns the columns of a table that alone are a key or a reference. The only error is a refused allocation.
pub(crate) fn single_columns(
    memory: Memory,
    definition: &TableDef,
) -> Result<Singles<'_>, AllocError>
    ensures of { IfOk result (λ s. s.definition.now ≡ definition.now) }
    ensures right { IfOk result (λ _. IsDefinition definition.now) }
{
    let mut columns = Vec::new(memory);
    add_keys(definition, &mut columns)?;
    add_references(definition, &mut columns)?;
    Ok(Singles {
        definition,
        columns,
    })
}
