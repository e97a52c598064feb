//! INSERT of values, and of tuples of expressions.
ghost use Rattle.std.specs.Prelude.{◌≡◌, List, [], ℕ, All, IfOk, Some, map};
ghost use Rattle.tql_spec.specs.Datum as pure;
ghost use Rattle.tql_catalog.specs.Rows.{IsRowOf};
ghost use Rattle.tql_dml.specs.Alters.{Alters, added_rows, inserted};
ghost use Rattle.tql_dml.specs.Cells.{stored_cells};
ghost use Rattle.tql_dml.specs.PointChanges.{InsertsAtPoints};
ghost use Rattle.tql_dml.specs.PointRefusals.{RefusesInsertionAsPoints};
ghost use Rattle.tql_value.specs.Points.{ArePrintable};

use crate::spread::new_rows;
use crate::values::insertion_rows;
use tql_bound::change::Insertion;
use tql_catalog::catalog::Table;
use tql_dml::faults::first_fault;
use tql_expr::row::Row;
use tql_memory::Memory;
use tql_store::store::Delta;
use tql_value::refusal::Refusal;

/// Returns the change that adds these rows, given their stored cells, if they have no fault.
fn adding(memory: Memory, table: &Table, added: Vec<Row, Memory>) -> Result<Delta, Refusal>
    ensures alters { (columns : List ℕ) (tuples : List pure.Row)
        → added.entry.items ≡ map (stored_cells table.now.definition columns) tuples
        → Alters table.now.id [] (λ m. (added_rows table.now.definition columns (Some tuples) m).rows)
        (added_rows table.now.definition columns (Some tuples)) result }
    ensures fits { (columns : List ℕ) (tuples : List pure.Row)
        → added.entry.items ≡ map (stored_cells table.now.definition columns) tuples → ArePrintable tuples
        → IfOk result (λ delta. All (IsRowOf table.now.definition) delta.added.items) }
{
    match first_fault(&table.definition, &added) {
        Some(refusal) => Err(refusal),
        None => Ok(Delta {
            table: table.id,
            removed: Vec::new(memory),
            count: added.len() as u64,
            added,
        }),
    }
}

/// Returns the change that adds a row for each of these rows of values. Columns without a value are NULL. The new rows
/// fit the table.
///
/// # Errors
///
/// The first of these over all rows: a text longer than its column allows or a CHECK that overflows; NULL in a column
/// that is NOT NULL; an application period that does not start before its end; a CHECK that is FALSE. Or a refused
/// allocation. Each CHECK is evaluated on each row. Nothing is changed.
pub fn insert_rows(
    memory: Memory,
    table: &Table,
    columns: &[usize],
    rows: Vec<Row, Memory>,
) -> Result<Delta, Refusal>
    requires { ArePrintable rows.items }
    ensures alters { Alters table.now.id []
        (λ m. (added_rows table.now.definition columns.now (Some rows.entry.items) m).rows)
        (added_rows table.now.definition columns.now (Some rows.entry.items)) result }
    ensures fits { IfOk result (λ delta. All (IsRowOf table.now.definition) delta.added.items) }
{
    let added = new_rows(memory, &table.definition, columns, rows)?;
    adding(memory, table, added)
}

/// Returns the change that adds a row for each tuple, with the values of its expressions: ISO/IEC 9075-2:2011, 14.11.
///
/// # Errors
///
/// An evaluation that overflows 64 bits, and then the errors of `insert_rows`.
///
/// # What is proved besides
///
/// Clause `points`: at each point of time it adds the tuples whose application period contains the point. Clause
/// `refusals`: let each tuple have a period that starts before its end. Then it is refused if, and only if, the INSERT
/// of the tuples of some point is. The refusal is the first of theirs, memory apart.
pub fn insert_tuples(memory: Memory, table: &Table, insertion: &Insertion) -> Result<Delta, Refusal>
    ensures alters { Alters table.now.id [] (λ m. (inserted table.now.definition insertion.now m).rows)
        (inserted table.now.definition insertion.now) result }
    ensures fits { IfOk result (λ delta. All (IsRowOf table.now.definition) delta.added.items) }
    ensures points { IfOk result (InsertsAtPoints table.now.definition insertion.now) }
    ensures refusals { RefusesInsertionAsPoints table.now.definition insertion.now result }
{
    let added = insertion_rows(memory, &table.definition, insertion)?;
    adding(memory, table, added)
}
