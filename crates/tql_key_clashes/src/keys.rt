//! The keys of a table after a change to its rows. A key that held can only be broken by an added row. So each added
//! row is compared with the other added rows and with the unchanged rows of its tuple.
ghost use Rattle.std.specs.Prelude.{◌≡◌, ◌&&◌, Bool, true, List, IfOk, IsTrue};
ghost use Rattle.tql_spec.specs.Definition.{Stamped};
ghost use Rattle.tql_spec.specs.Constraint.{key_holds, shown_rows};
ghost use Rattle.tql_catalog.specs.Definitions.{key_of};
ghost use Rattle.tql_catalog.specs.Rows.{are_assignable};
ghost use Rattle.tql_expr.specs.Shown.{shown_by};
ghost use Rattle.tql_store.specs.Changes.{rows_after};
ghost use Rattle.tql_store.specs.StoreModel.{has_table};
ghost use Rattle.tql_key_rows.specs.Asked.{AreRowsOf, new_rows, row_named};
ghost use Rattle.tql_key_rows.specs.Keeping.{are_kept as are_kept_in};
ghost use Rattle.tql_key_rows.specs.Rising.{are_distinct};
ghost use Rattle.tql_key_clashes.specs.Named.{IsJudged, staying};
ghost use Rattle.tql_key_clashes.specs.Free.{keys_hold_of, is_free as free_in};

use crate::rivals::are_apart;
use std::alloc::AllocError;
use tql_catalog::catalog::Table;
use tql_catalog::constraint::Key;
use tql_expr::stored::StoredRow;
use tql_index::index::IntervalIndex;
use tql_key_rows::change::Change;
use tql_key_rows::finding::SoughtColumns;
use tql_key_rows::keeping::are_kept;
use tql_key_rows::reading::{current_row, period, tuple_of};
use tql_memory::Memory;
use tql_store::store::Store;

/// Whether a new row clashes with no unchanged row: each row of the store that it clashes with is removed.
fn is_free<I: IntervalIndex>(
    memory: Memory,
    store: &Store<I>,
    sought: &SoughtColumns<'_>,
    key: &Key,
    change: &Change<'_>,
    row: &StoredRow<'_>,
) -> Result<bool, AllocError>
    requires there { IsTrue (has_table store.now sought.now.table.now.id) }
    requires columns { sought.now.columns.now ≡ (key_of key.now).columns }
    ensures { IfOk result (λ free. (rows : List Stamped) (gone : Stamped → Bool)
        → AreRowsOf store.now sought.now.table.now rows
        → IsJudged (row_named store.now sought.now.table.now.id) gone change.now.removed.now
        → free ≡ free_in sought.now.table.now.definition (key_of key.now)
        (shown_rows sought.now.table.now.definition (staying gone rows)) (shown_by row.now)) }
{
    let definition = &sought.table.definition;
    let tuple = tuple_of(memory, row, sought.columns)?;
    let period = period(definition, row);
    let found = sought.find_in(memory, store, &tuple, key.by_period, period)?;
    Ok(found.iter().all(|other| change.removes(other.id)))
}

/// Whether a key that held still holds after a change. It reads only unchanged rows with the tuple of an added row.
fn holds_after<I: IntervalIndex>(
    memory: Memory,
    store: &Store<I>,
    table: &Table,
    key: &Key,
    change: &Change<'_>,
) -> Result<bool, AllocError>
    requires there { IsTrue (has_table store.now table.now.id) }
    requires columns { IsTrue (are_assignable table.now.definition (key_of key.now).columns) }
    ensures { IfOk result (λ holds. (rows : List Stamped) (gone : Stamped → Bool) → AreRowsOf store.now table.now rows
        → IsJudged (row_named store.now table.now.id) gone change.now.removed.now
        → key_holds table.now.definition (shown_rows table.now.definition rows) (key_of key.now) ≡ true
        → holds ≡ key_holds table.now.definition
        (shown_rows table.now.definition (rows_after change.now.moment gone change.now.added.now rows))
        (key_of key.now)) }
{
    let definition = &table.definition;
    let apart = are_apart(memory, definition, key, change.added, change.moment)?;
    if !apart {
        return Ok(false);
    }
    let sought = SoughtColumns::of(memory, table, &key.columns)?;
    for row in change.added {
        let new = current_row(definition, row, change.moment);
        if !is_free(memory, store, &sought, key, change, &new)? {
            return Ok(false);
        }
    }
    Ok(true)
}

/// Whether the added rows are alike the removed ones in what the key reads, and no row is removed twice.
fn is_untouched<I: IntervalIndex>(
    store: &Store<I>,
    table: &Table,
    key: &Key,
    change: &Change<'_>,
) -> bool
    requires { IsTrue (has_table store.now table.now.id) }
    ensures { result ≡ (are_kept_in table.now.definition (key_of key.now).columns (key_of key.now).by_period
        (row_named store.now table.now.id) change.now.given.now
        (new_rows table.now.definition change.now.moment change.now.added.now)
        && are_distinct change.now.given.now) }
{
    are_kept(store, table, &key.columns, key.by_period, change) && change.names_once()
}

/// Whether a key that held still holds after a change. It is not tested if each added row has the tuple of the row that
/// it replaces, and in a key WITHOUT OVERLAPS also its period, and no row is removed twice.
pub fn key_after<I: IntervalIndex>(
    memory: Memory,
    store: &Store<I>,
    table: &Table,
    key: &Key,
    change: &Change<'_>,
) -> Result<bool, AllocError>
    requires there { IsTrue (has_table store.now table.now.id) }
    requires columns { IsTrue (are_assignable table.now.definition (key_of key.now).columns) }
    ensures { IfOk result (λ holds. (rows : List Stamped) (gone : Stamped → Bool) → AreRowsOf store.now table.now rows
        → IsJudged (row_named store.now table.now.id) gone change.now.removed.now
        → key_holds table.now.definition (shown_rows table.now.definition rows) (key_of key.now) ≡ true
        → holds ≡ key_holds table.now.definition
        (shown_rows table.now.definition (rows_after change.now.moment gone change.now.added.now rows))
        (key_of key.now)) }
{
    if is_untouched(store, table, key, change) {
        return Ok(true);
    }
    holds_after(memory, store, table, key, change)
}

/// Whether the keys of a table, which held, still hold after a change to its rows.
pub fn keys_after<I: IntervalIndex>(
    memory: Memory,
    store: &Store<I>,
    table: &Table,
    change: &Change<'_>,
) -> Result<bool, AllocError>
    requires { IsTrue (has_table store.now table.now.id) }
    ensures { IfOk result (λ holds. (rows : List Stamped) (gone : Stamped → Bool) → AreRowsOf store.now table.now rows
        → IsJudged (row_named store.now table.now.id) gone change.now.removed.now
        → keys_hold_of table.now.definition (shown_rows table.now.definition rows) ≡ true
        → holds ≡ keys_hold_of table.now.definition
        (shown_rows table.now.definition (rows_after change.now.moment gone change.now.added.now rows))) }
{
    for key in table.definition.keys() {
        if !key_after(memory, store, table, key, change)? {
            return Ok(false);
        }
    }
    Ok(true)
}
