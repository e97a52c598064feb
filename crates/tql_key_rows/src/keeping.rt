//! Whether a change keeps what a key or a reference reads: the values in some columns and, by period, the application
//! period. Such a change, for instance an UPDATE of other columns, cannot break it, so no rows need to be looked up.
ghost use Rattle.std.specs.Prelude.{◌≡◌, IsTrue, option_map};
ghost use Rattle.tql_spec.specs.Definition.{shown};
ghost use Rattle.tql_expr.specs.Shown.{shown_by};
ghost use Rattle.tql_store.specs.Changes.{starting};
ghost use Rattle.tql_store.specs.StoreModel.{has_table};
ghost use Rattle.tql_key_rows.specs.Asked.{new_rows, row_named};
ghost use Rattle.tql_key_rows.specs.Keeping.{same_period, are_alike, is_kept as is_kept_in, are_kept as are_kept_in};

use crate::change::Change;
use crate::ranks::compare_tuples;
use crate::reading::{current_row, point};
use tql_catalog::catalog::Table;
use tql_catalog::table_def::TableDef;
use tql_expr::columns::Columns;
use tql_expr::stored::StoredRow;
use tql_index::index::IntervalIndex;
use tql_row::row::Row;
use tql_store::store::Store;

/// Whether two rows of a table have the same application period.
fn is_period_kept(definition: &TableDef, old: &StoredRow<'_>, new: &StoredRow<'_>) -> bool
    ensures { result ≡ same_period definition.now (shown_by old.now) (shown_by new.now) }
{
    match definition.application() {
        Some(application) => {
            point(old.column(application.start)) == point(new.column(application.start))
                && point(old.column(application.end)) == point(new.column(application.end))
        }
        None => true,
    }
}

/// Whether two rows of a table have the same values in these columns and, if `by_period`, the same application period.
fn is_alike(
    definition: &TableDef,
    columns: &[usize],
    by_period: bool,
    old: &StoredRow<'_>,
    new: &StoredRow<'_>,
) -> bool
    ensures { result ≡ are_alike definition.now columns.now by_period (shown_by old.now) (shown_by new.now) }
{
    compare_tuples(columns, old, new).is_eq()
        && (!by_period || is_period_kept(definition, old, new))
}

/// Whether an added row, which starts at `moment`, is alike the current row with this id in these columns and, if
/// `by_period`, in its application period.
fn is_kept<I: IntervalIndex>(
    store: &Store<I>,
    table: &Table,
    columns: &[usize],
    by_period: bool,
    id: usize,
    added: &Row,
    moment: i64,
) -> bool
    requires { IsTrue (has_table store.now table.now.id) }
    ensures { result ≡ is_kept_in table.now.definition columns.now by_period (row_named store.now table.now.id id)
        (shown table.now.definition (starting moment added.now)) }
{
    let definition = &table.definition;
    let Some(gone) = store.row(table.id, id) else {
        return false;
    };
    let old = current_row(definition, &gone.kept.row, gone.kept.start);
    let new = current_row(definition, added, moment);
    is_alike(definition, columns, by_period, &old, &new)
}

/// Whether the change adds as many rows as it removes, and each added row is alike the one that it replaces. Alike
/// means: the same values in these columns and, if `by_period`, the same application period.
pub fn are_kept<I: IntervalIndex>(
    store: &Store<I>,
    table: &Table,
    columns: &[usize],
    by_period: bool,
    change: &Change<'_>,
) -> bool
    requires { IsTrue (has_table store.now table.now.id) }
    ensures { result ≡ are_kept_in table.now.definition columns.now by_period (row_named store.now table.now.id)
        change.now.given.now (new_rows table.now.definition change.now.moment change.now.added.now) }
{
    let ids = change.given;
    let rows = change.added;
    ids.len() == rows.len()
        && ids.iter().zip(rows).all(
            |(id, added)|
                requires { IsTrue (has_table store.now table.now.id) }
            { is_kept(store, table, columns, by_period, *id, added, change.moment) },
        )
}
