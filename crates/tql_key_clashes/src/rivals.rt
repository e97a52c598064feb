//! Whether added rows clash with each other. They are sorted by their ranks. Then two rows clash only if two neighbours
//! do, so only neighbours are compared. Rows that cannot clash are left out first.
ghost use Rattle.std.specs.Prelude.{◌≡◌, not, map, filter, IfOk};
ghost use Rattle.tql_spec.specs.Constraint.{clash as clash_in, key_holds};
ghost use Rattle.tql_catalog.specs.Definitions.{key_of};
ghost use Rattle.tql_expr.specs.Shown.{shown_by};
ghost use Rattle.tql_key_rows.specs.Asked.{new_rows};
ghost use Rattle.tql_key_clashes.specs.Rivals.{can_clash as can_clash_in, with_first, all_neighbours};

use std::alloc::AllocError;
use tql_catalog::constraint::Key;
use tql_catalog::table_def::TableDef;
use tql_expr::stored::StoredRow;
use tql_key_rows::ranks::sort_by_ranks;
use tql_key_rows::reading::{clash, current_rows, period};
use tql_memory::Memory;
use tql_row::row::Row;

/// Whether a row can clash with another. In a key WITHOUT OVERLAPS, one with an empty period cannot.
pub fn can_clash(definition: &TableDef, key: &Key, row: &StoredRow<'_>) -> bool
    ensures { result ≡ can_clash_in definition.now (key_of key.now) (shown_by row.now) }
{
    if !key.by_period {
        return true;
    }
    period(definition, row).is_some()
}

/// Keeps only the rows that can clash.
fn keep_rivals(definition: &TableDef, key: &Key, rows: &mut Vec<StoredRow<'_>, Memory>)
    ensures { map shown_by rows.new.items
        ≡ filter (can_clash_in definition.now (key_of key.now)) (map shown_by rows.old.items) }
{
    rows.retain(|row| can_clash(definition, key, row));
}

/// Whether a row does not clash with the first row of `behind`.
fn is_apart_from_first(
    definition: &TableDef,
    key: &Key,
    row: &StoredRow<'_>,
    behind: &[StoredRow<'_>],
) -> bool
    ensures { result ≡ with_first (λ r s. not (clash_in definition.now (key_of key.now) r s)) (shown_by row.now)
        (map shown_by behind.now) }
{
    match behind.first() {
        Some(next) => !clash(definition, key, row, next),
        None => true,
    }
}

/// Whether no two neighbours clash.
fn are_neighbours_apart(definition: &TableDef, key: &Key, rows: &[StoredRow<'_>]) -> bool
    ensures { result ≡ all_neighbours (λ r s. not (clash_in definition.now (key_of key.now) r s))
        (map shown_by rows.now) }
{
    let mut left = rows;
    while let [row, behind @ ..] = left {
        if !is_apart_from_first(definition, key, row, behind) {
            return false;
        }
        left = behind;
    }
    true
}

/// Whether no two of these rows, which start at `moment`, clash in the key. Sorting them dominates the cost.
pub(crate) fn are_apart(
    memory: Memory,
    definition: &TableDef,
    key: &Key,
    rows: &[Row],
    moment: i64,
) -> Result<bool, AllocError>
    ensures { IfOk result (λ apart. apart
        ≡ key_holds definition.now (new_rows definition.now moment rows.now) (key_of key.now)) }
{
    let mut rivals = current_rows(memory, definition, rows, moment)?;
    keep_rivals(definition, key, &mut rivals);
    sort_by_ranks(definition, &key.columns, &mut rivals);
    Ok(are_neighbours_apart(definition, key, &rivals))
}
