//! The rank of a row, by which rows are sorted: its tuple in some columns, then the start of its application period.
ghost use Rattle.std.specs.Prelude.{◌≡◌, map};
ghost use Rattle.std.specs.List.Sorted.{IsSorted};
ghost use Rattle.tql_spec.specs.Bag.{SameBag};
ghost use Rattle.tql_spec.specs.Query.{by_columns};
ghost use Rattle.tql_expr.specs.Shown.{shown_by};
ghost use Rattle.tql_key_rows.specs.Ranks.{rank, starts_at as first_point};
ghost use Rattle.tql_key_rows.specs.Touched.{tuple};

use crate::reading::point;
use std::cmp::Ordering;
use tql_catalog::table_def::TableDef;
use tql_expr::columns::Columns;
use tql_expr::stored::StoredRow;
use tql_memory::Memory;
use tql_value::comparison::order;

/// Compares two rows by their tuples in these columns.
pub(crate) fn compare_tuples(columns: &[usize], a: &StoredRow<'_>, b: &StoredRow<'_>) -> Ordering
    ensures { result ≡ by_columns (tuple columns.now (shown_by a.now)) (tuple columns.now (shown_by b.now)) }
{
    for column in columns {
        let by_column = order(a.column(*column), b.column(*column));
        if by_column.is_ne() {
            return by_column;
        }
    }
    Ordering::Equal
}

/// Returns the first point of a row's application period, or 0 if its table has none.
fn starts_at(definition: &TableDef, row: &StoredRow<'_>) -> i64
    ensures { result ≡ first_point definition.now (shown_by row.now) }
{
    match definition.application() {
        Some(application) => point(row.column(application.start)),
        None => 0,
    }
}

/// Compares two rows by their ranks. The starts are read only if the tuples tie.
pub fn compare_ranks(
    definition: &TableDef,
    columns: &[usize],
    a: &StoredRow<'_>,
    b: &StoredRow<'_>,
) -> Ordering
    ensures { result ≡ by_columns (rank definition.now columns.now (shown_by a.now))
        (rank definition.now columns.now (shown_by b.now)) }
{
    let by_tuple = compare_tuples(columns, a, b);
    if by_tuple.is_ne() {
        return by_tuple;
    }
    starts_at(definition, a).cmp(&starts_at(definition, b))
}

/// Sorts rows by their ranks.
pub fn sort_by_ranks(
    definition: &TableDef,
    columns: &[usize],
    rows: &mut Vec<StoredRow<'_>, Memory>,
)
    ensures sorted { IsSorted by_columns (map (rank definition.now columns.now) (map shown_by rows.new.items)) }
    ensures same { SameBag (map shown_by rows.new.items) (map shown_by rows.old.items) }
{
    rows.sort_unstable_by(|a, b| compare_ranks(definition, columns, a, b));
}
