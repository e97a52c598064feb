//! The added rows, sorted by their tuples in some columns, and a search for one tuple among them.
ghost use Rattle.std.specs.Prelude.{◌≡◌, Bool, map, IfOk};
ghost use Rattle.tql_spec.specs.Bag.{SameBag};
ghost use Rattle.tql_spec.specs.Datum.{Row};
ghost use Rattle.tql_spec.specs.Query.{by_columns};
ghost use Rattle.tql_expr.specs.Shown.{shown_by};
ghost use Rattle.tql_value.specs.Views.{datum_of_view};
ghost use Rattle.tql_key_rows.specs.Asked.{new_rows};
ghost use Rattle.tql_key_rows.specs.Coming.{TuplesRise, any_with};
ghost use Rattle.tql_key_rows.specs.Touched.{tuple as tuple_in};

use crate::change::Change;
use crate::ranks::compare_tuples;
use crate::reading::current_rows;
use std::alloc::AllocError;
use std::cmp::Ordering;
use tql_catalog::table_def::TableDef;
use tql_expr::columns::Columns;
use tql_expr::stored::StoredRow;
use tql_memory::Memory;
use tql_value::comparison::order;
use tql_value::value::View;

/// Sorts rows by their tuples in these columns.
fn sort_by_tuples(columns: &[usize], rows: &mut Vec<StoredRow<'_>, Memory>)
    ensures rise { TuplesRise columns.now rows.new.items }
    ensures same { SameBag (map shown_by rows.new.items) (map shown_by rows.old.items) }
{
    rows.sort_unstable_by(|a, b| compare_tuples(columns, a, b));
}

/// Returns the added rows, sorted by their tuples in these columns.
pub fn sorted_coming<'a>(
    memory: Memory,
    definition: &TableDef,
    columns: &[usize],
    change: &Change<'a>,
) -> Result<Vec<StoredRow<'a>, Memory>, AllocError>
    ensures rise { IfOk result (λ rows. TuplesRise columns.now rows.items) }
    ensures same { IfOk result (λ rows. SameBag (map shown_by rows.items)
        (new_rows definition.now change.now.moment change.now.added.now)) }
{
    let mut rows = current_rows(memory, definition, change.added, change.moment)?;
    sort_by_tuples(columns, &mut rows);
    Ok(rows)
}

/// Compares the tuple of a row in these columns with another tuple.
fn compare_with(columns: &[usize], row: &StoredRow<'_>, tuple: &[View<'_>]) -> Ordering
    ensures { result ≡ by_columns (tuple_in columns.now (shown_by row.now)) (map datum_of_view tuple.now) }
{
    match (columns.split_first(), tuple.split_first()) {
        (None, None) => Ordering::Equal,
        (None, Some(_)) => Ordering::Less,
        (Some(_), None) => Ordering::Greater,
        (Some((column, columns)), Some((value, values))) => {
            match order(row.column(*column), *value) {
                Ordering::Equal => compare_with(columns, row, values),
                other => other,
            }
        }
    }
}

/// Returns a part of `rows` that has all rows with the tuple. The rows must be sorted by their tuples in these columns;
/// the part is found by binary search.
pub fn with_tuple<'r, 'a>(
    columns: &[usize],
    tuple: &[View<'_>],
    rows: &'r [StoredRow<'a>],
) -> &'r [StoredRow<'a>]
    requires { TuplesRise columns.now rows.now }
    ensures { (test : Row → Bool) → any_with columns.now (map datum_of_view tuple.now) test (map shown_by result.now)
        ≡ any_with columns.now (map datum_of_view tuple.now) test (map shown_by rows.now) }
{
    let start = rows.partition_point(|row| compare_with(columns, row, tuple).is_lt());
    let end = rows.partition_point(|row| compare_with(columns, row, tuple).is_le());
    let (_, behind) = rows.split_at(start);
    let (agreeing, _) = behind.split_at(end - start);
    agreeing
}
