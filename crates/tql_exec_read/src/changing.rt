//! Reading the current rows that have one of several values in a column, for an UPDATE or DELETE: one index lookup for
//! each value.
ghost use Rattle.std.specs.Prelude.{◌≡◌, ◌∷◌, ◌||◌, [], Bool, IfOk, IfSome, IsTrue, OnOk, Some, false, map, true};
ghost use Rattle.tql_spec.specs.Datum as pure;
ghost use Rattle.tql_value.specs.Views.{datum_of_view};
ghost use Rattle.tql_value.specs.declared.when.When.TheVariants as when;
ghost use Rattle.tql_store.specs.StoreModel.{has_table};
ghost use Rattle.tql_store.specs.Views.{IsFound};
ghost use Rattle.tql_store_index.specs.Tuple.{is_at};
ghost use Rattle.tql_plan_access.specs.Alternatives.{has_any, values_of};
ghost use Rattle.tql_plan_access.specs.Choices.{are_distinct};

use crate::alternatives::are_few_of;
use std::alloc::AllocError;
use std::slice;
use tql_index::index::IntervalIndex;
use tql_memory::Memory;
use tql_plan_access::alternatives::Alternatives;
use tql_store::store::Store;
use tql_store_index::basis::Sought;
use tql_value::table::TableId;
use tql_value::value::View;
use tql_value::when::When;
use tql_versions::version::Version;

/// Returns the alternatives if they are few enough to be looked up in a table with this number of current rows.
pub fn few_of<'p, 'a>(
    rows: usize,
    alternatives: &'p Option<Alternatives<'a>>,
) -> Option<&'p Alternatives<'a>>
    ensures { IfSome result (λ a. alternatives.now ≡ Some a.now) }
{
    match alternatives {
        Some(found) if are_few_of(rows, found.values.len()) => Some(found),
        _ => None,
    }
}

/// Adds the current versions of a table with this value in a stored column to versions without it. The only error is a
/// refused allocation.
fn add_current_at<'a, I: IntervalIndex>(
    store: &'a Store<I>,
    table: TableId,
    column: usize,
    value: &View<'_>,
    found: &mut Vec<Version<'a>, Memory>,
) -> Result<(), AllocError>
    requires there { IsTrue (has_table store.now table) }
    ensures { OnOk result ((looks : pure.Row → Bool) → IsFound store.now table when.Now looks found.old.items
        → ((row : pure.Row) → looks row ≡ true → is_at (column ∷ []) (datum_of_view value.now ∷ []) row ≡ false)
        → IsFound store.now table when.Now
        (λ row. looks row || is_at (column ∷ []) (datum_of_view value.now ∷ []) row) found.new.items) }
{
    let columns = slice::from_ref(&column);
    let sought = Sought::With(columns, slice::from_ref(value));
    let versions = store.look(table, When::Now, Some(sought))?;
    found.extend_from_slice(&versions)?;
    Ok(())
}

/// Returns the current versions of a table with one of these values in a stored column, those with one value after
/// those with another. No two values are equal. The only error is a refused allocation.
fn current_with_each<'a, I: IntervalIndex>(
    memory: Memory,
    store: &'a Store<I>,
    table: TableId,
    column: usize,
    values: &[View<'_>],
) -> Result<Vec<Version<'a>, Memory>, AllocError>
    requires there { IsTrue (has_table store.now table) }
    requires distinct { IsTrue (are_distinct (map datum_of_view values.now)) }
    ensures { IfOk result
        (λ found. IsFound store.now table when.Now (has_any column (map datum_of_view values.now)) found.items) }
{
    let mut found = Vec::new(memory);
    for value in values {
        add_current_at(store, table, column, value, &mut found)?;
    }
    Ok(found)
}

/// Returns the current versions of a table that have one of several values in a column: one lookup for each value. The
/// only error is a refused allocation.
pub fn current_with_any<'a, I: IntervalIndex>(
    memory: Memory,
    store: &'a Store<I>,
    table: TableId,
    alternatives: &Alternatives<'_>,
) -> Result<Vec<Version<'a>, Memory>, AllocError>
    requires { IsTrue (has_table store.now table) }
    ensures { IfOk result (λ found. IsFound store.now table when.Now
        (has_any alternatives.now.column (values_of alternatives.now)) found.items) }
{
    current_with_each(
        memory,
        store,
        table,
        alternatives.column,
        &alternatives.values,
    )
}
