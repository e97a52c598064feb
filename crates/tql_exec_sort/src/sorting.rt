//! ORDER BY and DISTINCT. Each row is paired with the rank of its first sort value, a key of fixed size, and the pairs
//! are sorted. Two rows are compared by their ranks first, and their values are read only if the ranks are equal. Equal
//! rows are next to each other afterwards, so DISTINCT keeps the first of each run.
ghost use Rattle.std.specs.Prelude.{◌≡◌, ◌++◌, [], map, All, IfOk, List};
ghost use Rattle.std.specs.Ordering.{is_lt, ordering_then};
ghost use Rattle.std.specs.List.{dedup};
ghost use Rattle.std.specs.List.Sorted.{IsPermutation, IsSorted, IsSortedBy};
ghost use Rattle.tql_spec.specs.Bag.{SameBag};
ghost use Rattle.tql_spec.specs.Datum.{Row, same_row};
ghost use Rattle.tql_spec.specs.Definition.{cell};
ghost use Rattle.tql_spec.specs.Query.{by_columns, by_keys, row_order, if_distinct, in_order, directed};
ghost use Rattle.tql_spec.specs.Datum.{order as value_order};
ghost use Rattle.tql_bound.specs.Queries.{order_of};
ghost use Rattle.tql_value.specs.Views.{row_of, rows_of};
ghost use Rattle.tql_exec_sort.specs.Rank.{by_rest, first_of, row_in, HasRank, ranked_order};

use crate::rank::Rank;
use std::alloc::AllocError;
use std::cmp::Ordering;
use tql_bound::query::OrderKey;
use tql_expr::row::cell_at;
use tql_memory::Memory;
use tql_spec::order_is_one;
use tql_value::comparison::order;
use tql_value::value::Value;

/// Returns the order, reversed if the key is descending.
fn turned(falls: bool, rising: Ordering) -> Ordering
    ensures { result ≡ directed falls rising }
{
    if falls { rising.reverse() } else { rising }
}

/// Compares two rows by one sort key.
fn compare_by(key: OrderKey, a: &[Value], b: &[Value]) -> Ordering
    ensures { result ≡ directed key.falls
        (value_order (cell (row_of a.now) key.column) (cell (row_of b.now) key.column)) }
{
    let rising = order(cell_at(a, key.column), cell_at(b, key.column));
    turned(key.falls, rising)
}

/// Compares two rows by the sort keys in order.
fn compare_by_keys(keys: &[OrderKey], a: &[Value], b: &[Value]) -> Ordering
    ensures { result ≡ by_keys (map order_of keys.now) (row_of a.now) (row_of b.now) }
{
    for key in keys {
        match compare_by(*key, a, b) {
            Ordering::Equal => {}
            other => return other,
        }
    }
    Ordering::Equal
}

/// Compares two rows by all columns from the left. If one is a prefix of the other, the shorter one is less.
fn compare_by_columns(a: &[Value], b: &[Value]) -> Ordering
    ensures { result ≡ by_columns (row_of a.now) (row_of b.now) }
{
    let mut others = b;
    for x in a {
        match others.split_first() {
            None => return Ordering::Greater,
            Some((y, rest)) => match order(x.view(), y.view()) {
                Ordering::Equal => others = rest,
                other => return other,
            },
        }
    }
    if others.is_empty() {
        Ordering::Equal
    } else {
        Ordering::Less
    }
}

/// Compares two rows in the order in which they are printed.
fn compare_rows(keys: &[OrderKey], a: &[Value], b: &[Value]) -> Ordering
    ensures { result ≡ row_order (map order_of keys.now) (row_of a.now) (row_of b.now) }
{
    match compare_by_keys(keys, a, b) {
        Ordering::Equal => compare_by_columns(a, b),
        other => other,
    }
}

/// A row with the rank of its value in the first sort column.
#[derive(Drop)]
struct Ranked {
    rank: Rank,
    row: Vec<Value, Memory>,
}

/// Returns the first sort key, which is the first column, ascending, if there is no ORDER BY.
fn first_key(keys: &[OrderKey]) -> OrderKey
    ensures { order_of result ≡ first_of (map order_of keys.now) }
{
    match keys.first() {
        Some(key) => *key,
        None => OrderKey {
            column: 0,
            falls: false,
        },
    }
}

/// Compares two rows in the order in which they are printed. Their ranks have the same kind and number.
#[inline(never)]
fn compare_tied(keys: &[OrderKey], falls: bool, a: &Ranked, b: &Ranked) -> Ordering
    ensures { result ≡ ordering_then (directed falls (by_rest a.now.rank b.now.rank))
        (row_order (map order_of keys.now) (row_in a.now) (row_in b.now)) }
{
    match turned(falls, a.rank.order_rest(b.rank)) {
        Ordering::Equal => compare_rows(keys, &a.row, &b.row),
        other => other,
    }
}

/// Compares two rows in the order in which they are printed, by their ranks if these differ.
#[inline(always)]
fn compare_ranked(keys: &[OrderKey], falls: bool, a: &Ranked, b: &Ranked) -> Ordering
    ensures { result ≡ ranked_order falls (map order_of keys.now) a.now b.now }
{
    match turned(falls, a.rank.order(b.rank)) {
        Ordering::Equal => compare_tied(keys, falls, a, b),
        other => other,
    }
}

/// Moves the rows out of their list and pairs each with the rank of its value in a column. The only error is a refused
/// allocation.
fn ranked_rows(
    memory: Memory,
    column: usize,
    rows: &mut Vec<Vec<Value, Memory>, Memory>,
) -> Result<Vec<Ranked, Memory>, AllocError>
    ensures ranks { IfOk result (λ v. All (HasRank column) v.items) }
    ensures same { IfOk result (λ v. SameBag (map row_in v.items) (rows_of rows.old.items)) }
    ensures taken { IfOk result (λ v. rows.new.items ≡ []) }
{
    let mut ranked = Vec::with_capacity(memory, rows.len())?;
    while let Some(row) = rows.pop() {
        let rank = Rank::of(cell_at(&row, column));
        ranked.push(Ranked { rank, row })?;
    }
    Ok(ranked)
}

/// Appends the rows, without their ranks, to a list. The only error is a refused allocation.
fn put_back(
    ranked: Vec<Ranked, Memory>,
    rows: &mut Vec<Vec<Value, Memory>, Memory>,
) -> Result<(), AllocError>
    ensures { IfOk result (λ _. rows_of rows.new.items ≡ rows_of rows.old.items ++ map row_in ranked.entry.items) }
{
    for it in ranked {
        rows.push(it.row)?;
    }
    Ok(())
}

/// Sorts rows with their ranks. The direction is tested once, outside of the comparison.
fn sort_ranked(keys: &[OrderKey], falls: bool, ranked: &mut Vec<Ranked, Memory>)
    ensures sorted { IsSortedBy (λ x y. is_lt (ranked_order falls (map order_of keys.now) x y)) ranked.new.items }
    ensures same { IsPermutation ranked.old.items ranked.new.items }
{
    if falls {
        ranked.sort_unstable_by(|a, b| compare_ranked(keys, true, a, b));
    } else {
        ranked.sort_unstable_by(|a, b| compare_ranked(keys, false, a, b));
    }
}

/// Sorts rows in the order in which they are printed: by the keys, and then by all columns from the left, NULL first.
/// The only error is a refused allocation.
fn sort_rows(
    memory: Memory,
    rows: &mut Vec<Vec<Value, Memory>, Memory>,
    keys: &[OrderKey],
) -> Result<(), AllocError>
    ensures sorted { IfOk result (λ _. IsSorted (row_order (map order_of keys.now)) (rows_of rows.new.items)) }
    ensures same { IfOk result (λ _. SameBag (rows_of rows.new.items) (rows_of rows.old.items)) }
{
    if rows.len() < 2 {
        return Ok(());
    }
    let first = first_key(keys);
    let mut ranked = ranked_rows(memory, first.column, rows)?;
    sort_ranked(keys, first.falls, &mut ranked);
    put_back(ranked, rows)?;
    Ok(())
}

/// Keeps the first of adjacent equal rows.
fn drop_repeats(rows: &mut Vec<Vec<Value, Memory>, Memory>)
    ensures { rows_of rows.new.items ≡ dedup same_row (rows_of rows.old.items) }
{
    rows.dedup_by(|a, b| compare_by_columns(a, b).is_eq());
}

/// Sorts rows in the order in which they are printed: by the keys, and then by all columns from the left, NULL first.
/// Under DISTINCT equal rows are kept once, and NULL counts as equal to NULL (ISO/IEC 9075-2:2011, 7.12, 14.3; the
/// order beyond the keys is this project's choice). The only error is a refused allocation.
pub fn arrange(
    memory: Memory,
    rows: &mut Vec<Vec<Value, Memory>, Memory>,
    is_distinct: bool,
    keys: &[OrderKey],
) -> Result<(), AllocError>
    ensures { IfOk result (λ _. (bag : List Row) → SameBag (rows_of rows.old.items) bag
        → rows_of rows.new.items ≡ in_order (map order_of keys.now) (if_distinct is_distinct bag)) }
{
    order_is_one();
    sort_rows(memory, rows, keys)?;
    if is_distinct {
        drop_repeats(rows);
    }
    Ok(())
}
