//! tql_store: the versions that readings by values find in a history, compared with a reading of all versions.
ghost use Rattle.std.specs.Prelude.{IsTrue};
ghost use Rattle.tql_store.specs.StoreModel.{has_table as table_there, is_versioned as table_versioned};

use crate::tests::stores::{lists, renewal};
use std::alloc::AllocError;
use std::process::Abort;
use std::test::Fail;
use tql_memory::{Memory, memory};
use tql_row::row::Row;
use tql_store::store::Store;
use tql_tree_index::tree_index::TreeIndex;
use tql_value::refusal::Refusal;
use tql_value::table::TableId;
use tql_value::value::View;
use tql_value::when::When;
use tql_versions::version::{HIGH, Version};

/// Returns a row for each number below `count`: the number, the day of the round and the day of the number.
fn rows_of(memory: Memory, count: i64, round: i64) -> Result<Vec<Row, Memory>, Refusal> {
    let mut rows = Vec::new(memory);
    for number in 0..count {
        let values = [View::Int(number), View::Day(round), View::Day(number)];
        let row = Row::of(memory, &values)?;
        rows.push(row)?;
    }
    Ok(rows)
}

/// Whether a version has the number, and the day of the round, if there is one.
fn is_of(version: &Version<'_>, number: i64, round: Option<i64>) -> bool {
    let is_numbered = match version.kept.row.column(0) {
        View::Int(own) => own == number,
        _ => false,
    };
    let is_of_round = match version.kept.row.column(1) {
        View::Day(day) => round.is_none_or(|round| day == round),
        _ => false,
    };
    is_numbered && is_of_round
}

/// Whether `those` are exactly the versions with the number, and of the round if there is one, among `found`.
fn are_those(
    found: &[Version<'_>],
    those: &[Version<'_>],
    number: i64,
    round: Option<i64>,
) -> bool {
    let count = found
        .iter()
        .filter(|version| is_of(version, number, round))
        .count();
    count == those.len()
        && those.iter().all(|one| {
            is_of(one, number, round)
                && found.iter().any(|version| {
                    version.id == one.id
                        && version.kept.start == one.kept.start
                        && version.end() == one.end()
                })
        })
}

/// Whether the versions of a number among `found` are found by it, and by it together with the day of the first round.
fn is_found(
    store: &Store<TreeIndex>,
    table: TableId,
    when: When,
    found: &[Version<'_>],
    number: i64,
) -> Result<bool, AllocError>
    requires there { IsTrue (table_there store.now table) }
    requires versioned { IsTrue (table_versioned store.now table) }
{
    let tuple = [View::Day(1), View::Int(number)];
    let by_number = store.found_with(table, &[0], &tuple[1..], when)?;
    let by_both = store.found_with(table, &[1, 0], &tuple, when)?;
    Ok(are_those(found, &by_number, number, None) && are_those(found, &by_both, number, Some(1)))
}

/// Whether the versions of every seventh number are found so.
fn agree(
    store: &Store<TreeIndex>,
    table: TableId,
    count: i64,
    when: When,
) -> Result<bool, AllocError> {
    if !store.has_table(table) || !store.is_versioned(table) {
        return Ok(false);
    }
    let found = store.found(table, when)?;
    let mut are_right = true;
    for number in 0..count {
        if number % 7 == 0 {
            are_right = is_found(store, table, when, &found, number)? && are_right;
        }
    }
    Ok(are_right)
}

/// The kinds of readings.
static READINGS: [When; 5] = [
    When::Now,
    When::AsOf(10),
    When::AsOf(25),
    When::FromTo(0, HIGH),
    When::Between(20, 30),
];

/// Whether `agree` holds in each kind of reading.
fn all_agree(store: &Store<TreeIndex>, table: TableId, count: i64) -> Result<bool, AllocError> {
    let mut are_right = true;
    for &when in &READINGS {
        are_right = agree(store, table, count, when)? && are_right;
    }
    Ok(are_right)
}

/// Renews the rows in the open transaction, with `granted` allocations. Returns whether they were enough.
fn renews(
    rt: &impl Abort,
    memories: (Memory, Memory),
    store: &mut Store<TreeIndex>,
    table: TableId,
    (count, round): (i64, i64),
    granted: u64,
) -> Result<bool, Fail> {
    let (little, all) = memories;
    assert!(rt; store.has_transaction() && store.has_table(table));
    let rows = rows_of(all, count, round)?;
    let delta = renewal(all, store, table, rows)?;
    assert!(rt; store.has_table(delta.table));
    little.grant(granted);
    let made = store.apply(delta).is_ok();
    little.grant(u64::MAX);
    Ok(made)
}

/// Renews the rows in a transaction of the round, with `granted` allocations in a first try, and without limit in a
/// second. Returns whether the first try succeeded, and whether the readings after each step were right.
fn transacts(
    rt: &impl Abort,
    memories: (Memory, Memory),
    store: &mut Store<TreeIndex>,
    table: TableId,
    (count, round): (i64, i64),
    granted: u64,
    keep: bool,
) -> Result<(bool, bool), Fail> {
    assert!(rt; 0 < round && round < 100 && !store.has_transaction());
    assert!(rt; store.is_later(10 * round));
    store.begin(10 * round);
    let made = renews(rt, memories, store, table, (count, round), granted)?;
    let mut are_right = all_agree(store, table, count)?;
    if !made {
        let made_now = renews(rt, memories, store, table, (count, round), u64::MAX)?;
        are_right = all_agree(store, table, count)? && made_now && are_right;
    }
    assert!(rt; store.has_transaction());
    if keep {
        store.commit();
    } else {
        store.rollback();
    }
    Ok((made, all_agree(store, table, count)? && are_right))
}

/// Runs five rounds in a store without tables. The fourth has `granted` allocations at first, and is rolled back or
/// kept. Returns whether no allocation failed, and whether all readings were right.
fn runs(
    rt: &impl Abort,
    memories: (Memory, Memory),
    store: &mut Store<TreeIndex>,
    count: i64,
    granted: u64,
    keep: bool,
) -> Result<(bool, bool), Fail> {
    assert!(rt; store.table_count() < 1000);
    let table = store.add_table(true, lists(memories.1)?, Some((1, 2)))?;
    let mut was_made = true;
    let mut are_right = true;
    for round in 1..6 {
        let (growths, kept) = if round == 4 {
            (granted, keep)
        } else {
            (u64::MAX, true)
        };
        let round = (count, round);
        let (made, right) = transacts(rt, memories, store, table, round, growths, kept)?;
        was_made = was_made && made;
        are_right = are_right && right;
    }
    Ok((was_made, are_right))
}

/// Does the same in a new store.
fn is_right(
    rt: &impl Abort,
    memories: (Memory, Memory),
    count: i64,
    granted: u64,
    keep: bool,
) -> Result<(bool, bool), Fail> {
    let mut store: Store<TreeIndex> = Store::new(memories.0);
    runs(rt, memories, &mut store, count, granted, keep)
}

#[test]
fn versions_are_found_by_their_values(rt: HostRuntime) -> Result<(), Fail> {
    let all = memory(rt.alloc(), u64::MAX)?;
    let little = memory(rt.alloc(), u64::MAX)?;
    let (made, mut are_right) = is_right(&rt, (little, all), 500, 0, true)?;
    assert!(rt; are_right && !made);
    let mut was_made = false;
    for granted in 0..96 {
        let (_, undone_right) = is_right(&rt, (little, all), 5, granted, false)?;
        let (made, kept_right) = is_right(&rt, (little, all), 5, granted, true)?;
        was_made = made;
        are_right = are_right && undone_right && kept_right;
    }
    assert!(rt; are_right && was_made);
    Ok(())
}
