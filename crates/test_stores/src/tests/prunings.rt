//! tql_store: the versions that a horizon leaves, at once and later, also where no memory is left.
ghost use Rattle.std.specs.Prelude.{IsTrue};
ghost use Rattle.tql_store.specs.StoreModel.{has_table as table_there};

use crate::tests::stores::{Shown, lists, renewal, row_of, shown, transact};
use std::alloc::AllocError;
use std::process::Abort;
use std::test::Fail;
use tql_memory::{Memory, memory};
use tql_row::row::Row;
use tql_store::store::Store;
use tql_tree_index::tree_index::TreeIndex;
use tql_value::calendar::FIRST_MOMENT;
use tql_value::refusal::Refusal;
use tql_value::table::TableId;
use tql_value::value::View;
use tql_value::when::When;
use tql_versions::version::{HIGH, Version};

/// Returns a row of each number.
fn rows_of(memory: Memory, numbers: &[i64]) -> Result<Vec<Row, Memory>, Refusal> {
    let mut rows: Vec<Row, Memory> = Vec::new(memory);
    for number in numbers {
        let row = row_of(memory, *number)?;
        rows.push(row)?;
    }
    Ok(rows)
}

/// Replaces all rows of a table at the moment by one of each number.
pub fn change(
    rt: &impl Abort,
    all: Memory,
    store: &mut Store<TreeIndex>,
    table: TableId,
    numbers: &[i64],
    moment: i64,
) -> Result<(), Fail> {
    assert!(rt; store.has_table(table));
    let rows = rows_of(all, numbers)?;
    let delta = renewal(all, store, table, rows)?;
    let made = transact(rt, store, moment, delta, true);
    assert!(rt; made);
    Ok(())
}

/// Adds a table whose rows are found by its first column, and by the second with the first.
pub fn add(
    rt: &impl Abort,
    all: Memory,
    store: &mut Store<TreeIndex>,
    versioned: bool,
) -> Result<TableId, Fail> {
    assert!(rt; store.table_count() < 1000);
    let table = store.add_table(versioned, lists(all)?, Some((1, 2)))?;
    Ok(table)
}

/// Returns all versions of a table, or its rows if it keeps no history.
fn versions(
    store: &Store<TreeIndex>,
    table: TableId,
) -> Result<Vec<Version<'_>, Memory>, AllocError>
    requires { IsTrue (table_there store.now table) }
{
    if store.is_versioned(table) {
        store.found(table, When::FromTo(0, HIGH))
    } else {
        store.found(table, When::Now)
    }
}

/// Returns the versions of a number just before a moment, or its rows if the table keeps no history.
fn numbered(
    store: &Store<TreeIndex>,
    table: TableId,
    number: i64,
    end: i64,
) -> Result<Vec<Version<'_>, Memory>, AllocError>
    requires { IsTrue (table_there store.now table) }
{
    let values = [View::Int(number)];
    if store.is_versioned(table) {
        store.found_with(table, &[0], &values, When::AsOf(end.saturating_sub(1)))
    } else {
        store.with_key(table, &[0], &values)
    }
}

/// Whether these are the one version.
fn is_only(found: &[Version<'_>], one: Shown) -> bool {
    found.len() == 1 && found.first().map(shown) == Some(one)
}

/// Whether the table has these versions and no others, and each of them is found by its number.
fn keeps(store: &Store<TreeIndex>, table: TableId, those: &[Shown]) -> Result<bool, AllocError> {
    if !store.has_table(table) {
        return Ok(false);
    }
    let all = versions(store, table)?;
    let mut are_right = all.len() == those.len();
    for one in those {
        let found = numbered(store, table, one.0, one.2)?;
        let is_there = all.iter().any(|version| shown(version) == *one);
        are_right = is_there && is_only(&found, *one) && are_right;
    }
    Ok(are_right)
}

/// One of two tables.
#[derive(Clone, Copy)]
enum Side {
    First,
    Second,
}

/// A step of a history.
#[derive(Clone, Copy)]
enum Step {
    /// Replaces all rows of a table at a moment by one of each number.
    Change(Side, &'static [i64], i64),
    /// Sets the horizon. No allocation is granted meanwhile.
    Prune(i64),
    /// Compares the versions of a table.
    Keeps(Side, &'static [Shown]),
}

/// Takes a step, and returns whether the store is then as it should be.
fn take(
    rt: &impl Abort,
    (own, all): (Memory, Memory),
    store: &mut Store<TreeIndex>,
    tables: (TableId, TableId),
    step: Step,
) -> Result<bool, Fail> {
    match step {
        Step::Change(side, numbers, moment) => {
            change(rt, all, store, of_side(tables, side), numbers, moment)?;
            Ok(true)
        }
        Step::Prune(horizon) => {
            assert!(rt; !store.has_transaction() && store.horizon() <= horizon);
            own.grant(0);
            store.prune(horizon);
            own.grant(u64::MAX);
            Ok(store.horizon() == horizon)
        }
        Step::Keeps(side, versions) => Ok(keeps(store, of_side(tables, side), versions)?),
    }
}

fn of_side((first, second): (TableId, TableId), side: Side) -> TableId {
    match side {
        Side::First => first,
        Side::Second => second,
    }
}

/// Whether the steps of a history lead where they should, in a store whose second table keeps a history or not.
fn is_followed(
    rt: &impl Abort,
    memories: (Memory, Memory),
    store: &mut Store<TreeIndex>,
    versioned: bool,
    steps: &[Step],
) -> Result<bool, Fail> {
    let (_, all) = memories;
    let tables = (add(rt, all, store, true)?, add(rt, all, store, versioned)?);
    let mut are_right = store.horizon() == FIRST_MOMENT;
    for step in steps {
        are_right = take(rt, memories, store, tables, *step)? && are_right;
    }
    Ok(are_right)
}

/// Does the same in a new store.
fn is_right(
    rt: &(impl Abort + AllocGlobal),
    versioned: bool,
    steps: &[Step],
) -> Result<bool, Fail> {
    let memories = (memory(rt.alloc(), u64::MAX)?, memory(rt.alloc(), u64::MAX)?);
    let mut store: Store<TreeIndex> = Store::new(memories.0);
    is_followed(rt, memories, &mut store, versioned, steps)
}

/// A history whose second table keeps none.
static ENDED: [Step; 20] = [
    Step::Change(Side::First, &[10], 10),
    Step::Change(Side::Second, &[11], 11),
    Step::Change(Side::First, &[20], 20),
    Step::Change(Side::Second, &[21], 21),
    Step::Change(Side::First, &[30], 30),
    Step::Change(Side::Second, &[31], 31),
    Step::Change(Side::First, &[40], 40),
    Step::Change(Side::Second, &[41], 41),
    Step::Prune(25),
    Step::Keeps(Side::First, &[(20, 20, 30), (30, 30, 40), (40, 40, HIGH)]),
    Step::Prune(30),
    Step::Prune(30),
    Step::Keeps(Side::First, &[(30, 30, 40), (40, 40, HIGH)]),
    Step::Change(Side::First, &[50], 50),
    Step::Keeps(Side::First, &[(30, 30, 40), (40, 40, 50), (50, 50, HIGH)]),
    Step::Prune(HIGH),
    Step::Keeps(Side::First, &[(50, 50, HIGH)]),
    Step::Change(Side::First, &[60], 60),
    Step::Keeps(Side::First, &[(50, 50, 60), (60, 60, HIGH)]),
    Step::Keeps(Side::Second, &[(41, 41, HIGH)]),
];

/// A history in both tables.
static OF_BOTH: [Step; 9] = [
    Step::Change(Side::First, &[10], 10),
    Step::Change(Side::Second, &[11], 11),
    Step::Change(Side::First, &[20], 20),
    Step::Change(Side::Second, &[21], 21),
    Step::Change(Side::First, &[30], 30),
    Step::Change(Side::Second, &[31], 31),
    Step::Prune(25),
    Step::Keeps(Side::First, &[(20, 20, 30), (30, 30, HIGH)]),
    Step::Keeps(Side::Second, &[(21, 21, 31), (31, 31, HIGH)]),
];

/// A history whose versions move to other places.
static MOVED: [Step; 11] = [
    Step::Change(Side::First, &[1, 2, 3], 10),
    Step::Change(Side::First, &[4, 5], 20),
    Step::Change(Side::First, &[6, 7], 30),
    Step::Change(Side::First, &[8], 40),
    Step::Prune(20),
    Step::Keeps(
        Side::First,
        &[
            (4, 20, 30),
            (5, 20, 30),
            (6, 30, 40),
            (7, 30, 40),
            (8, 40, HIGH),
        ],
    ),
    Step::Change(Side::First, &[9], 50),
    Step::Prune(30),
    Step::Keeps(
        Side::First,
        &[(6, 30, 40), (7, 30, 40), (8, 40, 50), (9, 50, HIGH)],
    ),
    Step::Prune(45),
    Step::Keeps(Side::First, &[(8, 40, 50), (9, 50, HIGH)]),
];

/// Tests that a horizon leaves what ends after it, and needs no memory.
#[test]
fn a_horizon_leaves_what_ends_after_it(rt: HostRuntime) -> Result<(), Fail> {
    let ended = is_right(&rt, false, &ENDED)?;
    let of_both = is_right(&rt, true, &OF_BOTH)?;
    let moved = is_right(&rt, true, &MOVED)?;
    assert!(rt; ended && of_both && moved, "{ended}, {of_both}, {moved}");
    Ok(())
}
