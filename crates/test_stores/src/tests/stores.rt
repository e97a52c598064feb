//! tql_store: a short history, run with each allocation made to fail, in order.
ghost use Rattle.std.specs.Prelude.{◌≡◌, [], map, IfOk, IsTrue};
ghost use Rattle.tql_store.specs.StoreModel.{has_table as table_there, is_versioned as table_versioned, AreRemovable};

use std::alloc::AllocError;
use std::process::Abort;
use std::test::Fail;
use test_devices::mute::Mute;
use tql_index::index::IntervalIndex;
use tql_list_index::list_index::ListIndex;
use tql_memory::{Memory, memory};
use tql_period::period::Period;
use tql_row::row::Row;
use tql_store::store::{Delta, Store};
use tql_tree_index::tree_index::TreeIndex;
use tql_value::refusal::Refusal;
use tql_value::table::TableId;
use tql_value::value::View;
use tql_value::when::When;
use tql_versions::version::{HIGH, Version};

/// The number in a row, its start and its end.
pub type Shown = (i64, i64, i64);

/// Returns the parts of a version that a test compares.
pub fn shown(version: &Version<'_>) -> Shown {
    let number = match version.kept.row.column(0) {
        View::Int(number) => number,
        _ => -1,
    };
    (number, version.kept.start, version.end())
}

/// Whether a reading finds exactly the wanted version, or no version if none is wanted. If memory is not ample, the
/// reading may also fail.
fn finds(
    ample: bool,
    found: Result<Vec<Version<'_>, Memory>, AllocError>,
    want: Option<Shown>,
) -> bool {
    match found {
        Ok(found) => found.len() <= 1 && found.first().map(shown) == want,
        Err(AllocError) => !ample,
    }
}

/// Returns a row of the number: the number, the day of that number and the tenth day after it.
pub fn row_of(memory: Memory, number: i64) -> Result<Row, AllocError> {
    let to = number.saturating_add(10);
    Row::of(
        memory,
        &[View::Int(number), View::Day(number), View::Day(to)],
    )
}

/// Returns a change that adds a row of the number.
fn insertion(memory: Memory, table: TableId, number: i64) -> Result<Delta, Refusal>
    ensures none { IfOk result (λ d. d.removed.items ≡ []) }
{
    let mut added = Vec::new(memory);
    added.push(row_of(memory, number)?)?;
    Ok(Delta {
        table,
        removed: Vec::new(memory),
        added,
        count: 1,
    })
}

/// Returns the ids of the versions.
fn ids_of(memory: Memory, found: &[Version<'_>]) -> Result<Vec<usize, Memory>, Refusal>
    ensures { IfOk result (λ ids. ids.items ≡ map (λ v. v.id) found.now) }
{
    let mut ids = Vec::new(memory);
    for version in found {
        ids.push(version.id)?;
    }
    Ok(ids)
}

/// Returns the ids of all current rows.
pub fn current_ids<I: IntervalIndex>(
    memory: Memory,
    store: &Store<I>,
    table: TableId,
) -> Result<Vec<usize, Memory>, Refusal>
    requires { IsTrue (table_there store.now table) }
    ensures { IfOk result (λ ids. AreRemovable store.now table ids.items) }
{
    let found = store.found(table, When::Now)?;
    let ids = ids_of(memory, &found)?;
    Ok(ids)
}

/// Returns a change that removes all rows and adds these.
pub fn renewal<I: IntervalIndex>(
    memory: Memory,
    store: &Store<I>,
    table: TableId,
    added: Vec<Row, Memory>,
) -> Result<Delta, Refusal>
    requires { IsTrue (table_there store.now table) }
    ensures { IfOk result (λ d. AreRemovable store.now d.table d.removed.items) }
{
    let removed = current_ids(memory, store, table)?;
    Ok(Delta {
        table,
        removed,
        added,
        count: 1,
    })
}

/// Makes a change in a transaction of its own, and returns whether it was made and kept.
pub fn transact<I: IntervalIndex>(
    rt: &impl Abort,
    store: &mut Store<I>,
    moment: i64,
    delta: Delta,
    keep: bool,
) -> bool
    requires { AreRemovable store.old delta.table delta.removed.items }
{
    assert!(rt; !store.has_transaction() && store.has_table(delta.table));
    assert!(rt; store.is_later(moment) && moment < HIGH);
    store.begin(moment);
    let made = store.apply(delta).is_ok();
    if keep {
        store.commit();
    } else {
        store.rollback();
    }
    made && keep
}

/// Adds a row at 10, adds one in a transaction that is rolled back at 20, and removes all at 30. Returns whether the
/// first and the last change were made.
fn run<I: IntervalIndex>(
    rt: &impl Abort,
    ample: Memory,
    store: &mut Store<I>,
    table: TableId,
) -> Result<(bool, bool), Fail> {
    let first = insertion(ample, table, 7)?;
    let inserted = transact(rt, store, 10, first, true);
    let second = insertion(ample, table, 8)?;
    transact(rt, store, 20, second, false);
    assert!(rt; store.has_table(table));
    let removed = match renewal(ample, store, table, Vec::new(ample)) {
        Ok(third) => transact(rt, store, 30, third, true),
        Err(_) => false,
    };
    Ok((inserted, removed))
}

/// A way to look up the current rows.
#[derive(Clone, Copy)]
enum Lookup {
    /// By values in columns.
    Key(&'static [usize], &'static [View<'static>]),
    /// By a day in the period of the second and the third column.
    Day(i64),
    /// By a period that shares a day with that of two columns.
    Period((usize, usize), (i64, i64)),
    /// By values in columns and a period that shares a day with that of the second and the third column.
    KeyIn(&'static [usize], &'static [View<'static>], (i64, i64)),
}

/// The version that a reading should find.
#[derive(Clone, Copy)]
enum Want {
    Nothing,
    /// The version that began at 10.
    Old,
    /// The same, as long as it is current.
    Current,
}

const SEVEN: &[View<'static>] = &[View::Int(7)];

const EIGHT: &[View<'static>] = &[View::Int(8)];

const SEVENTEENTH: &[View<'static>] = &[View::Day(17)];

/// A period that shares a day with that of the row, which begins at day 7 and ends before day 17; and one that begins
/// where it ends.
const SHARING: (i64, i64) = (16, 18);

const MEETING: (i64, i64) = (17, 18);

/// Lookups by the values of an index, by others, by NULL, by the period, and by both; and what they find.
static LOOKUPS: [(Lookup, Want); 17] = [
    (Lookup::Key(&[0], SEVEN), Want::Current),
    (Lookup::Key(&[0], EIGHT), Want::Nothing),
    (Lookup::Key(&[0], &[View::Null]), Want::Nothing),
    (Lookup::Key(&[0], &[View::Day(7)]), Want::Nothing),
    (
        Lookup::Key(&[1, 0], &[View::Day(7), View::Int(7)]),
        Want::Current,
    ),
    (
        Lookup::Key(&[1, 0], &[View::Day(8), View::Int(7)]),
        Want::Nothing,
    ),
    (Lookup::Key(&[2], SEVENTEENTH), Want::Current),
    (Lookup::Day(6), Want::Nothing),
    (Lookup::Day(7), Want::Current),
    (Lookup::Day(17), Want::Nothing),
    (Lookup::Period((1, 2), SHARING), Want::Current),
    (Lookup::Period((1, 2), MEETING), Want::Nothing),
    (Lookup::Period((2, 1), SHARING), Want::Nothing),
    (Lookup::KeyIn(&[0], SEVEN, SHARING), Want::Current),
    (Lookup::KeyIn(&[0], SEVEN, MEETING), Want::Nothing),
    (Lookup::KeyIn(&[0], EIGHT, SHARING), Want::Nothing),
    (Lookup::KeyIn(&[2], SEVENTEENTH, SHARING), Want::Current),
];

/// Readings of the history of all rows, or of those with values in columns; and what they find.
static READINGS: [(Option<(&[usize], &[View<'static>])>, When, Want); 15] = [
    (None, When::AsOf(9), Want::Nothing),
    (None, When::AsOf(10), Want::Old),
    (None, When::AsOf(29), Want::Old),
    (None, When::AsOf(30), Want::Current),
    (None, When::FromTo(0, 10), Want::Nothing),
    (None, When::FromTo(0, 11), Want::Old),
    (None, When::Between(0, 10), Want::Old),
    (None, When::Between(10, 9), Want::Nothing),
    (Some((&[0], SEVEN)), When::AsOf(9), Want::Nothing),
    (Some((&[0], SEVEN)), When::AsOf(10), Want::Old),
    (Some((&[0], EIGHT)), When::AsOf(10), Want::Nothing),
    (Some((&[0], SEVEN)), When::AsOf(30), Want::Current),
    (Some((&[0], SEVEN)), When::Between(0, 10), Want::Old),
    (Some((&[2], SEVENTEENTH)), When::FromTo(0, 11), Want::Old),
    (Some((&[0], SEVEN)), When::Now, Want::Current),
];

/// Returns the current rows that a lookup finds.
fn looked_up<I: IntervalIndex>(
    store: &Store<I>,
    table: TableId,
    lookup: Lookup,
) -> Result<Vec<Version<'_>, Memory>, AllocError>
    requires { IsTrue (table_there store.now table) }
{
    match lookup {
        Lookup::Key(columns, values) => store.with_key(table, columns, values),
        Lookup::Day(day) => store.holding(table, (1, 2), day),
        Lookup::Period(columns, (start, end)) => {
            let period = Period::new(start, end).ok_or(AllocError)?;
            store.sharing(table, columns, period)
        }
        Lookup::KeyIn(columns, values, (start, end)) => {
            let period = Period::new(start, end).ok_or(AllocError)?;
            store.with_key_in(table, columns, values, (1, 2), period)
        }
    }
}

/// Returns the versions that a reading of a versioned table finds.
fn read<'a, I: IntervalIndex>(
    store: &'a Store<I>,
    table: TableId,
    key: Option<(&[usize], &[View<'_>])>,
    when: When,
) -> Result<Vec<Version<'a>, Memory>, AllocError>
    requires there { IsTrue (table_there store.now table) }
    requires versioned { IsTrue (table_versioned store.now table) }
{
    match key {
        Some((columns, values)) => store.found_with(table, columns, values, when),
        None => store.found(table, when),
    }
}

/// Returns the version that a reading should find.
fn wanted(want: Want, old: Option<Shown>, current: Option<Shown>) -> Option<Shown> {
    match want {
        Want::Nothing => None,
        Want::Old => old,
        Want::Current => current,
    }
}

/// Whether each lookup finds what it should.
fn has_current<I: IntervalIndex>(
    ample: bool,
    store: &Store<I>,
    table: TableId,
    current: Option<Shown>,
) -> bool {
    if !store.has_table(table) {
        return false;
    }
    let mut are_right = true;
    for &(lookup, want) in &LOOKUPS {
        let found = looked_up(store, table, lookup);
        are_right = finds(ample, found, wanted(want, None, current)) && are_right;
    }
    are_right
}

/// Whether each reading of the history finds what it should.
fn has_history<I: IntervalIndex>(
    ample: bool,
    store: &Store<I>,
    table: TableId,
    old: Option<Shown>,
    current: Option<Shown>,
) -> bool {
    if !store.has_table(table) || !store.is_versioned(table) {
        return false;
    }
    let mut are_right = true;
    for &(key, when, want) in &READINGS {
        let found = read(store, table, key, when);
        are_right = finds(ample, found, wanted(want, old, current)) && are_right;
    }
    are_right
}

/// Whether the id of each current row names it, and no other id names one.
fn names_rows<I: IntervalIndex>(
    ample: bool,
    store: &Store<I>,
    table: TableId,
    current: Option<Shown>,
) -> bool {
    if !store.has_table(table) {
        return false;
    }
    match store.found(table, When::Now) {
        Ok(found) => {
            let first = found.first().map_or(0, |version| version.id);
            store.row(table, first).map(|version| shown(&version)) == current
                && store.row(table, first.saturating_add(1)).is_none()
        }
        Err(AllocError) => !ample,
    }
}

/// Whether the store has the versions that `run` leaves, by which of its two changes were made.
fn is_left<I: IntervalIndex>(
    store: &Store<I>,
    table: TableId,
    ample: bool,
    versioned: bool,
    made: (bool, bool),
) -> bool {
    let (inserted, removed) = made;
    let end = if removed { 30 } else { HIGH };
    let old = if inserted { Some((7, 10, end)) } else { None };
    let current = if removed { None } else { old };
    if !store.has_table(table) || store.has_transaction() || ample && !(inserted && removed) {
        return false;
    }
    finds(ample, store.found(table, When::Now), current)
        && has_current(ample, store, table, current)
        && names_rows(ample, store, table, current)
        && versioned == store.is_versioned(table)
        && (!versioned || has_history(ample, store, table, old, current))
}

/// Removes the table, if it can be removed, and returns whether no table is left.
fn drops<I: IntervalIndex>(store: &mut Store<I>, table: TableId) -> bool {
    if !store.has_table(table) || store.has_transaction() {
        return false;
    }
    store.drop_table(table);
    store.table_count() == 0
}

/// Returns the lists of columns by which rows are found: the first, and the second with the first.
pub fn lists(memory: Memory) -> Result<Vec<Vec<usize, Memory>, Memory>, Refusal> {
    let mut one = Vec::new(memory);
    one.push(0)?;
    let mut two = Vec::new(memory);
    two.push(1)?;
    two.push(0)?;
    let mut lists = Vec::new(memory);
    lists.push(one)?;
    lists.push(two)?;
    Ok(lists)
}

/// Whether the whole history of a new store, whose memory is ample or not, is right.
fn is_right<I: IntervalIndex>(
    rt: &impl Abort,
    store: &mut Store<I>,
    ample: bool,
    all: Memory,
    versioned: bool,
) -> Result<bool, Fail> {
    assert!(rt; store.table_count() < 1000);
    match store.add_table(versioned, lists(all)?, Some((1, 2))) {
        Ok(table) => {
            let made = run(rt, all, store, table)?;
            Ok(is_left(store, table, ample, versioned, made) && drops(store, table))
        }
        Err(refusal) => {
            Ok(refusal == Refusal::OutOfMemory && store.table_count() == 0 && !ample)
        }
    }
}

/// Whether the history is right in a store of this memory.
fn is_right_in<I: IntervalIndex>(
    rt: &impl Abort,
    own: Memory,
    ample: bool,
    all: Memory,
    versioned: bool,
) -> Result<bool, Fail> {
    let mut store: Store<I> = Store::new(own);
    is_right(rt, &mut store, ample, all, versioned)
}

/// Whether the history is right with ample memory, and with no allocation granted, with one, and so on, until some are
/// left.
fn is_right_in_turn<I: IntervalIndex>(
    rt: &(impl Abort + AllocGlobal),
    versioned: bool,
) -> Result<bool, Fail> {
    let all = memory(rt.alloc(), u64::MAX)?;
    let mut are_right = is_right_in::<I>(rt, all, true, all, versioned)?;
    let mut left = 0;
    for granted in 0..96 {
        let little = memory(rt.alloc(), granted)?;
        are_right = is_right_in::<I>(rt, little, false, all, versioned)? && are_right;
        left = little.left();
    }
    Ok(are_right && left > 0)
}

#[test]
fn each_growth_is_refused_in_turn(rt: HostRuntime) -> Result<(), Fail> {
    for versioned in [true, false] {
        let is_right_of_tree = is_right_in_turn::<TreeIndex>(&rt, versioned)?;
        let is_right_of_list = is_right_in_turn::<ListIndex>(&rt, versioned)?;
        assert!(rt; is_right_of_tree && is_right_of_list);
    }
    Ok(())
}

/// Lookups in a store whose index answers no question, and whether they are refused.
static REFUSED_LOOKUPS: [(Lookup, bool); 3] = [
    (Lookup::Key(&[0], SEVEN), true),
    (Lookup::Day(7), true),
    (Lookup::Key(&[2], SEVENTEENTH), false),
];

/// Readings of its history, and whether they are refused.
static REFUSED_READINGS: [(Option<(&[usize], &[View<'static>])>, When, bool); 5] = [
    (None, When::Now, false),
    (None, When::AsOf(10), true),
    (None, When::FromTo(0, 11), true),
    (None, When::Between(0, 10), true),
    (Some((&[0], SEVEN)), When::AsOf(10), true),
];

/// Whether a reading is refused if it should be, and else finds nothing.
fn is_refused(found: Result<Vec<Version<'_>, Memory>, AllocError>, refused: bool) -> bool {
    match found {
        Ok(found) => !refused && found.is_empty(),
        Err(AllocError) => refused,
    }
}

/// Whether the lookups that ask the index are refused.
fn refuses_lookups(store: &Store<Mute>, table: TableId) -> bool {
    if !store.has_table(table) {
        return false;
    }
    let mut are_right = true;
    for &(lookup, refused) in &REFUSED_LOOKUPS {
        are_right = is_refused(looked_up(store, table, lookup), refused) && are_right;
    }
    are_right
}

/// Whether the readings that ask the index are refused.
fn refuses_readings(store: &Store<Mute>, table: TableId) -> bool {
    if !store.has_table(table) || !store.is_versioned(table) {
        return false;
    }
    let mut are_right = true;
    for &(key, when, refused) in &REFUSED_READINGS {
        are_right = is_refused(read(store, table, key, when), refused) && are_right;
    }
    are_right
}

/// Makes the history in a store whose index answers no question, and returns whether its readings are refused.
fn is_refused_by_the_index(
    rt: &impl Abort,
    all: Memory,
    store: &mut Store<Mute>,
) -> Result<bool, Fail> {
    assert!(rt; store.table_count() < 1000);
    let table = store.add_table(true, lists(all)?, Some((1, 2)))?;
    let made = run(rt, all, store, table)?;
    Ok(made == (true, true) && refuses_lookups(store, table) && refuses_readings(store, table))
}

#[test]
fn what_the_index_refuses_is_refused(rt: HostRuntime) -> Result<(), Fail> {
    let all = memory(rt.alloc(), u64::MAX)?;
    let mut store: Store<Mute> = Store::new(all);
    assert!(rt; is_refused_by_the_index(&rt, all, &mut store)?);
    Ok(())
}
