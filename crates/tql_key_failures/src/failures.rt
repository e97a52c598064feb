//! Finds the row that fails in a key or reference, for the diagnostic of a refused change. The tests of `tql_keys` only
//! answer whether all keys and references hold. So they are run again here, in loops that know their position, and a
//! change that is accepted pays nothing for it.
ghost use Rattle.std.specs.Prelude.{◌≡◌, ◌<◌, IfOk, IfSome, IsTrue, length, map, option_map, slice_get};
ghost use Rattle.tql_spec.specs.Bag.{SameBag};
ghost use Rattle.tql_spec.specs.Definition.{shown, table_at};
ghost use Rattle.tql_catalog.specs.Definitions.{key_of, reference_of};
ghost use Rattle.tql_catalog.specs.Rows.{are_assignable};
ghost use Rattle.tql_catalog.specs.Tables.{definitions_of};
ghost use Rattle.tql_expr.specs.Shown.{shown_by};
ghost use Rattle.tql_store.specs.StoreModel.{has_table, is_among};
ghost use Rattle.tql_key_rows.specs.Asked.{new_rows, row_named};
ghost use Rattle.tql_key_rows.specs.Coming.{TuplesRise};
ghost use Rattle.tql_keys.specs.Checked.{AreThere, has_parent};
ghost use Rattle.tql_key_failures.specs.Failing as spec;

use std::alloc::AllocError;
use tql_catalog::catalog::{Catalog, Table};
use tql_catalog::constraint::{Key, Reference};
use tql_catalog::table_def::TableDef;
use tql_expr::stored::StoredRow;
use tql_index::index::IntervalIndex;
use tql_key_clashes::keys::key_after;
use tql_key_clashes::rivals::can_clash;
use tql_key_rows::change::{Change, rising};
use tql_key_rows::coming::sorted_coming;
use tql_key_rows::finding::SoughtColumns;
use tql_key_rows::ranks::compare_ranks;
use tql_key_rows::reading::{clash, current_row, period, tuple_of};
use tql_keys::check::{read_key, reference_after};
use tql_keys::references::{is_met, is_met_now, is_spared_at, rows_that_go, sort_going};
use tql_memory::Memory;
use tql_store::store::{Delta, Store};

/// A row of a changed table, or of a table that refers to it.
#[derive(Clone, Copy)]
pub enum RowRef {
    /// A row that the change adds, by its index among the added rows.
    Added(usize),
    /// A row of the table, by its id.
    Stored(usize),
}

/// A key that does not hold after a change.
#[derive(Clone, Copy)]
pub struct KeyFailure {
    /// The index of the key among those of the table.
    pub key: usize,
    /// The index of the failing row among the added rows.
    pub row: usize,
    /// The row that it clashes with.
    pub other: RowRef,
}

/// A reference that does not hold after a change.
#[derive(Clone, Copy)]
pub struct ReferenceFailure {
    /// The index in the catalog of the child table.
    pub child: usize,
    /// The index of the reference among those of the child table.
    pub reference: usize,
    /// A row of the child table that no row of the parent table matches.
    pub row: RowRef,
}

/// An added row and its index.
#[derive(Clone, Copy)]
struct Numbered<'a> {
    row: StoredRow<'a>,
    number: usize,
}

/// Two added rows by their indexes, the smaller one first.
#[derive(Clone, Copy)]
struct Pair {
    first: usize,
    second: usize,
}

impl Pair {
    /// Returns the pair of two indexes in rising order.
    fn of(number: usize, other: usize) -> Pair {
        Pair {
            first: number.min(other),
            second: number.max(other),
        }
    }

    /// Returns the pair whose second row comes first.
    fn sooner(self, other: Option<Pair>) -> Pair {
        match other {
            Some(other) if other.second <= self.second => other,
            _ => self,
        }
    }
}

/// Returns the added rows that can clash with others.
fn numbered_rivals<'a>(
    memory: Memory,
    definition: &TableDef,
    key: &Key,
    change: &Change<'a>,
) -> Result<Vec<Numbered<'a>, Memory>, AllocError> {
    let mut rivals = Vec::new(memory);
    for number in 0..change.added.len() {
        let row = current_row(definition, &change.added[number], change.moment);
        if can_clash(definition, key, &row) {
            rivals.push(Numbered { row, number })?;
        }
    }
    Ok(rivals)
}

/// Sorts rows by their ranks, and rows of one rank by their indexes.
fn sort_rivals(definition: &TableDef, key: &Key, rivals: &mut Vec<Numbered<'_>, Memory>) {
    rivals.sort_unstable_by(|a, b| {
        let by_number = a.number.cmp(&b.number);
        compare_ranks(definition, &key.columns, &a.row, &b.row).then(by_number)
    });
}

/// Returns two added rows that clash, if any do. Sorted by their ranks, two rows clash only if two neighbours do. Of
/// the neighbours that clash, it returns the pair whose second row comes first.
fn clashing_pair(
    memory: Memory,
    definition: &TableDef,
    key: &Key,
    change: &Change<'_>,
) -> Result<Option<Pair>, AllocError> {
    let mut rivals = numbered_rivals(memory, definition, key, change)?;
    sort_rivals(definition, key, &mut rivals);
    let mut found = None;
    for place in 1..rivals.len() {
        let near = rivals[place - 1];
        let far = rivals[place];
        if clash(definition, key, &near.row, &far.row) {
            found = Some(Pair::of(near.number, far.number).sooner(found));
        }
    }
    Ok(found)
}

/// Returns the id of the first unchanged row of the table that clashes with an added row.
fn rival_of<I: IntervalIndex>(
    memory: Memory,
    store: &Store<I>,
    sought: &SoughtColumns<'_>,
    key: &Key,
    change: &Change<'_>,
    row: &StoredRow<'_>,
) -> Result<Option<usize>, AllocError>
    requires { IsTrue (has_table store.now sought.now.table.now.id) }
{
    let tuple = tuple_of(memory, row, sought.columns)?;
    let period = period(&sought.table.definition, row);
    let found = sought.find_in(memory, store, &tuple, key.by_period, period)?;
    let others = found.as_slice();
    for other in others {
        if !change.removes(other.id) {
            return Ok(Some(other.id));
        }
    }
    Ok(None)
}

/// Returns the failure of an added row, if it clashes with the row `rival` of the table or is the second row of `pair`.
fn failure_of(
    key: usize,
    row: usize,
    rival: Option<usize>,
    pair: Option<Pair>,
) -> Option<KeyFailure> {
    let other = match (rival, pair) {
        (Some(id), _) => RowRef::Stored(id),
        (None, Some(pair)) if pair.second == row => RowRef::Added(pair.first),
        (None, _) => return None,
    };
    Some(KeyFailure { key, row, other })
}

/// Returns a row that fails in a key: the first added row that clashes with an unchanged row, or is the second of the
/// pair that `clashing_pair` chooses.
fn failed_row<I: IntervalIndex>(
    memory: Memory,
    store: &Store<I>,
    table: &Table,
    key: &Key,
    number: usize,
    change: &Change<'_>,
) -> Result<Option<KeyFailure>, AllocError>
    requires there { IsTrue (has_table store.now table.now.id) }
    requires columns { IsTrue (are_assignable table.now.definition (key_of key.now).columns) }
{
    let definition = &table.definition;
    let pair = clashing_pair(memory, definition, key, change)?;
    let sought = SoughtColumns::of(memory, table, &key.columns)?;
    for row in 0..change.added.len() {
        let new = current_row(definition, &change.added[row], change.moment);
        let rival = rival_of(memory, store, &sought, key, change, &new)?;
        if let Some(failure) = failure_of(number, row, rival, pair) {
            return Ok(Some(failure));
        }
    }
    Ok(None)
}

/// Returns an added row, as its table shows it.
fn added_row<'a>(definition: &TableDef, change: &Change<'a>, number: usize) -> Option<StoredRow<'a>>
    ensures { option_map shown_by result
        ≡ slice_get (new_rows definition.now change.now.moment change.now.added.now) number }
{
    let row = change.added.get(number)?;
    Some(current_row(definition, row, change.moment))
}

/// Returns a row of the table, as the table shows it. None if the change removes it.
fn staying_row<'s, I: IntervalIndex>(
    store: &'s Store<I>,
    table: &Table,
    change: &Change<'_>,
    id: usize,
) -> Option<StoredRow<'s>>
    requires { IsTrue (has_table store.now table.now.id) }
    ensures { option_map shown_by result ≡ spec.if_it_stays (is_among id change.now.removed.now)
        (option_map (shown table.now.definition) (row_named store.now table.now.id id)) }
{
    if change.removes(id) {
        return None;
    }
    let named = store.row(table.id, id)?;
    Some(current_row(&table.definition, &named.kept.row, named.kept.start))
}

/// Whether there are two rows and a key, and the rows clash in it.
fn do_clash(
    definition: &TableDef,
    key: Option<&Key>,
    row: Option<StoredRow<'_>>,
    other: Option<StoredRow<'_>>,
) -> bool
    ensures { result ≡ spec.do_clash definition.now (option_map (λ k. key_of k.now) key.entry)
        (option_map shown_by row.entry) (option_map shown_by other.entry) }
{
    match (key, row, other) {
        (Some(key), Some(row), Some(other)) => clash(definition, key, &row, &other),
        _ => false,
    }
}

/// Returns the key at an index.
fn key_at(definition: &TableDef, number: usize) -> Option<&Key>
    ensures { option_map (λ k. key_of k.now) result ≡ slice_get definition.now.keys number }
{
    let key = definition.keys().get(number)?;
    Some(key)
}

/// Returns the row that an added row clashes with, as its table shows it.
fn other_row<'a, I: IntervalIndex>(
    store: &'a Store<I>,
    table: &Table,
    change: &Change<'a>,
    other: RowRef,
) -> Option<StoredRow<'a>>
    requires { IsTrue (has_table store.now table.now.id) }
    ensures { option_map shown_by result ≡ spec.row_at table.now.definition (row_named store.now table.now.id)
        change.now.removed.now
        (new_rows table.now.definition change.now.moment change.now.added.now) other }
{
    match other {
        RowRef::Added(number) => added_row(&table.definition, change, number),
        RowRef::Stored(id) => staying_row(store, table, change, id),
    }
}

/// Whether `other` is a different row than the added row at index `row`.
fn is_another(row: usize, other: RowRef) -> bool
    ensures { result ≡ spec.is_another row other }
{
    match other {
        RowRef::Added(number) => row != number,
        RowRef::Stored(_) => true,
    }
}

/// Whether the failure is one: the added row clashes with another added row, or with an unchanged row of the table.
fn is_failure<I: IntervalIndex>(
    store: &Store<I>,
    table: &Table,
    change: &Change<'_>,
    failure: KeyFailure,
) -> bool
    requires { IsTrue (has_table store.now table.now.id) }
    ensures { result ≡ spec.is_key_failure table.now.definition (row_named store.now table.now.id)
        change.now.removed.now
        (new_rows table.now.definition change.now.moment change.now.added.now) failure }
{
    let key = key_at(&table.definition, failure.key);
    let row = added_row(&table.definition, change, failure.row);
    let other = other_row(store, table, change, failure.other);
    is_another(failure.row, failure.other) && do_clash(&table.definition, key, row, other)
}

/// Returns the failure if it is one.
fn tested<I: IntervalIndex>(
    store: &Store<I>,
    table: &Table,
    change: &Change<'_>,
    found: Option<KeyFailure>,
) -> Option<KeyFailure>
    requires { IsTrue (has_table store.now table.now.id) }
    ensures { IfSome result (λ f. IsTrue (spec.is_key_failure table.now.definition
        (row_named store.now table.now.id) change.now.removed.now
        (new_rows table.now.definition change.now.moment change.now.added.now) f)) }
{
    let failure = found?;
    if is_failure(store, table, change, failure) {
        Some(failure)
    } else {
        None
    }
}

/// Returns a row that fails in the key at an index. None if the key holds after the change.
fn failed_at<I: IntervalIndex>(
    memory: Memory,
    store: &Store<I>,
    table: &Table,
    number: usize,
    change: &Change<'_>,
) -> Result<Option<KeyFailure>, AllocError>
    requires { IsTrue (has_table store.now table.now.id) }
{
    let Some(key) = table.definition.keys().get(number) else {
        return Ok(None);
    };
    if key_after(memory, store, table, key, change)? {
        return Ok(None);
    }
    failed_row(memory, store, table, key, number, change)
}

/// Returns the first key that does not hold after a change, with a row that fails in it.
fn first_failed<I: IntervalIndex>(
    memory: Memory,
    store: &Store<I>,
    table: &Table,
    change: &Change<'_>,
) -> Result<Option<KeyFailure>, AllocError>
    requires { IsTrue (has_table store.now table.now.id) }
{
    for number in 0..table.definition.keys().len() {
        let found = failed_at(memory, store, table, number, change)?;
        if found.is_some() {
            return Ok(found);
        }
    }
    Ok(None)
}

/// Returns the first key of a table that does not hold after a change, with a row that fails in it. Added rows start at
/// `moment`, in microseconds since 1970-01-01. What it reports is a failure: the row clashes with another added row, or
/// with an unchanged row of the table. The only error is a refused allocation. Costs as much as the test of the keys.
pub fn failed_key<I: IntervalIndex>(
    memory: Memory,
    store: &Store<I>,
    table: &Table,
    delta: &Delta,
    moment: i64,
) -> Result<Option<KeyFailure>, AllocError>
    requires { IsTrue (has_table store.now table.now.id) }
    ensures { IfOk result (λ found. IfSome found (λ f. IsTrue (spec.is_key_failure table.now.definition
        (row_named store.now table.now.id) delta.now.removed.items
        (new_rows table.now.definition moment delta.now.added.items) f))) }
{
    let removed = rising(memory, &delta.removed)?;
    let change = Change {
        removed: &removed,
        added: &delta.added,
        moment,
        given: &delta.removed,
    };
    let found = first_failed(memory, store, table, &change)?;
    Ok(tested(store, table, &change, found))
}

/// Returns the first row added to a child table that no row of the parent table matches.
fn unmet_added<I: IntervalIndex>(
    memory: Memory,
    store: &Store<I>,
    child: &TableDef,
    reference: &Reference,
    parent: &Table,
    change: &Change<'_>,
) -> Result<Option<RowRef>, AllocError>
    requires there { IsTrue (has_table store.now parent.now.id) }
    requires columns { IsTrue (are_assignable parent.now.definition (reference_of reference.now).parent_columns) }
{
    let parents = SoughtColumns::of(memory, parent, &reference.parent_columns)?;
    for number in 0..change.added.len() {
        let new = current_row(child, &change.added[number], change.moment);
        if !is_met_now(memory, store, child, &new, reference, &parents)? {
            return Ok(Some(RowRef::Added(number)));
        }
    }
    Ok(None)
}

/// Returns the first child row of a parent row that no row of the parent table matches after a change to that table.
fn unmet_child<I: IntervalIndex>(
    memory: Memory,
    store: &Store<I>,
    reference: &Reference,
    children: &SoughtColumns<'_>,
    parents: &SoughtColumns<'_>,
    row: &StoredRow<'_>,
    change: &Change<'_>,
    coming: &[StoredRow<'_>],
) -> Result<Option<RowRef>, AllocError>
    requires there { IsTrue (has_table store.now parents.now.table.now.id) }
    requires columns { parents.now.columns.now ≡ (reference_of reference.now).parent_columns }
    requires child_there { IsTrue (has_table store.now children.now.table.now.id) }
    requires rise { TuplesRise parents.now.columns.now coming.now }
    requires coming { SameBag (map shown_by coming.now)
        (new_rows parents.now.table.now.definition change.now.moment change.now.added.now) }
{
    let child = &children.table.definition;
    let tuple = tuple_of(memory, row, &reference.parent_columns)?;
    let lost = period(&parents.table.definition, row);
    let found = children.find_in(memory, store, &tuple, reference.by_period, lost)?;
    let others = found.as_slice();
    for other in others {
        let row = current_row(child, &other.kept.row, other.kept.start);
        if !is_met(
            memory, store, child, &row, reference, parents, change, coming,
        )? {
            return Ok(Some(RowRef::Stored(other.id)));
        }
    }
    Ok(None)
}

/// Returns a child row of the removed parent rows that no row of the parent table matches after the change. By period,
/// the removed rows are sorted by their ranks. They are tested as the reference is; the child rows of the first one
/// that fails are then tested again.
fn unmet_among<I: IntervalIndex>(
    memory: Memory,
    store: &Store<I>,
    reference: &Reference,
    children: &SoughtColumns<'_>,
    parents: &SoughtColumns<'_>,
    going: &[StoredRow<'_>],
    change: &Change<'_>,
    coming: &[StoredRow<'_>],
) -> Result<Option<RowRef>, AllocError>
    requires there { IsTrue (has_table store.now parents.now.table.now.id) }
    requires columns { parents.now.columns.now ≡ (reference_of reference.now).parent_columns }
    requires child_there { IsTrue (has_table store.now children.now.table.now.id) }
    requires child_columns { children.now.columns.now ≡ (reference_of reference.now).columns }
    requires rise { TuplesRise parents.now.columns.now coming.now }
    requires coming { SameBag (map shown_by coming.now)
        (new_rows parents.now.table.now.definition change.now.moment change.now.added.now) }
{
    for place in 0..going.len() {
        let spared = is_spared_at(
            memory, store, reference, children, parents, going, place, change, coming,
        )?;
        if !spared {
            let row = &going[place];
            return unmet_child(
                memory, store, reference, children, parents, row, change, coming,
            );
        }
    }
    Ok(None)
}

/// Returns a row of a child table that no row of the parent table matches after a change to the parent table.
fn unmet_stored<I: IntervalIndex>(
    memory: Memory,
    store: &Store<I>,
    child: &Table,
    reference: &Reference,
    parent: &Table,
    change: &Change<'_>,
) -> Result<Option<RowRef>, AllocError>
    requires there { IsTrue (has_table store.now parent.now.id) }
    requires columns { IsTrue (are_assignable parent.now.definition (reference_of reference.now).parent_columns) }
    requires child_there { IsTrue (has_table store.now child.now.id) }
    requires child_columns { IsTrue (are_assignable child.now.definition (reference_of reference.now).columns) }
{
    let children = SoughtColumns::of(memory, child, &reference.columns)?;
    let parents = SoughtColumns::of(memory, parent, &reference.parent_columns)?;
    let coming = sorted_coming(memory, &parents.table.definition, parents.columns, change)?;
    let mut going = rows_that_go(memory, store, parent, change)?;
    sort_going(&parent.definition, reference, &mut going);
    unmet_among(
        memory, store, reference, &children, &parents, &going, change, &coming,
    )
}

/// Returns a row of a child table that a reference leaves without a match after a change.
fn unmet_row<I: IntervalIndex>(
    memory: Memory,
    catalog: &Catalog,
    store: &Store<I>,
    place: usize,
    child: usize,
    reference: &Reference,
    change: &Change<'_>,
) -> Result<Option<RowRef>, AllocError>
    requires child_within { child < length catalog.now }
    requires there { AreThere store.now catalog.now }
    requires columns { IsTrue (are_assignable (table_at (definitions_of catalog.now) child)
        (reference_of reference.now).columns) }
    requires parent { IsTrue (has_parent (definitions_of catalog.now) child (reference_of reference.now)) }
{
    let Some(parent) = catalog.place_of(reference.parent.as_str()) else {
        return Ok(None);
    };
    let from = catalog.table(child);
    let to = catalog.table(parent);
    read_key(&to.definition, reference);
    if child == place {
        return unmet_added(memory, store, &from.definition, reference, to, change);
    }
    unmet_stored(memory, store, from, reference, to, change)
}

/// Returns the failure of a reference by a row, if there is one.
fn reference_failure(
    child: usize,
    reference: usize,
    row: Option<RowRef>,
) -> Option<ReferenceFailure>
    ensures child { IfSome result (λ f. f.child ≡ child) }
    ensures reference { IfSome result (λ f. f.reference ≡ reference) }
{
    Some(ReferenceFailure {
        child,
        reference,
        row: row?,
    })
}

/// Returns the failure of the reference at index `number` of the table at index `child`. None if it holds after the
/// change to the table at `place`, which may be the same table.
fn unmet_at<I: IntervalIndex>(
    memory: Memory,
    catalog: &Catalog,
    store: &Store<I>,
    place: usize,
    child: usize,
    number: usize,
    change: &Change<'_>,
) -> Result<Option<ReferenceFailure>, AllocError>
    requires within { place < length catalog.now }
    requires child_within { child < length catalog.now }
    requires there { AreThere store.now catalog.now }
    ensures { IfOk result (λ found. IfSome found (spec.IsReferenceFailure store.now catalog.now place
        change.now.removed.now change.now.moment change.now.added.now)) }
{
    let _ = catalog.len();
    let table = catalog.table(child);
    let Some(reference) = table.definition.references().get(number) else {
        return Ok(None);
    };
    if reference_after(memory, catalog, store, place, child, reference, change)? {
        return Ok(None);
    }
    let row = unmet_row(memory, catalog, store, place, child, reference, change)?;
    Ok(reference_failure(child, number, row))
}

/// Returns the first reference of the table at index `child` that does not hold after a change to the table at `place`.
/// The two may be the same table.
fn failed_of<I: IntervalIndex>(
    memory: Memory,
    catalog: &Catalog,
    store: &Store<I>,
    place: usize,
    child: usize,
    change: &Change<'_>,
) -> Result<Option<ReferenceFailure>, AllocError>
    requires within { place < length catalog.now }
    requires child_within { child < length catalog.now }
    requires there { AreThere store.now catalog.now }
    ensures { IfOk result (λ found. IfSome found (spec.IsReferenceFailure store.now catalog.now place
        change.now.removed.now change.now.moment change.now.added.now)) }
{
    let table = catalog.table(child);
    for number in 0..table.definition.references().len() {
        let found = unmet_at(memory, catalog, store, place, child, number, change)?;
        if found.is_some() {
            return Ok(found);
        }
    }
    Ok(None)
}

/// Returns the first reference that does not hold after a change to the table at `place`. The table's own references
/// come first, then those to it.
fn failed_reference_after<I: IntervalIndex>(
    memory: Memory,
    catalog: &Catalog,
    store: &Store<I>,
    place: usize,
    change: &Change<'_>,
) -> Result<Option<ReferenceFailure>, AllocError>
    requires within { place < length catalog.now }
    requires there { AreThere store.now catalog.now }
    ensures { IfOk result (λ found. IfSome found (spec.IsReferenceFailure store.now catalog.now place
        change.now.removed.now change.now.moment change.now.added.now)) }
{
    let own = failed_of(memory, catalog, store, place, place, change)?;
    if own.is_some() {
        return Ok(own);
    }
    for child in catalog.referring(place) {
        let theirs = failed_of(memory, catalog, store, place, *child, change)?;
        if theirs.is_some() {
            return Ok(theirs);
        }
    }
    Ok(None)
}

/// Returns the first reference that does not hold after a change to the table at `place`, with a row that it leaves
/// without a match. Added rows start at `moment`, in microseconds since 1970-01-01. What it reports is a failure: if
/// the reference held before the change, it does not hold after it. The only error is a refused allocation. Costs as
/// much as the test of the references.
pub fn failed_reference<I: IntervalIndex>(
    memory: Memory,
    catalog: &Catalog,
    store: &Store<I>,
    place: usize,
    delta: &Delta,
    moment: i64,
) -> Result<Option<ReferenceFailure>, AllocError>
    requires within { place < length catalog.now }
    requires there { AreThere store.now catalog.now }
    ensures { IfOk result (λ found. IfSome found (spec.IsReferenceFailure store.now catalog.now place
        delta.now.removed.items moment delta.now.added.items)) }
{
    let removed = rising(memory, &delta.removed)?;
    let change = Change {
        removed: &removed,
        added: &delta.added,
        moment,
        given: &delta.removed,
    };
    failed_reference_after(memory, catalog, store, place, &change)
}
