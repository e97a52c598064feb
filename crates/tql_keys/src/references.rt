//! References after a change to the child or the parent table. A child row is met if it has NULL in one of its columns,
//! or a parent row has its tuple. With PERIOD, the periods of the parent rows with its tuple must together cover its
//! own. After a change to the child table only the added rows are tested. After a change to the parent table, each
//! removed row leaves a stretch of time without a parent: the child rows of its tuple are tested, with PERIOD only
//! those that share a point with its period. Removed rows are sorted by their ranks, so that a child row of several of
//! them is tested once.
ghost use Rattle.std.specs.Prelude.{◌≡◌, ◌<◌, ◌||◌, ◌&&◌, ℤ, Bool, true, not, map, drop, length, List, IfOk};
ghost use Rattle.std.specs.Prelude.{IsTrue, OnOk};
ghost use Rattle.std.specs.List.{list_all, list_any};
ghost use Rattle.tql_spec.specs.Bag.{SameBag};
ghost use Rattle.tql_spec.specs.Datum as pure;
ghost use Rattle.tql_spec.specs.Definition.{Stamped, shown, period_of};
ghost use Rattle.tql_spec.specs.Definition.{TableDef as Def};
ghost use Rattle.tql_spec.specs.Constraint.{is_met as met_in, is_met_by, has_null as null_in, shown_rows, covered};
ghost use Rattle.tql_spec.specs.Constraint.{held_at};
ghost use Rattle.tql_spec.specs.Constraint.{reference_holds};
ghost use Rattle.tql_catalog.specs.Definitions.{reference_of};
ghost use Rattle.tql_catalog.specs.Rows.{are_assignable};
ghost use Rattle.tql_expr.specs.Shown.{shown_by};
ghost use Rattle.tql_period.specs.Points.{StartsRise};
ghost use Rattle.tql_store.specs.Changes.{rows_after};
ghost use Rattle.tql_store.specs.StoreModel.{has_table, is_among as among};
ghost use Rattle.tql_value.specs.Views.{datum_of_view};
ghost use Rattle.tql_key_rows.specs.Asked.{AreRowsOf, new_rows, row_found, row_named};
ghost use Rattle.tql_key_rows.specs.Coming.{TuplesRise, any_with};
ghost use Rattle.tql_key_rows.specs.Touched.{has_tuple as tuple_in};
ghost use Rattle.tql_key_clashes.specs.Named.{IsJudged};
ghost use Rattle.tql_keys.specs.Named.{of_named};
ghost use Rattle.tql_keys.specs.Parents.{any_holds, row_holds, any_left};
ghost use Rattle.tql_keys.specs.Spared.{is_child_of as child_of, is_spared_but, is_child_of_first as child_of_first};
ghost use Rattle.tql_keys.specs.Spared.{is_first_spared, are_spared as are_spared_in};

use std::alloc::AllocError;
use tql_catalog::catalog::Table;
use tql_catalog::constraint::Reference;
use tql_catalog::table_def::TableDef;
use tql_expr::columns::Columns;
use tql_expr::stored::StoredRow;
use tql_index::index::IntervalIndex;
use tql_key_rows::change::Change;
use tql_key_rows::coming::{sorted_coming, with_tuple};
use tql_key_rows::finding::SoughtColumns;
use tql_key_rows::keeping::are_kept;
use tql_key_rows::ranks::sort_by_ranks;
use tql_key_rows::reading::{agrees, current_row, has_tuple, period, touches, tuple_of};
use tql_memory::Memory;
use tql_period::coverage::covers;
use tql_period::period::Period;
use tql_row::row::Row;
use tql_spec::references_at_each_point;
use tql_store::store::Store;
use tql_value::value::View;
use tql_versions::version::Version;

/// Whether a row has NULL in one of these columns.
fn has_null(columns: &[usize], row: &StoredRow<'_>) -> bool
    ensures { result ≡ null_in columns.now (shown_by row.now) }
{
    columns.iter().any(|column| row.column(*column).is_null())
}

/// Whether any found row survives the change.
fn some_is_left(found: &[Version<'_>], change: &Change<'_>) -> bool
    ensures { (table : Def) → result ≡ any_left table change.now.removed.now (λ r. true) found.now }
{
    found.iter().any(|row| !change.removes(row.id))
}

/// Whether any of these rows has the tuple.
fn some_comes(columns: &[usize], tuple: &[View<'_>], coming: &[StoredRow<'_>]) -> bool
    ensures { result ≡ any_with columns.now (map datum_of_view tuple.now) (λ r. true) (map shown_by coming.now) }
{
    coming.iter().any(|row| has_tuple(columns, tuple, row))
}

/// Adds the period of a row, unless it is empty.
fn add_period(
    definition: &TableDef,
    row: &StoredRow<'_>,
    periods: &mut Vec<Period, Memory>,
) -> Result<(), AllocError>
    ensures { OnOk result ((x : ℤ) → any_holds periods.new.items x
        ≡ (any_holds periods.old.items x || row_holds definition.now x (shown_by row.now))) }
{
    if let Some(period) = period(definition, row) {
        periods.push(period)?;
    }
    Ok(())
}

/// Adds the period of a found row, if that row survives the change.
fn add_found(
    definition: &TableDef,
    row: Version<'_>,
    change: &Change<'_>,
    periods: &mut Vec<Period, Memory>,
) -> Result<(), AllocError>
    ensures { OnOk result ((x : ℤ) → any_holds periods.new.items x
        ≡ (any_holds periods.old.items x
        || (not (among row.entry.id change.now.removed.now) && row_holds definition.now x
        (shown definition.now (row_found row.entry))))) }
{
    if change.removes(row.id) {
        return Ok(());
    }
    add_period(
        definition,
        &current_row(definition, &row.kept.row, row.kept.start),
        periods,
    )
}

/// Adds the periods of the found rows that survive the change.
fn add_left(
    definition: &TableDef,
    found: &[Version<'_>],
    change: &Change<'_>,
    periods: &mut Vec<Period, Memory>,
) -> Result<(), AllocError>
    ensures { OnOk result ((x : ℤ) → any_holds periods.new.items x
        ≡ (any_holds periods.old.items x
        || any_left definition.now change.now.removed.now (row_holds definition.now x) found.now)) }
{
    for row in found {
        add_found(definition, *row, change, periods)?;
    }
    Ok(())
}

/// Adds the period of a row, if it has the tuple.
fn add_new(
    definition: &TableDef,
    columns: &[usize],
    tuple: &[View<'_>],
    row: &StoredRow<'_>,
    periods: &mut Vec<Period, Memory>,
) -> Result<(), AllocError>
    ensures { OnOk result ((x : ℤ) → any_holds periods.new.items x
        ≡ (any_holds periods.old.items x
        || (tuple_in columns.now (map datum_of_view tuple.now) (shown_by row.now)
        && row_holds definition.now x (shown_by row.now)))) }
{
    if !has_tuple(columns, tuple, row) {
        return Ok(());
    }
    add_period(definition, row, periods)
}

/// Adds the periods of those rows that have the tuple.
fn add_coming(
    definition: &TableDef,
    columns: &[usize],
    tuple: &[View<'_>],
    coming: &[StoredRow<'_>],
    periods: &mut Vec<Period, Memory>,
) -> Result<(), AllocError>
    ensures { OnOk result ((x : ℤ) → any_holds periods.new.items x
        ≡ (any_holds periods.old.items x
        || any_with columns.now (map datum_of_view tuple.now) (row_holds definition.now x) (map shown_by coming.now))) }
{
    for row in coming {
        add_new(definition, columns, tuple, row, periods)?;
    }
    Ok(())
}

/// Sorts periods by their starts.
fn sort(periods: &mut Vec<Period, Memory>)
    ensures rising { StartsRise periods.new.items }
    ensures same { (x : ℤ) → any_holds periods.new.items x ≡ any_holds periods.old.items x }
{
    periods.sort_unstable_by(|x, y| x.start.cmp(&y.start));
}

/// Returns the periods of the rows with the tuple after a change, sorted by their starts: the found rows that survive
/// it, and the rows of `coming` that have the tuple.
fn periods_after(
    memory: Memory,
    definition: &TableDef,
    columns: &[usize],
    tuple: &[View<'_>],
    found: &[Version<'_>],
    change: &Change<'_>,
    coming: &[StoredRow<'_>],
) -> Result<Vec<Period, Memory>, AllocError>
    ensures rising { IfOk result (λ periods. StartsRise periods.items) }
    ensures holds { IfOk result (λ periods. (x : ℤ) → any_holds periods.items x
        ≡ (any_left definition.now change.now.removed.now (row_holds definition.now x) found.now
        || any_with columns.now (map datum_of_view tuple.now) (row_holds definition.now x) (map shown_by coming.now))) }
{
    let mut periods = Vec::new(memory);
    add_left(definition, found, change, &mut periods)?;
    add_coming(definition, columns, tuple, coming, &mut periods)?;
    sort(&mut periods);
    Ok(periods)
}

/// Whether the periods cover that of a child row. An empty period is always covered.
fn is_covered(child: &TableDef, row: &StoredRow<'_>, periods: &[Period]) -> bool
    requires { StartsRise periods.now }
    ensures { (parent : Def) (parents : List pure.Row) → ((x : ℤ) → any_holds periods.now x ≡ held_at parent parents x)
        → result ≡ covered parent parents (period_of child.now (shown_by row.now)) }
{
    references_at_each_point();
    match period(child, row) {
        Some(whole) => covers(periods, whole),
        None => true,
    }
}

/// Whether a child row is met by the parents after a change: the found rows that survive it, and the rows of `coming`
/// that have the tuple.
fn meets(
    memory: Memory,
    child: &TableDef,
    row: &StoredRow<'_>,
    by_period: bool,
    parents: &SoughtColumns<'_>,
    tuple: &[View<'_>],
    found: &[Version<'_>],
    change: &Change<'_>,
    coming: &[StoredRow<'_>],
) -> Result<bool, AllocError>
    ensures { IfOk result (λ met. (rows : List pure.Row)
        → ((test : pure.Row → Bool) → list_any test rows
        ≡ (any_left parents.now.table.now.definition change.now.removed.now test found.now
        || any_with parents.now.columns.now (map datum_of_view tuple.now) test (map shown_by coming.now)))
        → met ≡ is_met_by child.now parents.now.table.now.definition by_period rows (shown_by row.now)) }
{
    let definition = &parents.table.definition;
    if by_period {
        let columns = parents.columns;
        let periods = periods_after(memory, definition, columns, tuple, found, change, coming)?;
        Ok(is_covered(child, row, &periods))
    } else {
        let left = some_is_left(found, change);
        let comes = some_comes(parents.columns, tuple, coming);
        Ok(left | comes)
    }
}

/// Whether a child row is met by the rows of its parent table after a change to that table. Only parent rows with the
/// child row's tuple are read, unchanged or added ones. `coming` is the added rows, sorted by tuple.
pub fn is_met<I: IntervalIndex>(
    memory: Memory,
    store: &Store<I>,
    child: &TableDef,
    row: &StoredRow<'_>,
    reference: &Reference,
    parents: &SoughtColumns<'_>,
    change: &Change<'_>,
    coming: &[StoredRow<'_>],
) -> Result<bool, AllocError>
    requires there { IsTrue (has_table store.now parents.now.table.now.id) }
    requires columns { parents.now.columns.now ≡ (reference_of reference.now).parent_columns }
    requires rise { TuplesRise parents.now.columns.now coming.now }
    requires coming { SameBag (map shown_by coming.now)
        (new_rows parents.now.table.now.definition change.now.moment change.now.added.now) }
    ensures { IfOk result (λ met. (rows : List Stamped) (gone : Stamped → Bool)
        → AreRowsOf store.now parents.now.table.now rows
        → IsJudged (row_named store.now parents.now.table.now.id) gone change.now.removed.now
        → met ≡ met_in child.now parents.now.table.now.definition (reference_of reference.now)
        (shown_rows parents.now.table.now.definition
        (rows_after change.now.moment gone change.now.added.now rows)) (shown_by row.now)) }
{
    references_at_each_point();
    if has_null(&reference.columns, row) {
        return Ok(true);
    }
    let tuple = tuple_of(memory, row, &reference.columns)?;
    let within = period(child, row);
    let found = parents.find_in(memory, store, &tuple, reference.by_period, within)?;
    let others = with_tuple(parents.columns, &tuple, coming);
    meets(
        memory,
        child,
        row,
        reference.by_period,
        parents,
        &tuple,
        &found,
        change,
        others,
    )
}

/// Whether a child row is met by the current rows of its parent table.
pub fn is_met_now<I: IntervalIndex>(
    memory: Memory,
    store: &Store<I>,
    child: &TableDef,
    row: &StoredRow<'_>,
    reference: &Reference,
    parents: &SoughtColumns<'_>,
) -> Result<bool, AllocError>
    requires there { IsTrue (has_table store.now parents.now.table.now.id) }
    requires columns { parents.now.columns.now ≡ (reference_of reference.now).parent_columns }
    ensures { IfOk result (λ met. (rows : List Stamped) → AreRowsOf store.now parents.now.table.now rows
        → met ≡ met_in child.now parents.now.table.now.definition (reference_of reference.now)
        (shown_rows parents.now.table.now.definition rows) (shown_by row.now)) }
{
    let gone: Vec<usize, Memory> = Vec::new(memory);
    let come: Vec<Row, Memory> = Vec::new(memory);
    let nothing = Change {
        removed: &gone,
        added: &come,
        moment: 0,
        given: &gone,
    };
    is_met(memory, store, child, row, reference, parents, &nothing, &[])
}

/// Whether a reference that held still holds after a change to its child table. Of the parent table it reads only the
/// rows with the tuples of the added rows.
fn child_holds_after<I: IntervalIndex>(
    memory: Memory,
    store: &Store<I>,
    child: &TableDef,
    reference: &Reference,
    parent: &Table,
    change: &Change<'_>,
) -> Result<bool, AllocError>
    requires there { IsTrue (has_table store.now parent.now.id) }
    requires columns { IsTrue (are_assignable parent.now.definition (reference_of reference.now).parent_columns) }
    ensures { IfOk result (λ holds. (parents rows : List Stamped) (gone : Stamped → Bool)
        → AreRowsOf store.now parent.now parents
        → reference_holds child.now parent.now.definition (reference_of reference.now)
        (shown_rows parent.now.definition parents) (shown_rows child.now rows) ≡ true
        → holds ≡ reference_holds child.now parent.now.definition (reference_of reference.now)
        (shown_rows parent.now.definition parents)
        (shown_rows child.now (rows_after change.now.moment gone change.now.added.now rows))) }
{
    let parents = SoughtColumns::of(memory, parent, &reference.parent_columns)?;
    for row in change.added {
        let new = current_row(child, row, change.moment);
        if !is_met_now(memory, store, child, &new, reference, &parents)? {
            return Ok(false);
        }
    }
    Ok(true)
}

/// Whether a child row has the tuple of the parent row `of` and, with PERIOD, shares a point with it.
fn is_child_of(
    child: &TableDef,
    parent: &TableDef,
    reference: &Reference,
    of: &StoredRow<'_>,
    row: &StoredRow<'_>,
) -> bool
    ensures { result ≡ child_of child.now parent.now (reference_of reference.now) (shown_by of.now) (shown_by row.now) }
{
    agrees(&reference.columns, row, &reference.parent_columns, of)
        && touches(reference.by_period, child, row, parent, of)
}

/// Whether a child row belongs to the first of these parent rows.
fn is_child_of_first(
    child: &TableDef,
    parent: &TableDef,
    reference: &Reference,
    others: &[StoredRow<'_>],
    row: &StoredRow<'_>,
) -> bool
    ensures { result ≡ child_of_first child.now parent.now (reference_of reference.now) (map shown_by others.now)
        (shown_by row.now) }
{
    match others.first() {
        Some(of) => is_child_of(child, parent, reference, of, row),
        None => false,
    }
}

/// Whether a child row belongs to the first of `others`, and so is tested later, or is met by the rows of the parent
/// table after the change.
fn is_left_or_met<I: IntervalIndex>(
    memory: Memory,
    store: &Store<I>,
    child: &TableDef,
    row: &StoredRow<'_>,
    reference: &Reference,
    parents: &SoughtColumns<'_>,
    others: &[StoredRow<'_>],
    change: &Change<'_>,
    coming: &[StoredRow<'_>],
) -> Result<bool, AllocError>
    requires there { IsTrue (has_table store.now parents.now.table.now.id) }
    requires columns { parents.now.columns.now ≡ (reference_of reference.now).parent_columns }
    requires rise { TuplesRise parents.now.columns.now coming.now }
    requires coming { SameBag (map shown_by coming.now)
        (new_rows parents.now.table.now.definition change.now.moment change.now.added.now) }
    ensures { IfOk result (λ met. (rows : List Stamped) (gone : Stamped → Bool)
        → AreRowsOf store.now parents.now.table.now rows
        → IsJudged (row_named store.now parents.now.table.now.id) gone change.now.removed.now
        → met ≡ child_of_first child.now parents.now.table.now.definition (reference_of reference.now)
        (map shown_by others.now) (shown_by row.now)
        || met_in child.now parents.now.table.now.definition (reference_of reference.now)
        (shown_rows parents.now.table.now.definition
        (rows_after change.now.moment gone change.now.added.now rows)) (shown_by row.now)) }
{
    let parent = &parents.table.definition;
    if is_child_of_first(child, parent, reference, others, row) {
        return Ok(true);
    }
    is_met(
        memory, store, child, row, reference, parents, change, coming,
    )
}

/// Whether each child row of a removed parent row is met by the rows of the parent table after the change. Child rows
/// of the first row of `behind` are left out, since they are tested with that row.
fn is_spared<I: IntervalIndex>(
    memory: Memory,
    store: &Store<I>,
    reference: &Reference,
    children: &SoughtColumns<'_>,
    parents: &SoughtColumns<'_>,
    row: &StoredRow<'_>,
    behind: &[StoredRow<'_>],
    change: &Change<'_>,
    coming: &[StoredRow<'_>],
) -> Result<bool, AllocError>
    requires there { IsTrue (has_table store.now parents.now.table.now.id) }
    requires columns { parents.now.columns.now ≡ (reference_of reference.now).parent_columns }
    requires child_there { IsTrue (has_table store.now children.now.table.now.id) }
    requires child_columns { children.now.columns.now ≡ (reference_of reference.now).columns }
    requires rise { TuplesRise parents.now.columns.now coming.now }
    requires coming { SameBag (map shown_by coming.now)
        (new_rows parents.now.table.now.definition change.now.moment change.now.added.now) }
    ensures { IfOk result (λ spared. (rows others : List Stamped) (gone : Stamped → Bool)
        → AreRowsOf store.now parents.now.table.now rows
        → IsJudged (row_named store.now parents.now.table.now.id) gone change.now.removed.now
        → AreRowsOf store.now children.now.table.now others
        → spared ≡ is_spared_but children.now.table.now.definition parents.now.table.now.definition
        (reference_of reference.now)
        (shown_rows parents.now.table.now.definition (rows_after change.now.moment gone change.now.added.now rows))
        (shown_rows children.now.table.now.definition others) (map shown_by behind.now) (shown_by row.now)) }
{
    let child = &children.table.definition;
    let tuple = tuple_of(memory, row, &reference.parent_columns)?;
    let lost = period(&parents.table.definition, row);
    let found = children.find_in(memory, store, &tuple, reference.by_period, lost)?;
    let others = found.as_slice();
    for other in others {
        let row = current_row(child, &other.kept.row, other.kept.start);
        let met = is_left_or_met(
            memory, store, child, &row, reference, parents, behind, change, coming,
        )?;
        if !met {
            return Ok(false);
        }
    }
    Ok(true)
}

/// Whether each child row of the removed parent row at `place` is met by the rows of the parent table after the change.
/// Child rows of the next removed row are left out, since they are tested with that row.
pub fn is_spared_at<I: IntervalIndex>(
    memory: Memory,
    store: &Store<I>,
    reference: &Reference,
    children: &SoughtColumns<'_>,
    parents: &SoughtColumns<'_>,
    going: &[StoredRow<'_>],
    place: usize,
    change: &Change<'_>,
    coming: &[StoredRow<'_>],
) -> Result<bool, AllocError>
    requires within { place < length going.now }
    requires there { IsTrue (has_table store.now parents.now.table.now.id) }
    requires columns { parents.now.columns.now ≡ (reference_of reference.now).parent_columns }
    requires child_there { IsTrue (has_table store.now children.now.table.now.id) }
    requires child_columns { children.now.columns.now ≡ (reference_of reference.now).columns }
    requires rise { TuplesRise parents.now.columns.now coming.now }
    requires coming { SameBag (map shown_by coming.now)
        (new_rows parents.now.table.now.definition change.now.moment change.now.added.now) }
    ensures { IfOk result (λ spared. (rows others : List Stamped) (gone : Stamped → Bool)
        → AreRowsOf store.now parents.now.table.now rows
        → IsJudged (row_named store.now parents.now.table.now.id) gone change.now.removed.now
        → AreRowsOf store.now children.now.table.now others
        → spared ≡ is_first_spared children.now.table.now.definition parents.now.table.now.definition
        (reference_of reference.now)
        (shown_rows parents.now.table.now.definition (rows_after change.now.moment gone change.now.added.now rows))
        (shown_rows children.now.table.now.definition others) (map shown_by (drop place going.now))) }
{
    let (_, left) = going.split_at(place);
    match left.split_first() {
        Some((row, behind)) => is_spared(
            memory, store, reference, children, parents, row, behind, change, coming,
        ),
        None => Ok(true),
    }
}

/// Whether each child row of the removed parent rows is met by the rows of the parent table after the change. A child
/// row of two neighbours is tested only with the later of them.
fn are_spared<I: IntervalIndex>(
    memory: Memory,
    store: &Store<I>,
    reference: &Reference,
    children: &SoughtColumns<'_>,
    parents: &SoughtColumns<'_>,
    going: &[StoredRow<'_>],
    change: &Change<'_>,
    coming: &[StoredRow<'_>],
) -> Result<bool, AllocError>
    requires there { IsTrue (has_table store.now parents.now.table.now.id) }
    requires columns { parents.now.columns.now ≡ (reference_of reference.now).parent_columns }
    requires child_there { IsTrue (has_table store.now children.now.table.now.id) }
    requires child_columns { children.now.columns.now ≡ (reference_of reference.now).columns }
    requires rise { TuplesRise parents.now.columns.now coming.now }
    requires coming { SameBag (map shown_by coming.now)
        (new_rows parents.now.table.now.definition change.now.moment change.now.added.now) }
    ensures { IfOk result (λ spared. (rows others : List Stamped) (gone : Stamped → Bool)
        → AreRowsOf store.now parents.now.table.now rows
        → IsJudged (row_named store.now parents.now.table.now.id) gone change.now.removed.now
        → AreRowsOf store.now children.now.table.now others
        → spared ≡ are_spared_in children.now.table.now.definition parents.now.table.now.definition
        (reference_of reference.now)
        (shown_rows parents.now.table.now.definition (rows_after change.now.moment gone change.now.added.now rows))
        (shown_rows children.now.table.now.definition others) (map shown_by going.now)) }
{
    for place in 0..going.len() {
        let spared = is_spared_at(
            memory, store, reference, children, parents, going, place, change, coming,
        )?;
        if !spared {
            return Ok(false);
        }
    }
    Ok(true)
}

/// Adds the current row with this id, if there is one.
fn add_named<'s, I: IntervalIndex>(
    store: &'s Store<I>,
    table: &Table,
    id: usize,
    rows: &mut Vec<StoredRow<'s>, Memory>,
) -> Result<(), AllocError>
    requires { IsTrue (has_table store.now table.now.id) }
    ensures { OnOk result ((test : pure.Row → Bool) → list_all test (map shown_by rows.new.items)
        ≡ (list_all test (map shown_by rows.old.items)
        && of_named (λ r. test (shown table.now.definition r)) (row_named store.now table.now.id id))) }
{
    if let Some(named) = store.row(table.id, id) {
        rows.push(current_row(&table.definition, &named.kept.row, named.kept.start))?;
    }
    Ok(())
}

/// Returns the rows that a change removes from a table.
pub fn rows_that_go<'s, I: IntervalIndex>(
    memory: Memory,
    store: &'s Store<I>,
    table: &Table,
    change: &Change<'_>,
) -> Result<Vec<StoredRow<'s>, Memory>, AllocError>
    requires { IsTrue (has_table store.now table.now.id) }
    ensures { IfOk result (λ rows. (test : pure.Row → Bool) → list_all test (map shown_by rows.items)
        ≡ list_all (λ id. of_named (λ r. test (shown table.now.definition r)) (row_named store.now table.now.id id))
        change.now.removed.now) }
{
    let mut rows = Vec::with_capacity(memory, change.removed.len())?;
    for id in change.removed {
        add_named(store, table, *id, &mut rows)?;
    }
    Ok(rows)
}

/// Sorts the removed rows of the parent table by their ranks, if the reference is by period. The rows of one tuple that
/// share points with a child row are adjacent then.
#[tactic(auto, using(crate::proofs::InTurn::same_rows))]
pub fn sort_going(parent: &TableDef, reference: &Reference, going: &mut Vec<StoredRow<'_>, Memory>)
    ensures { SameBag (map shown_by going.new.items) (map shown_by going.old.items) }
{
    if reference.by_period {
        sort_by_ranks(parent, &reference.parent_columns, going);
    }
}

/// Whether a reference that held still holds after a change to its parent table. Of the child table it reads only the
/// rows with the tuples of removed rows and, with PERIOD, a point of their periods. Removed rows are sorted by their
/// ranks, so a child row that shares points with several of them, which do not overlap, is tested once.
fn parent_holds_after<I: IntervalIndex>(
    memory: Memory,
    store: &Store<I>,
    child: &Table,
    reference: &Reference,
    parent: &Table,
    change: &Change<'_>,
) -> Result<bool, AllocError>
    requires there { IsTrue (has_table store.now parent.now.id) }
    requires columns { IsTrue (are_assignable parent.now.definition (reference_of reference.now).parent_columns) }
    requires child_there { IsTrue (has_table store.now child.now.id) }
    requires child_columns { IsTrue (are_assignable child.now.definition (reference_of reference.now).columns) }
    ensures { IfOk result (λ holds. (rows children : List Stamped) (gone : Stamped → Bool)
        → AreRowsOf store.now parent.now rows
        → IsJudged (row_named store.now parent.now.id) gone change.now.removed.now
        → AreRowsOf store.now child.now children
        → reference_holds child.now.definition parent.now.definition (reference_of reference.now)
        (shown_rows parent.now.definition rows) (shown_rows child.now.definition children) ≡ true
        → holds ≡ reference_holds child.now.definition parent.now.definition (reference_of reference.now)
        (shown_rows parent.now.definition (rows_after change.now.moment gone change.now.added.now rows))
        (shown_rows child.now.definition children)) }
{
    references_at_each_point();
    let children = SoughtColumns::of(memory, child, &reference.columns)?;
    let parents = SoughtColumns::of(memory, parent, &reference.parent_columns)?;
    let coming = sorted_coming(memory, &parents.table.definition, parents.columns, change)?;
    let mut going = rows_that_go(memory, store, parent, change)?;
    sort_going(&parent.definition, reference, &mut going);
    are_spared(
        memory, store, reference, &children, &parents, &going, change, &coming,
    )
}

/// Whether a reference that held still holds after a change to its child table. It is not tested if each added row has
/// the tuple of the row that it replaces, and in a PERIOD reference its period.
pub(crate) fn child_after<I: IntervalIndex>(
    memory: Memory,
    store: &Store<I>,
    child: &Table,
    reference: &Reference,
    parent: &Table,
    change: &Change<'_>,
) -> Result<bool, AllocError>
    requires there { IsTrue (has_table store.now parent.now.id) }
    requires columns { IsTrue (are_assignable parent.now.definition (reference_of reference.now).parent_columns) }
    requires child_there { IsTrue (has_table store.now child.now.id) }
    ensures { IfOk result (λ holds. (parents rows : List Stamped) (gone : Stamped → Bool)
        → AreRowsOf store.now parent.now parents → AreRowsOf store.now child.now rows
        → reference_holds child.now.definition parent.now.definition (reference_of reference.now)
        (shown_rows parent.now.definition parents) (shown_rows child.now.definition rows) ≡ true
        → holds ≡ reference_holds child.now.definition parent.now.definition (reference_of reference.now)
        (shown_rows parent.now.definition parents)
        (shown_rows child.now.definition (rows_after change.now.moment gone change.now.added.now rows))) }
{
    if are_kept(
        store,
        child,
        &reference.columns,
        reference.by_period,
        change,
    ) {
        return Ok(true);
    }
    child_holds_after(memory, store, &child.definition, reference, parent, change)
}

/// Whether a reference that held still holds after a change to its parent table. It is not tested if each added row has
/// the tuple of the row that it replaces, and in a PERIOD reference its period.
pub(crate) fn parent_after<I: IntervalIndex>(
    memory: Memory,
    store: &Store<I>,
    child: &Table,
    reference: &Reference,
    parent: &Table,
    change: &Change<'_>,
) -> Result<bool, AllocError>
    requires there { IsTrue (has_table store.now parent.now.id) }
    requires columns { IsTrue (are_assignable parent.now.definition (reference_of reference.now).parent_columns) }
    requires child_there { IsTrue (has_table store.now child.now.id) }
    requires child_columns { IsTrue (are_assignable child.now.definition (reference_of reference.now).columns) }
    ensures { IfOk result (λ holds. (rows children : List Stamped) (gone : Stamped → Bool)
        → AreRowsOf store.now parent.now rows
        → IsJudged (row_named store.now parent.now.id) gone change.now.removed.now
        → AreRowsOf store.now child.now children
        → reference_holds child.now.definition parent.now.definition (reference_of reference.now)
        (shown_rows parent.now.definition rows) (shown_rows child.now.definition children) ≡ true
        → holds ≡ reference_holds child.now.definition parent.now.definition (reference_of reference.now)
        (shown_rows parent.now.definition (rows_after change.now.moment gone change.now.added.now rows))
        (shown_rows child.now.definition children)) }
{
    references_at_each_point();
    if are_kept(
        store,
        parent,
        &reference.parent_columns,
        reference.by_period,
        change,
    ) {
        return Ok(true);
    }
    parent_holds_after(memory, store, child, reference, parent, change)
}
