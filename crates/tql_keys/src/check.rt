//! Key and reference checks for all tables, after a change to one of them. All keys and references hold before it, so
//! only rows near the change can break one. A key is tested on the added rows: with each other, and with the unchanged
//! rows of the same tuple (`tql_key_clashes`). A reference from the table is tested on the added rows, and a reference
//! to it on the child rows of the removed rows (`references`). Keys are tested first, then the table's own references,
//! then those of the tables that refer to it. The constraints of other tables are not tested.
ghost use Rattle.std.specs.Prelude.{◌≡◌, ◌≢◌, ◌<◌, Bool, true, [], length, List, IfOk, IsTrue, Some, slice_get};
ghost use Rattle.std.specs.Prelude.{slice_set};
ghost use Rattle.tql_spec.specs.AtPoints.{table_rows, HoldsAtPoints};
ghost use Rattle.tql_spec.specs.Bag.{SameBag};
ghost use Rattle.tql_spec.specs.Constraint.{keys_hold, references_hold, reference_to};
ghost use Rattle.tql_spec.specs.Creation.{is_declared_key};
ghost use Rattle.tql_spec.specs.Definition.{Stamped, table_at, place_of};
ghost use Rattle.tql_spec.specs.History.{Copy, rows_in};
ghost use Rattle.tql_spec.specs.Machine.{constraint_faults};
ghost use Rattle.tql_spec.specs.Refusal.{first};
ghost use Rattle.tql_catalog.specs.Definitions.{reference_of};
ghost use Rattle.tql_catalog.specs.Rows.{are_assignable};
ghost use Rattle.tql_catalog.specs.Tables.{definitions_of};
ghost use Rattle.tql_catalog.specs.declared.catalog.Table.{Table};
ghost use Rattle.tql_store.specs.Changes.{rows_after};
ghost use Rattle.tql_store.specs.Represents.{Judged};
ghost use Rattle.tql_keys.specs.Checked.{AreThere, AreJudged, IsCopyOf, copy_after, has_parent, references_hold_of};
ghost use Rattle.tql_keys.specs.Checked.{TellsTests, TellsFirst, TellsAtPoints};
ghost use Rattle.tql_keys.specs.PointTests.{IsRefusedAsPoints};

use crate::references::{child_after, parent_after};
use std::alloc::AllocError;
use tql_catalog::catalog::Catalog;
use tql_catalog::constraint::Reference;
use tql_catalog::table_def::TableDef;
use tql_index::index::IntervalIndex;
use tql_key_clashes::keys::keys_after;
use tql_key_rows::change::{Change, rising};
use tql_memory::Memory;
use tql_store::store::{Delta, Store};
use tql_value::refusal::Refusal;

/// Shows that the columns of a referenced key are not generated.
pub fn read_key(parent: &TableDef, reference: &Reference)
    requires { IsTrue (is_declared_key parent.now (reference_of reference.now).by_period
        (reference_of reference.now).parent_columns) }
    ensures { IsTrue (are_assignable parent.now (reference_of reference.now).parent_columns) }
{
    let _ = parent.keys();
}

/// Whether a reference that held still holds after a change to the table at `place`. `child` and `parent` are the
/// indexes of its two tables. If `place` is neither of them, no row is read.
fn reference_between<I: IntervalIndex>(
    memory: Memory,
    catalog: &Catalog,
    store: &Store<I>,
    place: usize,
    child: usize,
    reference: &Reference,
    parent: usize,
    change: &Change<'_>,
) -> Result<bool, AllocError>
    requires within { place < length catalog.now }
    requires child_within { child < length catalog.now }
    requires parent_within { parent < length catalog.now }
    requires another { parent ≢ child }
    requires there { AreThere store.now catalog.now }
    requires columns { IsTrue (are_assignable (table_at (definitions_of catalog.now) child)
        (reference_of reference.now).columns) }
    requires key { IsTrue (is_declared_key (table_at (definitions_of catalog.now) parent)
        (reference_of reference.now).by_period (reference_of reference.now).parent_columns) }
    ensures { IfOk result (λ holds. (copy : Copy) (gone : Stamped → Bool) → IsCopyOf store.now catalog.now copy
        → AreJudged store.now catalog.now place gone change.now.removed.now
        → reference_to (definitions_of catalog.now) copy (table_at (definitions_of catalog.now) child)
        (table_rows (definitions_of catalog.now) copy child) (reference_of reference.now) (Some parent) ≡ true
        → holds ≡ reference_to (definitions_of catalog.now)
        (copy_after change.now.moment place gone change.now.added.now copy)
        (table_at (definitions_of catalog.now) child)
        (table_rows (definitions_of catalog.now)
        (copy_after change.now.moment place gone change.now.added.now copy) child)
        (reference_of reference.now) (Some parent)) }
{
    let from = catalog.table(child);
    let to = catalog.table(parent);
    read_key(&to.definition, reference);
    if child == place {
        return child_after(memory, store, from, reference, to, change);
    }
    if parent == place {
        return parent_after(memory, store, from, reference, to, change);
    }
    Ok(true)
}

/// Whether a reference of the table at index `child`, which held, still holds after a change to the table at `place`.
/// The two may be the same table.
pub fn reference_after<I: IntervalIndex>(
    memory: Memory,
    catalog: &Catalog,
    store: &Store<I>,
    place: usize,
    child: usize,
    reference: &Reference,
    change: &Change<'_>,
) -> Result<bool, AllocError>
    requires within { place < length catalog.now }
    requires child_within { child < length catalog.now }
    requires there { AreThere store.now catalog.now }
    requires columns { IsTrue (are_assignable (table_at (definitions_of catalog.now) child)
        (reference_of reference.now).columns) }
    requires parent { IsTrue (has_parent (definitions_of catalog.now) child (reference_of reference.now)) }
    ensures { IfOk result (λ holds. (copy : Copy) (gone : Stamped → Bool) → IsCopyOf store.now catalog.now copy
        → AreJudged store.now catalog.now place gone change.now.removed.now
        → reference_to (definitions_of catalog.now) copy (table_at (definitions_of catalog.now) child)
        (table_rows (definitions_of catalog.now) copy child) (reference_of reference.now)
        (place_of (reference_of reference.now).parent (definitions_of catalog.now)) ≡ true
        → holds ≡ reference_to (definitions_of catalog.now)
        (copy_after change.now.moment place gone change.now.added.now copy)
        (table_at (definitions_of catalog.now) child)
        (table_rows (definitions_of catalog.now)
        (copy_after change.now.moment place gone change.now.added.now copy) child)
        (reference_of reference.now) (place_of (reference_of reference.now).parent (definitions_of catalog.now))) }
{
    let Some(parent) = catalog.place_of(reference.parent.as_str()) else {
        unreachable!()
    };
    reference_between(
        memory, catalog, store, place, child, reference, parent, change,
    )
}

/// Whether the references of the table at index `child`, which held, still hold after a change to the table at `place`.
/// The two may be the same table.
fn references_of<I: IntervalIndex>(
    memory: Memory,
    catalog: &Catalog,
    store: &Store<I>,
    place: usize,
    child: usize,
    change: &Change<'_>,
) -> Result<bool, AllocError>
    requires within { place < length catalog.now }
    requires child_within { child < length catalog.now }
    requires there { AreThere store.now catalog.now }
    ensures { IfOk result (λ holds. (copy : Copy) (gone : Stamped → Bool) → IsCopyOf store.now catalog.now copy
        → AreJudged store.now catalog.now place gone change.now.removed.now
        → references_hold_of (definitions_of catalog.now) copy child ≡ true
        → holds ≡ references_hold_of (definitions_of catalog.now)
        (copy_after change.now.moment place gone change.now.added.now copy) child) }
{
    let _ = catalog.len();
    let table = catalog.table(child);
    for reference in table.definition.references() {
        if !reference_after(memory, catalog, store, place, child, reference, change)? {
            return Ok(false);
        }
    }
    Ok(true)
}

/// Whether the references of all tables, which held, still hold after a change to the table at `place`. Only those from
/// this table, and from the tables that refer to it, are tested.
fn references_after<I: IntervalIndex>(
    memory: Memory,
    catalog: &Catalog,
    store: &Store<I>,
    place: usize,
    change: &Change<'_>,
) -> Result<bool, AllocError>
    requires within { place < length catalog.now }
    requires there { AreThere store.now catalog.now }
    ensures { IfOk result (λ holds. (copy : Copy) (gone : Stamped → Bool) → IsCopyOf store.now catalog.now copy
        → AreJudged store.now catalog.now place gone change.now.removed.now
        → references_hold (definitions_of catalog.now) copy ≡ true
        → holds ≡ references_hold (definitions_of catalog.now)
        (copy_after change.now.moment place gone change.now.added.now copy)) }
{
    let own = references_of(memory, catalog, store, place, place, change)?;
    if !own {
        return Ok(false);
    }
    for child in catalog.referring(place) {
        let theirs = references_of(memory, catalog, store, place, *child, change)?;
        if !theirs {
            return Ok(false);
        }
    }
    Ok(true)
}

/// Tests the keys, then the references of all tables, after a change to the table at `place`. Of the unchanged rows it
/// reads only those that have the tuple of an added or removed row.
fn test<I: IntervalIndex>(
    memory: Memory,
    catalog: &Catalog,
    store: &Store<I>,
    place: usize,
    delta: &Delta,
    moment: i64,
) -> Result<(), Refusal>
    requires within { place < length catalog.now }
    requires there { AreThere store.now catalog.now }
    requires table { (p : Table) → slice_get catalog.now place ≡ Some p → p.id ≡ delta.now.table }
    ensures { (copy : Copy) (rows : List Stamped) (gone : Stamped → Bool) → IsCopyOf store.now catalog.now copy
        → Judged store.now delta.now.table gone delta.now.removed.items
        → keys_hold (definitions_of catalog.now) copy ≡ true → references_hold (definitions_of catalog.now) copy ≡ true
        → SameBag rows (rows_after moment gone delta.now.added.items (rows_in copy place))
        → TellsTests (keys_hold (definitions_of catalog.now) (slice_set copy place rows))
        (references_hold (definitions_of catalog.now) (slice_set copy place rows)) result }
{
    let removed = rising(memory, &delta.removed)?;
    let change = Change {
        removed: &removed,
        added: &delta.added,
        moment,
        given: &delta.removed,
    };
    if !keys_after(memory, store, catalog.table(place), &change)? {
        return Err(Refusal::DuplicateKey);
    }
    if !references_after(memory, catalog, store, place, &change)? {
        return Err(Refusal::ReferenceNotMet);
    }
    Ok(())
}

/// Tests the keys and references of all tables after a change to the table at `place`. The added rows start at
/// `moment`, in microseconds since 1970-01-01. Of the unchanged rows it reads only those that have the tuple of an
/// added or removed row. The added rows are sorted, and only neighbours among them are compared. Changes nothing.
/// ISO/IEC 9075-2:2011, 11.7 and 11.8.
///
/// # Errors
///
/// If all keys and references hold in the store: `DuplicateKey` (E35) exactly if a key fails after the change, else
/// `ReferenceNotMet` (E36) exactly if a reference does, memory aside. Clause `refusals`: suppose that all tables have
/// application periods, and that all keys and references are by period. Then a change is refused exactly if a plain key
/// or reference fails on the rows valid at some point of time. The refusal is the first of those of all points.
pub fn check<I: IntervalIndex>(
    memory: Memory,
    catalog: &Catalog,
    store: &Store<I>,
    place: usize,
    delta: &Delta,
    moment: i64,
) -> Result<(), Refusal>
    requires within { place < length catalog.now }
    requires there { AreThere store.now catalog.now }
    requires table { (p : Table) → slice_get catalog.now place ≡ Some p → p.id ≡ delta.now.table }
    ensures tests { (copy : Copy) (rows : List Stamped) (gone : Stamped → Bool) → IsCopyOf store.now catalog.now copy
        → Judged store.now delta.now.table gone delta.now.removed.items
        → constraint_faults (definitions_of catalog.now) copy ≡ []
        → SameBag rows (rows_after moment gone delta.now.added.items (rows_in copy place))
        → TellsFirst (first (constraint_faults (definitions_of catalog.now) (slice_set copy place rows))) result }
    ensures points { (copy : Copy) (rows : List Stamped) (gone : Stamped → Bool) → IsCopyOf store.now catalog.now copy
        → Judged store.now delta.now.table gone delta.now.removed.items
        → HoldsAtPoints (definitions_of catalog.now) copy
        → SameBag rows (rows_after moment gone delta.now.added.items (rows_in copy place))
        → TellsAtPoints (definitions_of catalog.now) (slice_set copy place rows) result }
    ensures refusals { (copy : Copy) (rows : List Stamped) (gone : Stamped → Bool)
        → IsCopyOf store.now catalog.now copy → Judged store.now delta.now.table gone delta.now.removed.items
        → HoldsAtPoints (definitions_of catalog.now) copy
        → SameBag rows (rows_after moment gone delta.now.added.items (rows_in copy place))
        → IsRefusedAsPoints (definitions_of catalog.now) (slice_set copy place rows) result }
{
    test(memory, catalog, store, place, delta, moment)
}
