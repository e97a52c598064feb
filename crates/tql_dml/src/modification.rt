//! UPDATE and DELETE, also FOR PORTION OF.
//!
//! Each current version that the change touches is removed. An UPDATE adds its new row. With a portion, the row is cut
//! into the parts of its period before, within and after the portion. The new row gets the part within, and the old
//! values are added again for the parts before and after.
ghost use Rattle.std.specs.Prelude.{◌≡◌, All, List, length, option_map, IfOk, Some};
ghost use Rattle.tql_spec.specs.Definition.{shown};
ghost use Rattle.tql_catalog.specs.Rows.{IsRowOf, stored_width};
ghost use Rattle.tql_versions.specs.Readings.{is_answer, version_shown as version_of};
ghost use Rattle.tql_versions.specs.Views.{version_of as kept_version};
ghost use Rattle.tql_versions.specs.declared.version.Version as answer;
ghost use Rattle.tql_dml.specs.Alters.{Alters, modified, fates, coming, gone, portion_in, work_in, conds_in};
ghost use Rattle.tql_dml.specs.Alters.{IsVersionOf, AreTyped};
ghost use Rattle.tql_dml.specs.Current.{open_versions};
ghost use Rattle.tql_dml.specs.Cutting.{IsCut, left_cells, made_cells};
ghost use Rattle.tql_dml.specs.PointChanges.{ModifiesAtPoints};
ghost use Rattle.tql_dml.specs.PointRefusals.{RefusesModificationAsPoints};
ghost use Rattle.tql_period.specs.Points.{points_of};
ghost use Rattle.tql_expr.specs.Evaluated.{Evaluated};
ghost use Rattle.tql_expr.specs.Shown.{shown_by};
ghost use Rattle.tql_bound.specs.declared.change.Modification as bound;
ghost use Rattle.tql_value.specs.declared.when.When.TheVariants.{Now};
ghost use Rattle.tql_dml.specs.Parts.{before, with_rows, touched_part, part_of, part_where, parts, parts_in};

use crate::assignment::{changed_row, left_row};
use crate::faults::first_fault;
use crate::periods::cut;
use tql_bound::change::{Modification, Work};
use tql_catalog::catalog::Table;
use tql_catalog::table_def::TableDef;
use tql_expr::row::Row;
use tql_expr::stored::StoredRow;
use tql_memory::Memory;
use tql_period::period::Period;
use tql_period::pieces::Pieces;
use tql_store::store::Delta;
use tql_value::refusal::Refusal;
use tql_value::table::TableId;
use tql_versions::kept::Kept;
use tql_versions::readings::if_open;
use tql_versions::version::{HIGH, Version};

/// The effect of a change so far: the ids of the removed versions, and the added rows as stored cells.
pub struct Changed {
    removed: Vec<usize, Memory>,
    added: Vec<Row, Memory>,
}

impl Drop for Changed {
    fn drop(self) {
        let Changed { removed, added } = self;
        drop(removed);
        drop(added);
    }
}

impl Changed {
    /// Returns this as a change of a table. The count is that of the removed versions, which are the rows touched.
    fn of_table(self, table: TableId) -> Delta
        ensures table { result.table ≡ table }
        ensures removed { result.removed.items ≡ self.removed.items }
        ensures added { result.added.items ≡ self.added.items }
        ensures count { result.count ≡ length self.removed.items }
    {
        let Changed { removed, added } = self;
        Delta {
            table,
            count: removed.len() as u64,
            removed,
            added,
        }
    }

    /// Returns the added rows.
    pub fn into_added(self) -> Vec<Row, Memory>
        ensures { result.items ≡ self.added.items }
    {
        let Changed { removed: _, added } = self;
        added
    }
}

/// Returns a current version as a full row of its table.
fn shown_row<'a>(definition: &TableDef, version: Version<'a>) -> StoredRow<'a>
    ensures { shown_by result ≡ shown definition.now (version_of version.entry).row }
{
    StoredRow {
        row: &version.kept.row,
        system: definition.generated(),
        start: version.kept.start,
        end: HIGH,
    }
}

/// Adds a row's old values for a part of its application period, if there is one.
fn add_left(
    memory: Memory,
    definition: &TableDef,
    row: &StoredRow<'_>,
    part: Option<Period>,
    changed: &mut Changed,
) -> Result<(), Refusal>
    ensures { Evaluated (λ _. parts_in changed.new)
        (with_rows (parts_in changed.old) (Some (left_cells definition.now (shown_by row.now) part))) result }
{
    if let Some(part) = part {
        let left = left_row(memory, definition, row, part)?;
        changed.added.push(left)?;
    }
    Ok(())
}

/// Adds the new row of an UPDATE. With a `part`, its application period is that part. Adds nothing for a DELETE.
fn add_made(
    memory: Memory,
    definition: &TableDef,
    modification: &Modification,
    row: &StoredRow<'_>,
    part: Option<Period>,
    changed: &mut Changed,
) -> Result<(), Refusal>
    ensures { Evaluated (λ _. parts_in changed.new) (with_rows (parts_in changed.old)
        (made_cells definition.now (option_map points_of part) (work_in modification.now) (shown_by row.now))) result }
{
    match &modification.work {
        Work::Remove => Ok(()),
        Work::Set(sets) => {
            let terms = &modification.terms;
            let new = changed_row(memory, terms, definition, sets, row, part)?;
            changed.added.push(new)?;
            Ok(())
        }
    }
}

/// Adds the effect on a row that is touched. Its version is removed, and its old values are added for the parts of its
/// period before and after the portion. An UPDATE adds the new row for the part within, or wholly.
fn touch(
    memory: Memory,
    definition: &TableDef,
    modification: &Modification,
    id: usize,
    row: &StoredRow<'_>,
    cut: Pieces,
    changed: &mut Changed,
) -> Result<(), Refusal>
    requires { IsCut definition.now (portion_in modification.now) (shown_by row.now) cut }
    ensures { Evaluated (λ _. parts_in changed.new) (before (parts_in changed.old)
        (touched_part definition.now (portion_in modification.now) (work_in modification.now) id (shown_by row.now)))
        result }
{
    changed.removed.push(id)?;
    add_left(memory, definition, row, cut.before, changed)?;
    add_made(memory, definition, modification, row, cut.inside, changed)?;
    add_left(memory, definition, row, cut.after, changed)
}

/// Adds the effect on a version. It is untouched if it shares no point with the portion, or fails WHERE.
fn add_version(
    memory: Memory,
    definition: &TableDef,
    modification: &Modification,
    version: Version<'_>,
    changed: &mut Changed,
) -> Result<(), Refusal>
    ensures { Evaluated (λ _. parts_in changed.new) (before (parts_in changed.old)
        (part_of definition.now (portion_in modification.now) (work_in modification.now) (conds_in modification.now)
        version.entry.id (shown definition.now (version_of version.entry).row))) result }
{
    let row = shown_row(definition, version);
    let Some(pieces) = cut(definition, modification.portion, &row) else {
        return Ok(());
    };
    if modification.terms.passes(&modification.conjuncts, &row)? {
        touch(
            memory,
            definition,
            modification,
            version.id,
            &row,
            pieces,
            changed,
        )?;
    }
    Ok(())
}

/// Returns the effect on these versions.
pub fn changes(
    memory: Memory,
    definition: &TableDef,
    modification: &Modification,
    found: &[Version<'_>],
) -> Result<Changed, Refusal>
    ensures { Evaluated parts_in
        (parts definition.now (portion_in modification.now) (work_in modification.now) (conds_in modification.now)
        found.now) result }
{
    let mut changed = Changed {
        removed: Vec::new(memory),
        added: Vec::new(memory),
    };
    for version in found {
        add_version(memory, definition, modification, *version, &mut changed)?;
    }
    Ok(changed)
}

/// Adds the effect on a stored version. It is untouched if it is not open, or as `add_version` says.
fn add_if_open(
    memory: Memory,
    definition: &TableDef,
    modification: &Modification,
    id: usize,
    version: &Kept,
    changed: &mut Changed,
) -> Result<(), Refusal>
    ensures { Evaluated (λ _. parts_in changed.new) (before (parts_in changed.old)
        (part_where (is_answer Now (kept_version version.now))
        (part_of definition.now (portion_in modification.now) (work_in modification.now) (conds_in modification.now)
        id (shown definition.now (kept_version version.now).row)))) result }
{
    match if_open(id, version) {
        Some(live) => add_version(memory, definition, modification, live, changed),
        None => Ok(()),
    }
}

/// Returns the effect on the current rows of a table, given its versions stored as current. Only what is touched is
/// kept in memory.
fn changes_now(
    memory: Memory,
    definition: &TableDef,
    modification: &Modification,
    current: &[Kept],
) -> Result<Changed, Refusal>
    ensures { Evaluated parts_in
        (parts definition.now (portion_in modification.now) (work_in modification.now) (conds_in modification.now)
        (open_versions current.now)) result }
{
    let mut changed = Changed {
        removed: Vec::new(memory),
        added: Vec::new(memory),
    };
    for (id, version) in current.iter().enumerate() {
        add_if_open(memory, definition, modification, id, version, &mut changed)?;
    }
    Ok(changed)
}

/// Returns the change of a table from its effect on versions, if the added rows have no fault.
fn tested(table: &Table, changed: Result<Changed, Refusal>) -> Result<Delta, Refusal>
    ensures alters { (x : bound.Modification) (found : List answer.Version)
        → All (λ (v : answer.Version). length v.kept.now.row ≡ stored_width table.now.definition) found
        → Evaluated parts_in (parts table.now.definition (portion_in x) (work_in x) (conds_in x) found) changed
        → Alters table.now.id (gone table.now.definition x found) (λ m. coming (fates table.now.definition found x m))
        (modified table.now.definition found x) result }
    ensures fits { (x : bound.Modification) (found : List answer.Version)
        → All (λ (v : answer.Version). length v.kept.now.row ≡ stored_width table.now.definition) found
        → Evaluated parts_in (parts table.now.definition (portion_in x) (work_in x) (conds_in x) found) changed
        → All (IsVersionOf table.now.definition) found → AreTyped table.now.definition found x
        → IfOk result (λ delta. All (IsRowOf table.now.definition) delta.added.items) }
{
    let definition = &table.definition;
    let changed = changed?;
    match first_fault(definition, &changed.added) {
        Some(refusal) => Err(refusal),
        None => Ok(changed.of_table(table.id)),
    }
}

/// Returns the change that an UPDATE or DELETE makes of these versions, the current ones of the table. Versions whose
/// row is touched are removed, and an UPDATE adds the new row of each. With a portion, a row is touched if its
/// application period shares a point with the portion. Its change is confined to the portion, and its old values are
/// kept before and after it (ISO/IEC 9075-2:2011, 14.9 and 14.14).
///
/// # Errors
///
/// The first of these over all rows: an evaluation that overflows 64 bits; a text longer than its column allows or a
/// CHECK that overflows; NULL in a column that is NOT NULL; an application period that does not start before its end; a
/// CHECK that is FALSE. Or a refused allocation. Each CHECK is evaluated on each added row, also on the parts before
/// and after a portion. Nothing is changed.
///
/// # What is proved besides
///
/// Clause `fits`: the added rows fit the table if the versions do, and the portion's values are of the kinds of their
/// columns. Clause `points`: let SET and WHERE name no period. Then the rows at each point of time after the change are
/// what the plain change makes of the rows at that point. Clause `refusals`: let also the old rows have no fault, and
/// periods that start before their end. Then the change is refused if, and only if, the plain change of some point is.
/// The refusal is the first of theirs, memory apart.
pub fn modify(
    memory: Memory,
    table: &Table,
    found: &[Version<'_>],
    modification: &Modification,
) -> Result<Delta, Refusal>
    requires { All (λ v. length v.kept.now.row ≡ stored_width table.now.definition) found.now }
    ensures alters { Alters table.now.id (gone table.now.definition modification.now found.now)
        (λ m. coming (fates table.now.definition found.now modification.now m))
        (modified table.now.definition found.now modification.now) result }
    ensures fits { All (IsVersionOf table.now.definition) found.now
        → AreTyped table.now.definition found.now modification.now
        → IfOk result (λ delta. All (IsRowOf table.now.definition) delta.added.items) }
    ensures points { IfOk result (ModifiesAtPoints table.now.definition found.now modification.now) }
    ensures refusals { RefusesModificationAsPoints table.now.definition found.now modification.now result }
{
    tested(
        table,
        changes(memory, &table.definition, modification, found),
    )
}

/// Returns what `modify` returns for the current rows of a table, given its versions stored as current; the id of each
/// is its position. Rows that are not touched take no memory.
pub fn modify_current(
    memory: Memory,
    table: &Table,
    current: &[Kept],
    modification: &Modification,
) -> Result<Delta, Refusal>
    requires { All (λ v. length v.kept.now.row ≡ stored_width table.now.definition) (open_versions current.now) }
    ensures alters { Alters table.now.id (gone table.now.definition modification.now (open_versions current.now))
        (λ m. coming (fates table.now.definition (open_versions current.now) modification.now m))
        (modified table.now.definition (open_versions current.now) modification.now) result }
    ensures fits { All (IsVersionOf table.now.definition) (open_versions current.now)
        → AreTyped table.now.definition (open_versions current.now) modification.now
        → IfOk result (λ delta. All (IsRowOf table.now.definition) delta.added.items) }
    ensures points { IfOk result
        (ModifiesAtPoints table.now.definition (open_versions current.now) modification.now) }
    ensures refusals { RefusesModificationAsPoints table.now.definition (open_versions current.now) modification.now
        result }
{
    tested(
        table,
        changes_now(memory, &table.definition, modification, current),
    )
}
