//! Finds the row, and the column or CHECK, for which a change is refused. The tests of `faults` are run again with loop
//! counters, after the refusal only, so a change that succeeds pays nothing for it.
ghost use Rattle.std.specs.Prelude.{◌≡◌, ◌<◌, All, IfOk, IfSome, IsTrue, Some, length, map, option_map, slice_get};
ghost use Rattle.tql_spec.specs.Binding.{all_assignable};
ghost use Rattle.tql_catalog.specs.Definitions.{checks_of};
ghost use Rattle.tql_expr.specs.Evaluated.{Evaluated};
ghost use Rattle.tql_expr.specs.Meaning.{HasExpr};
ghost use Rattle.tql_expr.specs.Shown.{shown_by};
ghost use Rattle.tql_dml.specs.Alters.{conds_in, portion_in, tuples_in, work_in};
ghost use Rattle.tql_dml.specs.Cells.{falls_by, stored_cells, unstamped};
ghost use Rattle.tql_new_rows.specs.Failing as spec;
ghost use Rattle.tql_dml.specs.Parts.{Parts, parts};

use crate::spread::new_rows;
use crate::values::insertion_rows;
use tql_bound::change::{Insertion, Modification};
use tql_catalog::catalog::Table;
use tql_catalog::constraint::Checks;
use tql_catalog::table_def::TableDef;
use tql_dml::faults::{falls, is_lacking_at, is_too_long_at};
use tql_dml::modification::changes;
use tql_expr::columns::Columns;
use tql_expr::row::{EmptyRow, Row};
use tql_expr::stored::StoredRow;
use tql_expr::terms::{ExprId, Terms};
use tql_memory::Memory;
use tql_value::refusal::Refusal;
use tql_value::truth::Truth;
use tql_versions::version::{HIGH, Version};

/// The reason why a row fails. Columns are numbered among the stored columns, and CHECKs among those of the table, both
/// from 0.
#[derive(Clone, Copy)]
pub enum Failed {
    /// A text is longer than its column allows.
    LongText(usize),
    /// NULL in a column that is NOT NULL.
    Null(usize),
    /// The application period does not start before its end.
    Period,
    /// A CHECK computes a number that overflows 64 bits.
    CheckRange(usize),
    /// A CHECK is FALSE.
    Check(usize),
}

/// A row that fails, by its index among the new rows, and the reason.
#[derive(Clone, Copy)]
pub struct Failure {
    pub row: usize,
    pub failed: Failed,
}

/// A value of an INSERT that cannot be computed. `row` is the index of its tuple, and `value` its index in the tuple.
#[derive(Clone, Copy)]
pub struct ValueFailure {
    pub row: usize,
    pub value: usize,
}

/// Returns a new row with generated columns. No test reads these, so their moments are arbitrary.
fn new_row<'a>(definition: &TableDef, row: &'a Row) -> StoredRow<'a>
    ensures { shown_by result ≡ unstamped definition.now row.now }
{
    StoredRow {
        row,
        system: definition.generated(),
        start: 0,
        end: HIGH,
    }
}

/// Whether a cell is a text longer than its column allows.
#[tactic(auto, using(crate::proofs::Failing::cell_at))]
fn is_long_cell(definition: &TableDef, row: &Row, number: usize) -> bool
    ensures { result ≡ spec.is_long_cell definition.now.columns (slice_get (all_assignable definition.now) number)
        (slice_get row.now number) }
{
    if row.width() <= number {
        return false;
    }
    match definition.assignable().get(number) {
        Some(column) => is_too_long_at(definition.columns(), *column, row, number),
        None => false,
    }
}

/// Whether a cell is NULL in a column that is NOT NULL.
#[tactic(auto, using(crate::proofs::Failing::cell_at))]
fn is_lacking_cell(definition: &TableDef, row: &Row, number: usize) -> bool
    ensures { result ≡ spec.is_lacking_cell definition.now.columns (slice_get (all_assignable definition.now) number)
        (slice_get row.now number) }
{
    if row.width() <= number {
        return false;
    }
    match definition.assignable().get(number) {
        Some(column) => is_lacking_at(definition.columns(), *column, row, number),
        None => false,
    }
}

/// Whether a row's application period has both ends and does not start before its end.
fn has_fallen(definition: &TableDef, row: &StoredRow<'_>) -> bool
    ensures { result ≡ falls_by definition.now.application (shown_by row.now) }
{
    match definition.application() {
        Some(application) => falls(row.column(application.start), row.column(application.end)),
        None => false,
    }
}

/// Whether a CHECK overflows on a row.
#[tactic(auto, using(crate::proofs::Failing::check_at))]
fn is_check_out_of_range(checks: &Checks, number: usize, row: &StoredRow<'_>) -> bool
    ensures { result ≡ spec.is_check_out_of_range (slice_get (checks_of checks.now) number) (shown_by row.now) }
{
    match checks.conditions.get(number) {
        Some(check) => checks.terms.holds(*check, row).is_err(),
        None => false,
    }
}

/// Whether a CHECK is FALSE on a row.
#[tactic(auto, using(crate::proofs::Failing::check_at))]
fn is_check_false(checks: &Checks, number: usize, row: &StoredRow<'_>) -> bool
    ensures { result ≡ spec.is_check_false (slice_get (checks_of checks.now) number) (shown_by row.now) }
{
    match checks.conditions.get(number) {
        Some(check) => matches!(checks.terms.holds(*check, row), Ok(Truth::False)),
        None => false,
    }
}

/// Whether a row fails for this reason.
fn fails(definition: &TableDef, row: &Row, failed: Failed) -> bool
    ensures { result ≡ spec.fails definition.now row.now failed }
{
    let shown = new_row(definition, row);
    let checks = definition.checks();
    match failed {
        Failed::LongText(number) => is_long_cell(definition, row, number),
        Failed::Null(number) => is_lacking_cell(definition, row, number),
        Failed::Period => has_fallen(definition, &shown),
        Failed::CheckRange(number) => is_check_out_of_range(checks, number, &shown),
        Failed::Check(number) => is_check_false(checks, number, &shown),
    }
}

/// Returns the reason for this refusal that lies in the cell at an index, if a cell can be the reason.
fn by_cell(refusal: Refusal, number: usize) -> Option<Failed> {
    match refusal {
        Refusal::ValueOutOfRange => Some(Failed::LongText(number)),
        Refusal::NullNotAllowed => Some(Failed::Null(number)),
        _ => None,
    }
}

/// Returns the reason for this refusal that lies in the CHECK at an index, if a CHECK can be the reason.
fn by_check(refusal: Refusal, number: usize) -> Option<Failed> {
    match refusal {
        Refusal::ValueOutOfRange => Some(Failed::CheckRange(number)),
        Refusal::CheckFailed => Some(Failed::Check(number)),
        _ => None,
    }
}

/// Returns the first cell for which a row fails with this refusal.
fn failed_cell(definition: &TableDef, row: &Row, refusal: Refusal) -> Option<Failed> {
    for number in 0..row.width() {
        let failed = by_cell(refusal, number)?;
        if fails(definition, row, failed) {
            return Some(failed);
        }
    }
    None
}

/// Returns the first CHECK for which a row fails with this refusal.
fn failed_check(definition: &TableDef, row: &Row, refusal: Refusal) -> Option<Failed> {
    for number in 0..definition.checks().conditions.len() {
        let failed = by_check(refusal, number)?;
        if fails(definition, row, failed) {
            return Some(failed);
        }
    }
    None
}

/// Returns the reason why a row fails with this refusal. For an application period the row is not tested.
fn failed_in(definition: &TableDef, row: &Row, refusal: Refusal) -> Option<Failed> {
    if refusal == Refusal::PeriodNotRising {
        return Some(Failed::Period);
    }
    match failed_cell(definition, row, refusal) {
        Some(failed) => Some(failed),
        None => failed_check(definition, row, refusal),
    }
}

/// Whether the row of a failure fails for its reason.
fn is_failure(definition: &TableDef, rows: &[Row], failure: Failure) -> bool
    ensures { result ≡ spec.is_failure definition.now rows.now failure }
{
    match rows.get(failure.row) {
        Some(row) => fails(definition, row, failure.failed),
        None => false,
    }
}

/// Returns the failure of the row at an index, for this refusal. None if that row does not fail so.
fn failure_at(definition: &TableDef, rows: &[Row], row: usize, refusal: Refusal) -> Option<Failure>
    ensures { IfSome result (λ f. IsTrue (spec.is_failure definition.now rows.now f)) }
{
    let failed = failed_in(definition, rows.get(row)?, refusal)?;
    let failure = Failure { row, failed };
    if is_failure(definition, rows, failure) {
        Some(failure)
    } else {
        None
    }
}

/// Returns the first of the new rows that fails with this refusal, and why: a text, a NULL, the application period or a
/// CHECK (E30 and E32 to E34). The rows have the stored columns only.
pub fn first_failure(definition: &TableDef, rows: &[Row], refusal: Refusal) -> Option<Failure>
    ensures { IfSome result (λ f. IsTrue (spec.is_failure definition.now rows.now f)) }
{
    for row in 0..rows.len() {
        if let Some(failure) = failure_at(definition, rows, row, refusal) {
            return Some(failure);
        }
    }
    None
}

/// Returns the index of the first of these expressions that cannot be computed.
fn failed_value(terms: &Terms, tuple: &[ExprId]) -> Option<usize>
    requires { All (HasExpr terms.now) tuple.now }
    ensures { IfSome result (λ value. value < length tuple.now) }
{
    for value in 0..tuple.len() {
        if terms.eval(tuple[value], &EmptyRow).is_err() {
            return Some(value);
        }
    }
    None
}

/// Returns the first value of an INSERT whose evaluation overflows 64 bits (E30).
pub fn first_failed_value(insertion: &Insertion) -> Option<ValueFailure>
    ensures { IfSome result (λ f. f.row < length insertion.now.tuples.items) }
{
    for row in 0..insertion.tuples.len() {
        if let Some(value) = failed_value(&insertion.terms, &insertion.tuples[row]) {
            return Some(ValueFailure { row, value });
        }
    }
    None
}

/// Returns the rows that an INSERT of these rows of values would add, even if they have faults. The only error is a
/// refused allocation.
pub fn inserted_rows(
    memory: Memory,
    table: &Table,
    columns: &[usize],
    values: Vec<Row, Memory>,
) -> Result<Vec<Row, Memory>, Refusal>
    ensures { IfOk result (λ rows. rows.items
        ≡ map (stored_cells table.now.definition columns.now) values.entry.items) }
{
    new_rows(memory, &table.definition, columns, values)
}

/// Returns the rows that an INSERT of tuples would add, even if they have faults. Refused if an evaluation overflows 64
/// bits, or if an allocation is refused.
pub fn tuple_rows(
    memory: Memory,
    table: &Table,
    insertion: &Insertion,
) -> Result<Vec<Row, Memory>, Refusal>
    ensures { IfOk result (λ rows. option_map
        (map (stored_cells table.now.definition insertion.now.columns.items)) (tuples_in insertion.now)
        ≡ Some rows.items) }
{
    insertion_rows(memory, &table.definition, insertion)
}

/// Returns the rows that an UPDATE or DELETE of these versions would add, even if they have faults. Refused if an
/// evaluation overflows 64 bits, or if an allocation is refused.
pub fn modified_rows(
    memory: Memory,
    table: &Table,
    found: &[Version<'_>],
    modification: &Modification,
) -> Result<Vec<Row, Memory>, Refusal>
    ensures { Evaluated (λ rows. rows.items) (option_map (λ (p : Parts). p.come)
        (parts table.now.definition (portion_in modification.now) (work_in modification.now) (conds_in modification.now)
        found.now)) result }
{
    let changed = changes(memory, &table.definition, modification, found)?;
    Ok(changed.into_added())
}
