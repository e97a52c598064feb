//! The tests of new rows: text lengths, NOT NULL, application periods and CHECKs. All rows are tested, and the fault
//! that comes first in the order of report is reported.
ghost use Rattle.std.specs.Prelude.{◌≡◌, ◌&&◌, ◌++◌, All, Some, map, nat_lt, option_map, slice_index_or};
ghost use Rattle.tql_spec.specs.Datum.{characters as characters_of, is_null};
ghost use Rattle.tql_spec.specs.Definition.{cell};
ghost use Rattle.tql_spec.specs.Refusal.{PeriodNotRising, first, fault_if};
ghost use Rattle.tql_spec.specs.Change.{is_too_long as too_long, cell_faults, check_fault};
ghost use Rattle.tql_spec.specs.Words.{listed};
ghost use Rattle.tql_catalog.specs.Defined.{IsDefinition};
ghost use Rattle.tql_catalog.specs.Definitions.{column_of, checks_of};
ghost use Rattle.tql_expr.specs.Meaning.{cond, judged, HasCond};
ghost use Rattle.tql_expr.specs.Shown.{shown_by};
ghost use Rattle.tql_value.specs.Refusals.{refusal_of};
ghost use Rattle.tql_value.specs.Views.{datum_of_view};
ghost use Rattle.tql_dml.specs.Cells.{no_column, columns_at, stored_columns, has_long_text as long_in};
ghost use Rattle.tql_dml.specs.Cells.{lacks_a_value as lacking_in, falls as falling, falls_by, checks_faults};
ghost use Rattle.tql_dml.specs.Cells.{faults_by, rows_faults};

use crate::periods::point;
use tql_catalog::constraint::Checks;
use tql_catalog::definition::Column;
use tql_catalog::table_def::TableDef;
use tql_expr::columns::Columns;
use tql_expr::row::Row;
use tql_expr::stored::StoredRow;
use tql_expr::terms::{CondId, Terms};
use tql_value::arithmetic::Range;
use tql_value::refusal::Refusal;
use tql_value::text::characters;
use tql_value::truth::Truth;
use tql_value::value::View;
use tql_versions::version::HIGH;

/// Whether a text has more characters than a limit. The characters of a text of no more bytes than that are not
/// counted.
fn is_longer(text: &str, limit: u64) -> bool
    ensures { result ≡ nat_lt limit (characters_of text.now) }
{
    limit < text.len() as u64 && limit < characters(text) as u64
}

/// Whether a value is a text with more characters than a limit.
fn is_long_text(value: View<'_>, limit: u64) -> bool
    ensures { result ≡ too_long (Some limit) (datum_of_view value.entry) }
{
    match value {
        View::Text(text) => is_longer(text, limit),
        _ => false,
    }
}

/// Whether a cell is a text with more characters than its column allows.
fn is_too_long(column: &Column, row: &Row, place: usize) -> bool
    ensures { result ≡ too_long column.now.limit (cell row.now place) }
{
    match column.limit {
        Some(limit) => is_long_text(row.column(place), limit),
        None => false,
    }
}

/// Whether a cell is NULL and its column is NOT NULL.
fn is_lacking(column: &Column, row: &Row, place: usize) -> bool
    ensures { result ≡ (column.now.is_required && is_null (cell row.now place)) }
{
    column.is_required && row.column(place).is_null()
}

/// Whether a cell is a text too long for the column of this number.
pub fn is_too_long_at(columns: &[Column], number: usize, row: &Row, place: usize) -> bool
    ensures { result ≡ too_long (slice_index_or (map column_of columns.now) number no_column).limit
        (cell row.now place) }
{
    match columns.get(number) {
        Some(column) => is_too_long(column, row, place),
        None => false,
    }
}

/// Whether a cell is NULL and the column of this number is NOT NULL.
pub fn is_lacking_at(columns: &[Column], number: usize, row: &Row, place: usize) -> bool
    ensures { result ≡ (slice_index_or (map column_of columns.now) number no_column).required
        && is_null (cell row.now place) }
{
    match columns.get(number) {
        Some(column) => is_lacking(column, row, place),
        None => false,
    }
}

/// Whether some text of a row is longer than its column allows. `stored` has the number of the column of each cell.
/// Only the cells of columns with a limit are read.
fn has_long_text(columns: &[Column], stored: &[usize], row: &Row) -> bool
    ensures { result ≡ long_in (columns_at (map column_of columns.now) stored.now) row.now }
{
    for place in 0..stored.len().min(row.width()) {
        if is_too_long_at(columns, stored[place], row, place) {
            return true;
        }
    }
    false
}

/// Whether some cell of a row is NULL in a column that is NOT NULL. `stored` has the number of the column of each cell.
/// Only the cells of such columns are read.
fn lacks_a_value(columns: &[Column], stored: &[usize], row: &Row) -> bool
    ensures { result ≡ lacking_in (columns_at (map column_of columns.now) stored.now) row.now }
{
    for place in 0..stored.len().min(row.width()) {
        if is_lacking_at(columns, stored[place], row, place) {
            return true;
        }
    }
    false
}

/// Whether both values are not NULL, and the end is not after the start.
pub fn falls(start: View<'_>, end: View<'_>) -> bool
    ensures { result ≡ falling (datum_of_view start.entry) (datum_of_view end.entry) }
{
    !start.is_null() && !end.is_null() && point(end) <= point(start)
}

/// Returns the first fault of the stored cells of a row: a text longer than its column allows, then NULL in a column
/// that is NOT NULL.
fn cell_fault(definition: &TableDef, row: &Row) -> Option<Refusal>
    ensures { option_map refusal_of result ≡ first (cell_faults (stored_columns definition.now) row.now) }
{
    let columns = definition.columns();
    let stored = definition.assignable();
    if has_long_text(columns, stored, row) {
        return Some(Refusal::ValueOutOfRange);
    }
    if lacks_a_value(columns, stored, row) {
        return Some(Refusal::NullNotAllowed);
    }
    None
}

/// Returns the fault of a row's application period: both ends are not NULL, and the start is not before the end.
fn period_fault(definition: &TableDef, row: &StoredRow<'_>) -> Option<Refusal>
    ensures { option_map refusal_of result
        ≡ first (fault_if (falls_by definition.now.application (shown_by row.now)) PeriodNotRising) }
{
    match definition.application() {
        Some(a) if falls(row.column(a.start), row.column(a.end)) => Some(Refusal::PeriodNotRising),
        _ => None,
    }
}

/// Returns the fault of a CHECK: it overflows, or is FALSE. UNKNOWN passes.
fn truth_fault(truth: Result<Truth, Range>) -> Option<Refusal>
    ensures { option_map refusal_of result ≡ first (check_fault (judged truth)) }
{
    match truth {
        Err(_) => Some(Refusal::ValueOutOfRange),
        Ok(Truth::False) => Some(Refusal::CheckFailed),
        Ok(_) => None,
    }
}

/// Returns the fault that comes first in the order of report, if there is any.
fn sooner(fault: Option<Refusal>, other: Option<Refusal>) -> Option<Refusal>
    ensures { option_map refusal_of result
        ≡ first (listed (option_map refusal_of fault) ++ listed (option_map refusal_of other)) }
{
    match (fault, other) {
        (Some(fault), Some(other)) => Some(fault.earlier(other)),
        (Some(fault), None) => Some(fault),
        (None, other) => other,
    }
}

/// Returns the first fault of a row by the CHECKs, of which each is evaluated.
fn checks_fault(terms: &Terms, checks: &[CondId], row: &StoredRow<'_>) -> Option<Refusal>
    requires { All (HasCond terms.now) checks.now }
    ensures { option_map refusal_of result
        ≡ first (checks_faults (map (cond terms.now) checks.now) (shown_by row.now)) }
{
    let mut found = None;
    for check in checks {
        found = sooner(found, truth_fault(terms.holds(*check, row)));
    }
    found
}

/// Returns the first fault of a row, given its stored cells. No test reads a generated column, so their moments are
/// arbitrary.
fn row_fault(definition: &TableDef, checks: &Checks, row: &Row) -> Option<Refusal>
    ensures { option_map refusal_of result
        ≡ first (faults_by (stored_columns definition.now) (checks_of checks.now) definition.now row.now) }
{
    let shown = StoredRow {
        row,
        system: definition.generated(),
        start: 0,
        end: HIGH,
    };
    let cell = cell_fault(definition, row);
    let plain = sooner(cell, period_fault(definition, &shown));
    let checked = checks_fault(&checks.terms, &checks.conditions, &shown);
    sooner(plain, checked)
}

/// Returns the first fault of the rows of a table, given their stored cells. The order of report, over all rows, is: a
/// text that is too long or a CHECK that overflows; NULL in a column that is NOT NULL; an application period that does
/// not start before its end; a CHECK that is FALSE.
pub fn first_fault(definition: &TableDef, rows: &[Row]) -> Option<Refusal>
    ensures fault { option_map refusal_of result ≡ first (rows_faults definition.now rows.now) }
    ensures right { IsDefinition definition.now }
{
    let checks = definition.checks();
    let mut found = None;
    for row in rows {
        found = sooner(found, row_fault(definition, checks, row));
    }
    found
}
