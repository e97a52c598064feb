//! What is read of one row or of two: the tuple, the application period, and whether two rows clash.
ghost use Rattle.std.specs.Prelude.{◌≡◌, ◌&&◌, map, option_map, IfOk};
ghost use Rattle.tql_spec.specs.Calendar.{high};
ghost use Rattle.tql_spec.specs.Definition.{point_of, period_of, shown};
ghost use Rattle.tql_spec.specs.Period.{where_rising};
ghost use Rattle.tql_spec.specs.Constraint.{match_on, clash as clash_in};
ghost use Rattle.tql_expr.specs.Shown.{shown_by};
ghost use Rattle.tql_catalog.specs.Definitions.{key_of};
ghost use Rattle.tql_period.specs.Points.{points_of};
ghost use Rattle.tql_value.specs.Views.{datum_of_view};
ghost use Rattle.tql_store.specs.Changes.{starting};
ghost use Rattle.tql_key_rows.specs.Asked.{new_rows};
ghost use Rattle.tql_key_rows.specs.Touched.{tuple, has_tuple as tuple_in, is_touched, share as share_in};

use smallvec::SmallVec;
use std::alloc::AllocError;
use tql_catalog::constraint::Key;
use tql_catalog::table_def::TableDef;
use tql_expr::columns::Columns;
use tql_expr::stored::StoredRow;
use tql_memory::Memory;
use tql_period::period::Period;
use tql_row::row::Row;
use tql_row::tuple::KeyTuple;
use tql_value::calendar::HIGH;
use tql_value::comparison::{Comparison, compare};
use tql_value::value::View;

/// Returns a current row as its table shows it, from its cells and the moment at which it started.
pub fn current_row<'a>(definition: &TableDef, row: &'a Row, start: i64) -> StoredRow<'a>
    ensures { shown_by result ≡ shown definition.now (starting start row.now) }
{
    StoredRow {
        row,
        system: definition.generated(),
        start,
        end: HIGH,
    }
}

/// Returns current rows as their table shows them, from their cells and the moment at which they started.
pub fn current_rows<'a>(
    memory: Memory,
    definition: &TableDef,
    rows: &'a [Row],
    start: i64,
) -> Result<Vec<StoredRow<'a>, Memory>, AllocError>
    ensures { IfOk result (λ current. map shown_by current.items ≡ new_rows definition.now start rows.now) }
{
    let mut current = Vec::with_capacity(memory, rows.len())?;
    for row in rows {
        current.push(current_row(definition, row, start))?;
    }
    Ok(current)
}

/// Returns the values of a row in some columns. Up to three make no allocation.
pub fn tuple_of<'a>(
    memory: Memory,
    row: &'a StoredRow<'_>,
    columns: &[usize],
) -> Result<KeyTuple<'a>, AllocError>
    ensures { IfOk result (λ values. map datum_of_view values.items ≡ tuple columns.now (shown_by row.now)) }
{
    let mut values = SmallVec::with_capacity(memory, columns.len())?;
    for column in columns {
        values.push(row.column(*column))?;
    }
    Ok(values)
}

/// Whether two rows have equal values in these columns. NULL equals nothing.
pub(crate) fn match_in(columns: &[usize], r: &StoredRow<'_>, s: &StoredRow<'_>) -> bool
    ensures { result ≡ match_on columns.now (shown_by r.now) columns.now (shown_by s.now) }
{
    columns.iter().all(|column| {
        compare(Comparison::Equal, r.column(*column), s.column(*column)).is_true()
    })
}

/// Whether a row has these values in these columns, and there are as many of both. NULL equals nothing.
pub fn has_tuple(columns: &[usize], tuple: &[View<'_>], row: &StoredRow<'_>) -> bool
    ensures { result ≡ tuple_in columns.now (map datum_of_view tuple.now) (shown_by row.now) }
{
    columns.len() == tuple.len()
        && columns.iter().zip(tuple).all(|(column, value)| {
            compare(Comparison::Equal, row.column(*column), *value).is_true()
        })
}

/// Whether the values of `row` in `columns` are as many as those of `other` in `others`, and equal. NULL equals
/// nothing.
pub fn agrees(
    columns: &[usize],
    row: &StoredRow<'_>,
    others: &[usize],
    other: &StoredRow<'_>,
) -> bool
    ensures { result ≡ tuple_in columns.now (tuple others.now (shown_by other.now)) (shown_by row.now) }
{
    columns.len() == others.len()
        && columns.iter().zip(others).all(|(column, from)| {
            compare(Comparison::Equal, row.column(*column), other.column(*from)).is_true()
        })
}

/// Returns the point of time that a value is, in days or microseconds since 1970-01-01. 0 if it is not one.
pub(crate) fn point(value: View<'_>) -> i64
    ensures { result ≡ point_of (datum_of_view value.entry) }
{
    match value {
        View::Day(day) => day,
        View::Moment(moment) => moment,
        View::Null | View::Int(_) | View::Text(_) => 0,
    }
}

/// Returns the application period of a row. None if its start is not before its end, or if the table has none.
pub fn period(definition: &TableDef, row: &StoredRow<'_>) -> Option<Period>
    ensures { option_map points_of result ≡ where_rising (period_of definition.now (shown_by row.now)) }
{
    let application = definition.application()?;
    let start = point(row.column(application.start));
    let end = point(row.column(application.end));
    Period::new(start, end)
}

/// Whether both periods are there and share a point.
fn share(x: Option<Period>, y: Option<Period>) -> bool
    ensures { result ≡ share_in (option_map points_of x) (option_map points_of y) }
{
    match (x, y) {
        (Some(x), Some(y)) => x.shares_a_point(y),
        _ => false,
    }
}

/// Whether the periods of two rows, maybe of two tables, share a point. Always true unless `by_period`.
pub fn touches(
    by_period: bool,
    definition: &TableDef,
    r: &StoredRow<'_>,
    other: &TableDef,
    s: &StoredRow<'_>,
) -> bool
    ensures { result ≡ is_touched definition.now by_period (period_of other.now (shown_by s.now)) (shown_by r.now) }
{
    if !by_period {
        return true;
    }
    share(period(definition, r), period(other, s))
}

/// Whether two rows clash in a key: their key values are equal and, WITHOUT OVERLAPS, their periods share a point.
pub fn clash(definition: &TableDef, key: &Key, r: &StoredRow<'_>, s: &StoredRow<'_>) -> bool
    ensures { result ≡ clash_in definition.now (key_of key.now) (shown_by r.now) (shown_by s.now) }
{
    match_in(&key.columns, r, s) && touches(key.by_period, definition, r, definition, s)
}
