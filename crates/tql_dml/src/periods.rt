//! The application periods of rows, and the parts into which a portion cuts them.
ghost use Rattle.std.specs.Prelude.{◌≡◌, option_map, slice_get};
ghost use Rattle.tql_spec.specs.Definition.{cell, period_of, point_like, point_of, with_period};
ghost use Rattle.tql_spec.specs.Period.{where_rising};
ghost use Rattle.tql_period.specs.Points.{points_of};
ghost use Rattle.tql_expr.specs.Shown.{shown_by};
ghost use Rattle.tql_value.specs.Views.{datum_of_view};
ghost use Rattle.tql_dml.specs.Cells.{data_of};
ghost use Rattle.tql_dml.specs.Cutting.{Cuts};

use crate::draft::put;
use tql_catalog::table_def::TableDef;
use tql_expr::columns::Columns;
use tql_expr::stored::StoredRow;
use tql_period::period::Period;
use tql_period::pieces::{Pieces, split};
use tql_value::value::View;

/// Returns the point of a value, in days or microseconds since 1970-01-01. Returns 0 for a value that is not a point.
pub(crate) fn point(value: View<'_>) -> i64
    ensures { result ≡ point_of (datum_of_view value.entry) }
{
    match value {
        View::Day(day) => day,
        View::Moment(moment) => moment,
        View::Null | View::Int(_) | View::Text(_) => 0,
    }
}

/// Returns the application period of a row. None if its start is not before its end, or the table has none.
fn period(definition: &TableDef, row: &StoredRow<'_>) -> Option<Period>
    ensures { option_map points_of result ≡ where_rising (period_of definition.now (shown_by row.now)) }
{
    let application = definition.application()?;
    let start = point(row.column(application.start));
    let end = point(row.column(application.end));
    Period::new(start, end)
}

/// Returns the parts of a row's period before, within and after the portion of a change. None if the period and the
/// portion share no point. A change without a portion cuts nothing: all three parts are None.
pub(crate) fn cut(
    definition: &TableDef,
    portion: Option<Period>,
    row: &StoredRow<'_>,
) -> Option<Pieces>
    ensures { Cuts definition.now (option_map points_of portion) (shown_by row.now) result }
{
    let Some(portion) = portion else {
        return Some(Pieces {
            before: None,
            inside: None,
            after: None,
        });
    };
    let pieces = split(period(definition, row)?, portion);
    if pieces.inside.is_some() {
        Some(pieces)
    } else {
        None
    }
}

/// Returns a point as a value of the kind that the cell at an index has.
fn like<'a>(cells: &[View<'a>], place: usize, point: i64) -> View<'a>
    ensures { datum_of_view result ≡ point_like (cell (data_of cells.now) place) point }
{
    match cells.get(place) {
        Some(View::Day(_)) => View::Day(point),
        _ => View::Moment(point),
    }
}

/// Sets the application period of a full row.
pub(crate) fn put_period(definition: &TableDef, period: Period, cells: &mut [View<'_>])
    ensures { data_of cells.new ≡ with_period definition.now (points_of period) (data_of cells.old) }
{
    if let Some(application) = definition.application() {
        let start = like(cells, application.start, period.start);
        let end = like(cells, application.end, period.end);
        put(cells, application.start, start);
        put(cells, application.end, end);
    }
}
