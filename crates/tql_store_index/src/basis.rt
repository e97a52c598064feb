//! Index definitions, and the lookups that they serve: by column values, by period, or by both.
ghost use Rattle.std.specs.Prelude.{◌≡◌, ◌↔◌, [], ◌∷◌, IsTrue, option_map, map};
ghost use Rattle.tql_spec.specs.Definition.{period_between, point_of as point_for};
ghost use Rattle.tql_spec.specs.Period.{where_rising, share_a_point};
ghost use Rattle.tql_period.specs.Points.{points_of};
ghost use Rattle.tql_value.specs.Views.{datum_of_view};
ghost use Rattle.tql_index.specs.Spans.{span_of};
ghost use Rattle.tql_store_index.specs.Basis.{basis_of, filed, in_values, sought_of, Serves, stands_by, is_sought};
ghost use Rattle.tql_store_index.specs.Basis.{ServesIf, is_between as between};
ghost use Rattle.tql_store_index.specs.Places.{fitting_if};

use crate::tuple::{group_of_row, has_values, placed_if};
use std::slice;
use tql_index::span::Span;
use tql_memory::Memory;
use tql_period::period::Period;
use tql_row::row::Row;
use tql_value::value::View;

/// An index definition: the key by which an index finds rows.
#[derive(Drop)]
pub enum Basis {
    /// The values in these columns.
    Values(Vec<usize, Memory>),
    /// These values and, among rows with the same values, the period from the first column to the second.
    ValuesIn(Vec<usize, Memory>, usize, usize),
    /// These values and, among rows with the same values, the period that is kept with each row outside its columns.
    ValuesDuring(Vec<usize, Memory>),
    /// The period from the first column to the second.
    Period(usize, usize),
    /// The period that is kept with each row outside its columns.
    During,
}

/// A lookup: which rows to find.
#[derive(Clone, Copy)]
pub enum Sought<'a> {
    /// Rows with these values in these columns; NULL equals no value.
    With(&'a [usize], &'a [View<'a>]),
    /// As `With`, and the row's period, from the first column to the second, shares a point with this one.
    WithIn(&'a [usize], &'a [View<'a>], usize, usize, Period),
    /// Rows whose period, from the first column to the second, contains the point.
    Holding(usize, usize, i64),
    /// Rows whose period, from the first column to the second, shares a point with this one.
    Sharing(usize, usize, Period),
    /// Rows with a number, a day or a moment in this column that is from the first number to the second, both included
    /// (numbers, days or microseconds since 1970-01-01).
    Between(usize, i64, i64),
}

/// Returns a day or moment as a number of days or microseconds since 1970-01-01; 0 for any other value.
fn point(value: View<'_>) -> i64
    ensures { result ≡ point_for (datum_of_view value.entry) }
{
    match value {
        View::Day(day) => day,
        View::Moment(moment) => moment,
        View::Null | View::Int(_) | View::Text(_) => 0,
    }
}

/// Returns the period of a row between two columns, or `None` if it does not start before it ends.
fn period_of_row(start: usize, end: usize, row: &Row) -> Option<Period>
    ensures { option_map points_of result ≡ where_rising (period_between row.now start end) }
{
    Period::new(point(row.column(start)), point(row.column(end)))
}

/// Whether the period of a row between two columns shares a point with `other`.
fn shares(start: usize, end: usize, row: &Row, other: Period) -> bool
    ensures { result ≡ share_a_point (period_between row.now start end) (points_of other) }
{
    match period_of_row(start, end, row) {
        Some(period) => period.shares_a_point(other),
        None => false,
    }
}

/// Whether this column is the only one of the list.
fn is_only(columns: &[usize], column: usize) -> bool
    ensures { IsTrue result ↔ (columns.now ≡ column ∷ []) }
{
    columns == slice::from_ref(&column)
}

/// Whether a value is a number, a day or a moment from `low` to `high`, both included.
fn is_between(value: View<'_>, low: i64, high: i64) -> bool
    ensures { result ≡ between low high (datum_of_view value.entry) }
{
    match value {
        View::Int(number) => low <= number && number <= high,
        View::Day(day) => low <= day && day <= high,
        View::Moment(moment) => low <= moment && moment <= high,
        View::Null | View::Text(_) => false,
    }
}

/// Returns the span of `period` in the group of a row's values, or `None` if one of these values is NULL. Without a
/// period, the span is the whole group.
fn span_in(columns: &[usize], row: &Row, period: Option<Period>) -> Option<Span>
    ensures { option_map span_of result
        ≡ in_values columns.now row.now (fitting_if (option_map points_of period)) }
{
    match group_of_row(columns, row) {
        Some(group) => Some(placed_if(group, period)),
        None => None,
    }
}

/// Returns the span of a period by itself, in group 0, if there is a period.
fn span_alone(period: Option<Period>) -> Option<Span>
    ensures { option_map span_of result ≡ option_map points_of period }
{
    match period {
        Some(period) => Some(Span::of(period)),
        None => None,
    }
}

impl Basis {
    /// Returns the span under which a row is indexed. It is `None` if a key value is NULL, or if the key is a period
    /// alone that does not start before it ends.
    pub(crate) fn span(&self, row: &Row, during: Period) -> Option<Span>
        ensures { option_map span_of result
            ≡ stands_by (basis_of self.now) (filed row.now (points_of during)) }
    {
        match self {
            Basis::Values(columns) => span_in(columns, row, None),
            Basis::ValuesIn(columns, start, end) => {
                span_in(columns, row, period_of_row(*start, *end, row))
            }
            Basis::ValuesDuring(columns) => span_in(columns, row, Some(during)),
            Basis::Period(start, end) => span_alone(period_of_row(*start, *end, row)),
            Basis::During => Some(placed_if(0, Some(during))),
        }
    }

    /// Whether an index with this definition can answer the lookup.
    pub(crate) fn serves(&self, sought: Sought<'_>) -> bool
        ensures { IsTrue result ↔ Serves (sought_of sought.entry) (basis_of self.now) }
    {
        match (self, sought) {
            (Basis::Values(columns), Sought::With(wanted, _)) => columns.as_slice() == wanted,
            (Basis::ValuesIn(columns, _, _), Sought::With(wanted, _)) => {
                columns.as_slice() == wanted
            }
            (Basis::ValuesDuring(columns), Sought::With(wanted, _)) => {
                columns.as_slice() == wanted
            }
            (Basis::ValuesIn(columns, start, end), Sought::WithIn(wanted, _, from, to, _)) => {
                columns.as_slice() == wanted && (*start == from && *end == to)
            }
            (Basis::ValuesDuring(columns), Sought::WithIn(wanted, _, _, _, _)) => {
                columns.as_slice() == wanted
            }
            (Basis::Period(start, end), Sought::Holding(from, to, _)) => {
                *start == from && *end == to
            }
            (Basis::Period(start, end), Sought::Sharing(from, to, _)) => {
                *start == from && *end == to
            }
            (Basis::Values(columns), Sought::Between(column, _, _)) => is_only(columns, column),
            (Basis::ValuesIn(columns, _, _), Sought::Between(column, _, _)) => {
                is_only(columns, column)
            }
            (Basis::ValuesDuring(columns), Sought::Between(column, _, _)) => {
                is_only(columns, column)
            }
            _ => false,
        }
    }

    /// Whether an index with this definition can answer the lookup, if there is one. Otherwise, whether it finds rows
    /// by the period kept with them.
    pub(crate) fn serves_if(&self, sought: Option<Sought<'_>>) -> bool
        ensures { IsTrue result ↔ ServesIf (option_map sought_of sought.entry) (basis_of self.now) }
    {
        match sought {
            Some(sought) => self.serves(sought),
            None => matches!(self, Basis::During),
        }
    }
}

impl Sought<'_> {
    /// Whether the lookup matches a row.
    pub fn takes(self, row: &Row) -> bool
        ensures { result ≡ is_sought (sought_of self.entry) row.now }
    {
        match self {
            Sought::With(columns, tuple) => has_values(columns, tuple, row),
            Sought::WithIn(columns, tuple, start, end, other) => {
                has_values(columns, tuple, row) && shares(start, end, row, other)
            }
            Sought::Holding(start, end, point) => match period_of_row(start, end, row) {
                Some(period) => period.holds(point),
                None => false,
            },
            Sought::Sharing(start, end, other) => shares(start, end, row, other),
            Sought::Between(column, low, high) => is_between(row.column(column), low, high),
        }
    }
}
