//! Compares the values in some columns of a row with a tuple, and hashes them to the group in which the row is indexed.
ghost use Rattle.std.specs.Prelude.{◌≡◌, if◌then◌else◌, None, Some, map, option_map};
ghost use Rattle.std.specs.List.{fold, list_any};
ghost use Rattle.tql_spec.specs.Truth.{is_true as holds_true};
ghost use Rattle.tql_spec.specs.Datum.{compare as compared, Equals, is_null as null_of};
ghost use Rattle.tql_digest.specs.Digest.{absorbed, digest};
ghost use Rattle.tql_period.specs.Points.{points_of};
ghost use Rattle.tql_value.specs.Views.{datum_of_view};
ghost use Rattle.tql_index.specs.Spans.{span_of, in_group};
ghost use Rattle.tql_store_index.specs.Places.{fitting, fitting_if};
ghost use Rattle.tql_store_index.specs.Tuple.{is_at};
ghost use Rattle.tql_store_index.specs.Tuple.{group_of, in_columns};

use std::hash::{DefaultHasher, Hasher};
use tql_digest::{absorb, digest_alone};
use tql_index::span::Span;
use tql_period::period::Period;
use tql_row::row::Row;
use tql_value::comparison::{Comparison, compare};
use tql_value::truth::Truth;
use tql_value::value::View;

/// Whether two values are equal; NULL equals nothing.
fn equals(a: View<'_>, b: View<'_>) -> bool
    ensures { result ≡ holds_true (compared Equals (datum_of_view a.entry) (datum_of_view b.entry)) }
{
    matches!(compare(Comparison::Equal, a, b), Truth::True)
}

/// Whether the values in these columns of a row equal those of the tuple; NULL equals nothing.
pub(crate) fn has_values(columns: &[usize], tuple: &[View<'_>], row: &Row) -> bool
    ensures { result ≡ is_at columns.now (map datum_of_view tuple.now) row.now }
{
    match (columns.split_first(), tuple.split_first()) {
        (None, None) => true,
        (Some((column, columns)), Some((wanted, tuple))) => {
            equals(row.column(*column), *wanted) && has_values(columns, tuple, row)
        }
        _ => false,
    }
}

/// Adds the values in these columns of a row to a hash.
fn absorb_row(hasher: DefaultHasher, columns: &[usize], row: &Row) -> DefaultHasher
    ensures { result ≡ fold absorbed hasher (in_columns columns.now row.now) }
{
    match columns.split_first() {
        None => hasher,
        Some((column, columns)) => absorb_row(absorb(hasher, row.column(*column)), columns, row),
    }
}

/// Adds the values of a tuple to a hash.
fn absorb_tuple(hasher: DefaultHasher, tuple: &[View<'_>]) -> DefaultHasher
    ensures { result ≡ fold absorbed hasher (map datum_of_view tuple.now) }
{
    match tuple.split_first() {
        None => hasher,
        Some((value, tuple)) => absorb_tuple(absorb(hasher, *value), tuple),
    }
}

/// Returns the digest of the values in these columns of a row.
#[tactic(auto, unfolding(tql_digest::specs::Digest::digest))]
fn digest_of_row(columns: &[usize], row: &Row) -> u64
    ensures { result ≡ digest (in_columns columns.now row.now) }
{
    match columns.split_first() {
        Some((column, [])) => digest_alone(row.column(*column)),
        _ => absorb_row(DefaultHasher::new(), columns, row).finish(),
    }
}

/// Returns the digest of the values of a tuple.
#[tactic(auto, unfolding(tql_digest::specs::Digest::digest))]
fn digest_of_tuple(tuple: &[View<'_>]) -> u64
    ensures { result ≡ digest (map datum_of_view tuple.now) }
{
    match tuple.split_first() {
        Some((value, [])) => digest_alone(*value),
        _ => absorb_tuple(DefaultHasher::new(), tuple).finish(),
    }
}

/// Whether one of the values in these columns of a row is NULL.
fn has_null(columns: &[usize], row: &Row) -> bool
    ensures { result ≡ list_any null_of (in_columns columns.now row.now) }
{
    match columns.split_first() {
        None => false,
        Some((column, columns)) => row.column(*column).is_null() || has_null(columns, row),
    }
}

/// Returns the group of a row by its values in these columns, or `None` if one of them is NULL. Rows with the same
/// values are in the same group; other rows may be in it too.
pub(crate) fn group_of_row(columns: &[usize], row: &Row) -> Option<i64>
    ensures { result ≡ (if list_any null_of (in_columns columns.now row.now) then None
        else Some (group_of (in_columns columns.now row.now))) }
{
    if has_null(columns, row) {
        None
    } else {
        Some(digest_of_row(columns, row).cast_signed())
    }
}

/// Returns the group of the rows with the values of this tuple.
fn group_of_tuple(tuple: &[View<'_>]) -> i64
    ensures { result ≡ group_of (map datum_of_view tuple.now) }
{
    digest_of_tuple(tuple).cast_signed()
}

/// Returns the span of a period in a group.
fn placed(group: i64, period: Period) -> Span
    ensures { span_of result ≡ in_group group (fitting (points_of period)) }
{
    Span::within(group, period)
}

/// Returns the span of a period in a group, or the whole group if there is no period.
pub(crate) fn placed_if(group: i64, period: Option<Period>) -> Span
    ensures { span_of result ≡ in_group group (fitting_if (option_map points_of period)) }
{
    match period {
        Some(period) => placed(group, period),
        None => Span::all(group),
    }
}

/// Returns the span of a period in the group of the tuple's values, or the whole group if there is no period.
pub(crate) fn span_of_tuple(tuple: &[View<'_>], period: Option<Period>) -> Span
    ensures { span_of result
        ≡ in_group (group_of (map datum_of_view tuple.now)) (fitting_if (option_map points_of period)) }
{
    placed_if(group_of_tuple(tuple), period)
}
