//! Stored rows, shown with the columns of their table.
ghost use Rattle.std.specs.Prelude.{◌≡◌, length, insert};
ghost use Rattle.tql_spec.specs.Datum as pure;
ghost use Rattle.tql_spec.specs.Definition.{cell};
ghost use Rattle.tql_value.specs.Views.{datum_of_view};
ghost use Rattle.tql_expr.specs.Generated.{read_or};
ghost use Rattle.tql_expr.specs.Shown.{shown_by};

use crate::columns::{Columns, over_no_rows};
use crate::row::Row;
use crate::terms::{Aggregate, Terms};
use std::cmp::Ordering;
use tql_value::arithmetic::Range;
use tql_value::value::View;

/// A stored row, shown with the columns of its table: ROW START and ROW END are in their columns.
#[derive(Clone, Copy)]
pub struct StoredRow<'a> {
    /// The row as it is stored: with all columns that are not generated.
    pub row: &'a Row,
    /// The columns of ROW START and ROW END, by number; `None` in a table that is not versioned.
    pub system: Option<(usize, usize)>,
    /// The moment at which the row began, in microseconds since 1970-01-01 00:00:00.
    pub start: i64,
    /// The moment at which the row ended, in the same unit.
    pub end: i64,
}

/// A moment in a column of its own.
#[derive(Clone, Copy)]
struct Stamp {
    place: usize,
    moment: i64,
}

/// Returns the position of a column among the others, in a row of this width to which one is added; `None` for the
/// added one. A column added past the end is added at the end.
fn place_among_others(added: usize, width: usize, place: usize) -> Option<usize>
    ensures { (row : pure.Row) (v : pure.Datum) → length row ≡ width
        → cell (insert row added v) place ≡ read_or v row result }
{
    match place.cmp(&added.min(width)) {
        Ordering::Less => Some(place),
        Ordering::Equal => None,
        Ordering::Greater => Some(place - 1),
    }
}

/// Returns the value of a column of a row after two stamps are added to it, one after the other.
fn with_stamps(row: &Row, first: Stamp, second: Stamp, place: usize) -> View<'_>
    ensures { datum_of_view result
        ≡ cell (insert (insert row.now first.place (pure.Moment first.moment)) second.place
        (pure.Moment second.moment)) place }
{
    let width = row.width();
    let Some(place) = place_among_others(second.place, width + 1, place) else {
        return View::Moment(second.moment);
    };
    match place_among_others(first.place, width, place) {
        None => View::Moment(first.moment),
        Some(place) => row.column(place),
    }
}

impl<'a> StoredRow<'a> {
    /// Returns the value of a column, or NULL past the last one. The value outlives this view of the row.
    pub fn value(&self, place: usize) -> View<'a>
        ensures { datum_of_view result ≡ cell (shown_by self.now) place }
    {
        let Some((start, end)) = self.system else {
            return self.row.column(place);
        };
        if place < start && place < end {
            let value = self.row.column(place);
            if !value.is_null() {
                return value;
            }
        }
        let begins = Stamp {
            place: start,
            moment: self.start,
        };
        let ends = Stamp {
            place: end,
            moment: self.end,
        };
        if start < end {
            with_stamps(self.row, begins, ends, place)
        } else {
            with_stamps(self.row, ends, begins, place)
        }
    }
}

impl Columns for StoredRow<'_> {
    ghost use Rattle.std.specs.Prelude.{◌≡◌, [], length};
    ghost use Rattle.tql_expr.specs.Shown.{shown_by};

    ghost values = { λ r. shown_by r };

    ghost group = { λ r. [] };

    fn width(&self) -> usize
        ensures { result ≡ length (shown_by self.now) }
    {
        let stored = self.row.width();
        if self.system.is_some() {
            stored + 2
        } else {
            stored
        }
    }

    // The rows of a table that is not versioned are the most common ones.
    #[inline]
    fn column(&self, place: usize) -> View<'_> {
        match self.system {
            None => self.row.column(place),
            Some(_) => self.value(place),
        }
    }

    fn aggregate<'a>(&'a self, terms: &'a Terms, which: Aggregate) -> Result<View<'a>, Range> {
        over_no_rows(terms, which)
    }
}
