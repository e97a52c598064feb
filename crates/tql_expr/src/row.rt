//! Rows in packed form, the cells of a list of values, and the row without columns.
ghost use Rattle.std.specs.Prelude.{◌≡◌, map};
ghost use Rattle.tql_spec.specs.Definition.{cell};
ghost use Rattle.tql_value.specs.Views.{datum_of_value, datum_of_view};

use crate::columns::{Columns, over_no_rows};
use crate::terms::{Aggregate, Terms};
pub use tql_row::row::Row;
use tql_value::arithmetic::Range;
use tql_value::value::{Value, View};

/// Returns the value of a column of these cells, or NULL past the last one.
pub fn cell_at(cells: &[Value], place: usize) -> View<'_>
    ensures { datum_of_view result ≡ cell (map datum_of_value cells.now) place }
{
    match cells.get(place) {
        Some(value) => value.view(),
        None => View::Null,
    }
}

impl Columns for Row {
    ghost use Rattle.std.specs.Prelude.{◌≡◌, [], length};

    ghost values = { λ r. r };

    ghost group = { λ r. [] };

    fn width(&self) -> usize
        ensures { result ≡ length self.now }
    {
        Row::width(self)
    }

    fn column(&self, place: usize) -> View<'_> {
        Row::column(self, place)
    }

    fn aggregate<'a>(&'a self, terms: &'a Terms, which: Aggregate) -> Result<View<'a>, Range> {
        over_no_rows(terms, which)
    }
}

/// The row without columns, on which the values of an INSERT are evaluated.
pub struct EmptyRow;

impl Columns for EmptyRow {
    ghost use Rattle.std.specs.Prelude.{◌≡◌, []};

    ghost values = { λ r. [] };

    ghost group = { λ r. [] };

    fn width(&self) -> usize
        ensures { result ≡ 0 }
    {
        0
    }

    fn column(&self, _place: usize) -> View<'_> {
        View::Null
    }

    fn aggregate<'a>(&'a self, terms: &'a Terms, which: Aggregate) -> Result<View<'a>, Range> {
        over_no_rows(terms, which)
    }
}
