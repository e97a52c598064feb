//! Cells of an answer.
ghost use Rattle.std.specs.Prelude.{◌≡◌};
ghost use Rattle.tql_value.specs.Views.{datum_of_view, plain_kind, row_of};
ghost use Rattle.tql_host_cells.specs.Texts.{copied};
ghost use Rattle.tql_host_cells.specs.Cells.{cell, number_of_kind, text_in, told_cell};

use crate::requests::Told;
use crate::texts::put;
use tql_value::value::{Kind, Value, View};

/// Returns the number of a kind of values. NULL has 0.
pub fn kind_number(kind: Kind) -> u8
    ensures { result ≡ number_of_kind (plain_kind kind) }
{
    match kind {
        Kind::Int => 1,
        Kind::Text => 2,
        Kind::Day => 3,
        Kind::Moment => 4,
    }
}

/// Tells a cell: its kind, its number, and for a text its bytes from `start` on.
pub fn told_cell(cell: View<'_>, start: u64, room: &mut [u8]) -> Told
    ensures told { result ≡ told_cell (datum_of_view cell.entry) }
    ensures copied { room.new ≡ copied (text_in (datum_of_view cell.entry)) start room.old }
{
    let mut told = Told::nothing();
    match cell {
        View::Null => {}
        View::Int(number) => {
            told.kind = 1;
            told.number = number;
        }
        View::Text(text) => {
            told.kind = 2;
            told.length = put(text.as_bytes(), start, room);
        }
        View::Day(number) => {
            told.kind = 3;
            told.number = number;
        }
        View::Moment(number) => {
            told.kind = 4;
            told.number = number;
        }
    }
    told
}

/// Returns a cell of a row. One that is not there is NULL.
pub fn cell_of(row: &[Value], column: usize) -> View<'_>
    ensures { datum_of_view result ≡ cell (row_of row.now) column }
{
    match row.get(column) {
        Some(value) => value.view(),
        None => View::Null,
    }
}
