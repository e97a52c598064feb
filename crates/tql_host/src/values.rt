//! Statements with values, which follow the text of the statement.
ghost use Rattle.std.specs.Prelude.{◌≡◌, drop, take};
ghost use Rattle.tql_places.specs.Passed.{FillsPassed, values_passed};
ghost use Rattle.tql_host.specs.Values.{told_places};

use tql::Memory;
use tql_host_cells::requests::{Request, Told};
use tql_host_cells::texts::signed;
use tql_places::passed::fill_passed;
use tql_places::places::{Unfilled, places};

/// Returns the first bytes, and the others.
fn parted(text: &[u8], start: u64) -> (&[u8], &[u8])
    ensures front { result.0.now ≡ take start text.now }
    ensures behind { result.1.now ≡ drop start text.now }
{
    if start < text.len() as u64 {
        text.split_at(start as usize)
    } else {
        text.split_at(text.len())
    }
}

/// Returns the text of a statement with the literals of the values that follow it.
pub(crate) fn filled_text(
    memory: Memory,
    request: Request,
    text: &[u8],
) -> Result<Vec<u8, Memory>, Unfilled>
    ensures { FillsPassed (take request.start text.now) (values_passed request.count (drop request.start text.now))
        result }
{
    let (statement, values) = parted(text, request.start);
    fill_passed(memory, statement, request.count, values)
}

/// Tells the number of places for values in a statement.
pub(crate) fn tell_places(text: &[u8]) -> Told
    ensures { result ≡ told_places text.now }
{
    let mut told = Told::nothing();
    told.kind = 1;
    told.number = signed(places(text) as u64);
    told
}
