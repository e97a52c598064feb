//! The kinds of a query's columns.
ghost use Rattle.std.specs.Prelude.{◌≡◌};
ghost use Rattle.tql_host_cells.specs.Texts.{copied};
ghost use Rattle.tql_host.specs.Kinds.{kind_bytes, put_kinds, told_kinds};

use tql::{Kind, Memory, Refusal};
use tql_host_cells::cells::kind_number;
use tql_host_cells::requests::Told;
use tql_host_cells::texts::signed;

/// Writes the numbers of kinds, a byte each, as many as there is room for.
#[tactic(auto, using(crate::proofs::Filling::fills, crate::proofs::Filling::filled))]
fn put_numbers(kinds: &[Kind], room: &mut [u8])
    ensures { room.new ≡ copied (kind_bytes kinds.now) 0 room.old }
{
    let count = kinds.len().min(room.len());
    for index in 0..count {
        room[index] = kind_number(kinds[index]);
    }
}

/// Tells the kinds of a query's columns, and writes them into the room. The number counts them, and is -1 for a text
/// that is no query; or the code is the number of its refusal.
pub(crate) fn put_kinds(kinds: &Result<Option<Vec<Kind, Memory>>, Refusal>, room: &mut [u8]) -> Told
    ensures told { result ≡ told_kinds kinds.now }
    ensures put { room.new ≡ put_kinds kinds.now room.old }
{
    let mut told = Told::nothing();
    match kinds {
        Ok(Some(kinds)) => {
            told.kind = 1;
            told.number = signed(kinds.len() as u64);
            put_numbers(kinds.as_slice(), room);
        }
        Ok(None) => {
            told.kind = 1;
            told.number = -1;
        }
        Err(refusal) => {
            told.kind = 3;
            told.code = refusal.number();
        }
    }
    told
}
