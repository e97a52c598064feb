//! The indexes of columns among those of GROUP BY. They are collected once for a query, so that a column that HAVING or
//! an item names is found at once in the key of each group.
ghost use Rattle.std.specs.Prelude.{◌≡◌, ℕ, IfOk, if◌then◌else◌, nat_eq, None, OnOk, slice_index_or, Some};
ghost use Rattle.tql_exec_group.specs.Places.{ArePlaces};

use std::alloc::AllocError;
use tql_memory::Memory;

/// Sets the index of a column in a table, which is widened to contain the column. The only error is a refused
/// allocation.
fn set_place(
    places: &mut Vec<Option<usize>, Memory>,
    column: usize,
    place: usize,
) -> Result<(), AllocError>
    ensures { OnOk result ((c : ℕ) → slice_index_or places.new.items c None
        ≡ (if nat_eq c column then Some place else slice_index_or places.old.items c None)) }
{
    while places.len() <= column {
        places.push(None)?;
    }
    places[column] = Some(place);
    Ok(())
}

/// Returns a table from each column to its first index among these columns. The only error is a refused allocation.
pub(crate) fn places_of(
    memory: Memory,
    columns: &[usize],
) -> Result<Vec<Option<usize>, Memory>, AllocError>
    ensures { IfOk result (λ v. ArePlaces columns.now v.items) }
{
    let mut places = Vec::new(memory);
    let mut place = columns.len();
    while 0 < place {
        place -= 1;
        set_place(&mut places, columns[place], place)?;
    }
    Ok(places)
}
