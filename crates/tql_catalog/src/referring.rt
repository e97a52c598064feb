//! Lists of the tables that have a reference to each table, kept up to date by CREATE and DROP.
//!
//! A list gives tables by their positions, in ascending order, since a table is created after those that it refers to.
//! CREATE reserves room in each list before it changes anything, so that adding the new position cannot fail. DROP
//! allocates no memory: it removes the position from each list and moves the later positions down by one.
ghost use Rattle.std.specs.Prelude.{◌≡◌, ◌<◌, ◌≤◌, All, OnOk, length, map};
ghost use Rattle.tql_catalog.specs.Referring.{closed_up, moved_down, noted, noted_if, HasRoom};
ghost use Rattle.tql_catalog.specs.Sought.{lists_of};
ghost use Rattle.tql_catalog.specs.Tables.{definitions_of};
ghost use Rattle.tql_spec.specs.Definition.{table_at};
ghost use Rattle.indexmap.specs.IndexMap.{values};

use crate::catalog::Tables;
use std::alloc::AllocError;
use tql_memory::Memory;

/// Reserves room for one more position in each list.
pub(crate) fn reserve_each(lists: &mut [Vec<usize, Memory>]) -> Result<(), AllocError>
    ensures lists { lists_of lists.new ≡ lists_of lists.old }
    ensures room { OnOk result (All HasRoom lists.new) }
{
    for list in lists.iter_mut() {
        list.reserve(1)?;
    }
    Ok(())
}

/// Adds a position to a list if its table refers to the table of the list.
fn note_if(is_referring: bool, place: usize, list: &mut Vec<usize, Memory>)
    requires { HasRoom list.old }
    ensures { list.new.items ≡ noted_if is_referring place list.old.items }
{
    if is_referring {
        list.push_reserved(place);
    }
}

/// Adds the position of a table to the list of each table that it refers to.
pub(crate) fn note(tables: &Tables, place: usize, lists: &mut [Vec<usize, Memory>])
    requires there { place < length (values tables.now) }
    requires count { length lists.old ≤ length (values tables.now) }
    requires room { All HasRoom lists.old }
    ensures { lists_of lists.new ≡ noted (table_at (definitions_of (values tables.now)) place) place
        (definitions_of (values tables.now)) (lists_of lists.old) }
{
    let definition = &tables[place].definition;
    for (parent, list) in lists.iter_mut().enumerate() {
        let is_referring = definition.is_referring_to(tables[parent].definition.name());
        note_if(is_referring, place, list);
    }
}

/// Returns the position of a table after the one at `gone` was dropped.
fn moved_down(place: usize, gone: usize) -> usize
    ensures { result ≡ moved_down gone place }
{
    if gone < place { place - 1 } else { place }
}

/// Moves each position after `gone` down by one.
fn move_down(places: &mut [usize], gone: usize)
    ensures { places.new ≡ map (moved_down gone) places.old }
{
    for place in places.iter_mut() {
        *place = moved_down(*place, gone);
    }
}

/// Removes the position of a dropped table from a list, and moves the later ones down by one.
fn close_up(list: &mut Vec<usize, Memory>, gone: usize)
    ensures { list.new.items ≡ closed_up gone list.old.items }
{
    list.retain(|place| *place != gone);
    move_down(list, gone);
}

/// Removes the position of a dropped table from each list, and moves the later ones down by one.
pub(crate) fn close_each(lists: &mut [Vec<usize, Memory>], gone: usize)
    ensures { lists_of lists.new ≡ map (closed_up gone) (lists_of lists.old) }
{
    for list in lists.iter_mut() {
        close_up(list, gone);
    }
}
