//! Removal of closed versions from the current ones.
ghost use Rattle.std.specs.Prelude.{◌≡◌, ◌≢◌, ◌≤◌, ◌<◌, ◌+◌, All, false, length, slice_index_or, Contains};
ghost use Rattle.std.specs.List.{swap_remove};
ghost use Rattle.tql_store_index.specs.Seating.{AreSwapped};
ghost use Rattle.tql_standing.specs.RowsStanding.{IsLess};
ghost use Rattle.tql_versions.specs.Changes.{is_current};
ghost use Rattle.tql_versions.specs.Views.{version_of, versions_of, open_at};

use tql_memory::Memory;
use tql_store_index::seats::Seats;
use tql_versions::kept::{Kept, is_open};

/// Removes and returns the version at a position; the last version moves there with its row slot.
pub fn drop_version(versions: &mut Vec<Kept, Memory>, seats: &mut Seats, place: usize) -> Kept
    requires { place < length versions.old.items }
    ensures value { result ≡ slice_index_or versions.old.items place result }
    ensures items { versions.new.items ≡ swap_remove versions.old.items place result }
    ensures shorter { length versions.new.items + 1 ≡ length versions.old.items }
    ensures others { (k : _) → k ≢ place → k + 1 < length versions.old.items → (d : Kept)
        → slice_index_or versions.new.items k d ≡ slice_index_or versions.old.items k d }
    ensures swapped { place < length seats.old.seats → length versions.new.items < length seats.old.seats
        → AreSwapped place (length versions.new.items) seats.old seats.new }
    ensures less { (n : _) → n ≤ place → is_current (version_of result) ≡ false
        → IsLess n (versions_of versions.old.items) (versions_of versions.new.items) seats.old seats.new }
{
    let last = versions.len() - 1;
    seats.swap(place, last);
    versions.swap_remove(place)
}

/// Removes versions from a position until an open one is there, or none.
fn clear_place(versions: &mut Vec<Kept, Memory>, seats: &mut Seats, place: usize)
    ensures clear { place < length versions.new.items → open_at versions.new.items place }
    ensures shorter { length versions.new.items ≤ length versions.old.items }
    ensures others { (k : _) → k ≢ place → k < length versions.new.items → (d : _)
        → slice_index_or versions.new.items k d ≡ slice_index_or versions.old.items k d }
    ensures less { (n : _) → n ≤ place
        → IsLess n (versions_of versions.old.items) (versions_of versions.new.items) seats.old seats.new }
{
    while place < versions.len() && !is_open(&versions[place]) {
        drop_version(versions, seats, place);
    }
}

/// Removes the closed versions at these positions.
pub fn sweep(versions: &mut Vec<Kept, Memory>, seats: &mut Seats, places: &[usize])
    ensures shorter { length versions.new.items ≤ length versions.old.items }
    ensures left { (k : _) → k < length versions.new.items → (Contains places.now k → open_at versions.new.items k)
        × (open_at versions.old.items k → open_at versions.new.items k) }
    ensures less { (n : _) → All (λ k. n ≤ k) places.now
        → IsLess n (versions_of versions.old.items) (versions_of versions.new.items) seats.old seats.new }
{
    for place in places {
        clear_place(versions, seats, *place);
    }
}
