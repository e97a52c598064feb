//! Versions in a heap by their ends: the one that ends first is at position 0.
ghost use Rattle.std.specs.Prelude.{◌≡◌, ◌<◌, ◌≤◌, ◌≤ℤ◌, ◌⊎◌, IfSome, IfNone, length};
ghost use Rattle.tql_versions.specs.Heap.{EndsFirst, IsChild, IsFirstChild, IsSooner, end_at};
ghost use Rattle.tql_versions.specs.Views.{versions_of};

use crate::kept::Kept;

/// Returns the one of two positions whose version ends first.
fn sooner_of(versions: &[Kept], a: usize, b: usize) -> usize
    requires a { a < length versions.now }
    requires b { b < length versions.now }
    ensures one { (result ≡ a) ⊎ (result ≡ b) }
    ensures first { (end_at (versions_of versions.now) result ≤ℤ end_at (versions_of versions.now) a)
        × (end_at (versions_of versions.now) result ≤ℤ end_at (versions_of versions.now) b) }
{
    if versions[b].end < versions[a].end {
        b
    } else {
        a
    }
}

/// Returns the child of a position that ends first, or `None` if the position has no child.
fn first_child(versions: &[Kept], place: usize) -> Option<usize>
    ensures some { IfSome result (IsFirstChild (versions_of versions.now) place) }
    ensures none { IfNone result ((c : _) → IsChild place c → length versions.now ≤ c) }
{
    let from = place.saturating_mul(8).saturating_add(1);
    if versions.len() <= from {
        return None;
    }
    let to = from.saturating_add(8).min(versions.len());
    let mut first = from;
    for child in from + 1..to {
        first = sooner_of(versions, first, child);
    }
    Some(first)
}

/// Returns the child of a position that ends first, if it ends before the version at the position.
pub fn sooner_child(versions: &[Kept], place: usize) -> Option<usize>
    ensures some { IfSome result (IsSooner (versions_of versions.now) place) }
    ensures none { IfNone result (EndsFirst (versions_of versions.now) place) }
{
    let Some(child) = first_child(versions, place) else {
        return None;
    };
    if versions[child].end < versions[place].end {
        Some(child)
    } else {
        None
    }
}
