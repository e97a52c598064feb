//! Searches a tree for the entries that share a point with a period.
ghost use Rattle.std.specs.Prelude.{◌≡◌, ◌++◌, OnOk};
ghost use Rattle.tql_index.specs.Entry.{ids_sharing};
ghost use Rattle.tql_index.specs.Spans.{points_between};

use crate::tree::Tree;
use std::alloc::{AllocError, Allocator};
use tql_index::line::Place;
use tql_memory::Memory;

// Appends the numbers of the entries that share a point with the line from one place up to another. Skips each
// subtree that ends too early, and each right side that starts too late.
pub fn overlapping<A: Allocator>(
    tree: &Tree<A>,
    from: Place,
    to: Place,
    found: &mut Vec<usize, Memory>,
) -> Result<(), AllocError>
    ensures { OnOk result
        (found.new.items ≡ found.old.items ++ ids_sharing (points_between from to) tree.now.entries) }
{
    let Some(top) = tree.top() else {
        return Ok(());
    };
    if !from.is_before(top.greatest) {
        return Ok(());
    }
    overlapping(&top.left, from, to, found)?;
    let goes_on = top.run.find(from, to, found)?;
    if !goes_on {
        return Ok(());
    }
    overlapping(&top.right, from, to, found)
}
