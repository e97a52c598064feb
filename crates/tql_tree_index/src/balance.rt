//! Builds balanced trees from sides whose heights differ by at most two.
ghost use Rattle.std.specs.Prelude.{◌≡◌, ◌+◌, ◌<◌, ◌≤◌, max, ◌++◌, length};
ghost use Rattle.tql_index.specs.Line.{place_of};
ghost use Rattle.tql_index.specs.Tree.{greatest_end, DifferByAtMost, IsHeightAfterBalance, IsInOrder};
ghost use Rattle.tql_index.specs.Tree.{WasGreatest, WillBeGreatest};
ghost use Rattle.tql_tree_index.specs.Nodes.{entries_below};

use crate::tree::{Branch, Parts, Tree, hold, link};
use std::alloc::Allocator;
use std::mem;
use tql_index::line::Place;

// Builds a balanced tree from a branch whose sides were changed in place. Its greatest end must be up to date.
pub fn settle<A: Allocator>(mut top: Box<Branch<A>, A>) -> Tree<A>
    requires some { 0 < length top.value.run }
    requires in_order { IsInOrder (entries_below top.value) }
    requires near { DifferByAtMost 2 top.value.left.height top.value.right.height }
    requires room { max top.value.left.height top.value.right.height ≤ 200 }
    requires greatest { place_of top.value.greatest ≡ greatest_end (entries_below top.value) }
    ensures entries { result.entries ≡ entries_below top.value }
    ensures height { IsHeightAfterBalance top.value.left.height top.value.right.height result.height }
{
    let (left_height, right_height) = (top.left.height(), top.right.height());
    if left_height <= right_height + 1 && right_height <= left_height + 1 {
        return hold(top, left_height.max(right_height) + 1);
    }
    let left = mem::replace(&mut top.left, Tree::new());
    let right = mem::replace(&mut top.right, Tree::new());
    if left_height > right_height {
        lean_right(left, top, right)
    } else {
        lean_left(left, top, right)
    }
}

// As `settle`, after entries of which the last to end ends at `end` were added to a side or to the run, if `added`. The
// branch still has its old greatest end.
pub fn settle_more<A: Allocator>(mut top: Box<Branch<A>, A>, added: bool, end: Place) -> Tree<A>
    requires some { 0 < length top.value.run }
    requires in_order { IsInOrder (entries_below top.value) }
    requires near { DifferByAtMost 2 top.value.left.height top.value.right.height }
    requires room { max top.value.left.height top.value.right.height ≤ 200 }
    requires greatest { WillBeGreatest added (place_of end) (place_of top.value.greatest)
        (entries_below top.value) }
    ensures entries { result.entries ≡ entries_below top.value }
    ensures height { IsHeightAfterBalance top.value.left.height top.value.right.height result.height }
{
    if added {
        top.greatest = top.greatest.later(end);
    }
    settle(top)
}

// As `settle`, after an entry that ends at `end` was removed from a side or from the run, if `found`. The branch still
// has its old greatest end, which is recomputed only if the removed entry may have been the last to end.
pub fn settle_less<A: Allocator>(mut top: Box<Branch<A>, A>, found: bool, end: Place) -> Tree<A>
    requires some { 0 < length top.value.run }
    requires in_order { IsInOrder (entries_below top.value) }
    requires near { DifferByAtMost 2 top.value.left.height top.value.right.height }
    requires room { max top.value.left.height top.value.right.height ≤ 200 }
    requires greatest { WasGreatest found (place_of end) (place_of top.value.greatest)
        (entries_below top.value) }
    ensures entries { result.entries ≡ entries_below top.value }
    ensures height { IsHeightAfterBalance top.value.left.height top.value.right.height result.height }
{
    if found && !end.is_before(top.greatest) {
        top.greatest = top.greatest_end();
    }
    settle(top)
}

// Balances a left side that is two higher. The top of that side, or of its inner side, becomes the top.
// `settle` seldom calls it, and is to stay short.
#[inline(never)]
fn lean_right<A: Allocator>(left: Tree<A>, top: Box<Branch<A>, A>, right: Tree<A>) -> Tree<A>
    requires some { 0 < length top.value.run }
    requires in_order { IsInOrder (left.entries ++ (top.value.run ++ right.entries)) }
    requires two_higher { left.height ≡ right.height + 2 }
    requires room { left.height ≤ 200 }
    ensures entries { result.entries ≡ left.entries ++ (top.value.run ++ right.entries) }
    ensures not_lower { left.height ≤ result.height }
    ensures at_most_one_higher { result.height ≤ left.height + 1 }
{
    let Some(
        Parts {
            left: outer,
            top: side,
            right: inner,
        },
    ) = left.unlink()
    else {
        unreachable!()
    };
    if outer.height() >= inner.height() {
        return link(outer, side, link(inner, top, right));
    }
    let Some(
        Parts {
            left: low,
            top: middle,
            right: high,
        },
    ) = inner.unlink()
    else {
        unreachable!()
    };
    link(link(outer, side, low), middle, link(high, top, right))
}

// Balances a right side that is two higher. The top of that side, or of its inner side, becomes the top.
// `settle` seldom calls it, and is to stay short.
#[inline(never)]
fn lean_left<A: Allocator>(left: Tree<A>, top: Box<Branch<A>, A>, right: Tree<A>) -> Tree<A>
    requires some { 0 < length top.value.run }
    requires in_order { IsInOrder (left.entries ++ (top.value.run ++ right.entries)) }
    requires two_higher { right.height ≡ left.height + 2 }
    requires room { right.height ≤ 200 }
    ensures entries { result.entries ≡ left.entries ++ (top.value.run ++ right.entries) }
    ensures not_lower { right.height ≤ result.height }
    ensures at_most_one_higher { result.height ≤ right.height + 1 }
{
    let Some(
        Parts {
            left: inner,
            top: side,
            right: outer,
        },
    ) = right.unlink()
    else {
        unreachable!()
    };
    if outer.height() >= inner.height() {
        return link(link(left, top, inner), side, outer);
    }
    let Some(
        Parts {
            left: low,
            top: middle,
            right: high,
        },
    ) = inner.unlink()
    else {
        unreachable!()
    };
    link(link(left, top, low), middle, link(high, side, outer))
}
