//! Inserts and removes entries in place. A branch is changed wherever one of its sides is.
ghost use Rattle.std.specs.Prelude.{◌≡◌, ◌+◌, ◌<◌, ◌≤◌, max, [], ◌∷◌, ◌++◌, length};
ghost use Rattle.std.specs.Prelude.{OnOk, OnErr};
ghost use Rattle.std.specs.Bool.{OnFalse};
ghost use Rattle.std.specs.declared.cmp.Ordering.TheVariants.{Equal};
ghost use Rattle.tql_spec.specs.Bag.{SameBag};
ghost use Rattle.tql_index.specs.Entry.{Removes};
ghost use Rattle.tql_index.specs.Line.{place_of};
ghost use Rattle.tql_index.specs.Slots.{entry_of};
ghost use Rattle.tql_index.specs.Tree.{DifferByAtMost, HasRoom, IsInOrder, WasGreatest};
ghost use Rattle.tql_tree_index.specs.Nodes.{entries_below};

use crate::balance::{settle, settle_less, settle_more};
use crate::tree::{Branch, Tree, hold, link};
use std::alloc::{AllocError, Allocator};
use std::cmp::Ordering;
use std::mem;
use tql_index::line::Place;
use tql_index::run::{FULL, JOINED, Run, SPARSE};
use tql_index::slot::Slot;

// Inserts a run before all entries. It comes as a branch with its memory, so nothing is allocated.
fn insert_least<A: Allocator>(tree: &mut Tree<A>, least: Box<Branch<A>, A>)
    requires some { 0 < length least.value.run }
    requires in_order { IsInOrder (least.value.run ++ tree.old.entries) }
    requires room { tree.old.height ≤ 199 }
    ensures entries { tree.new.entries ≡ least.value.run ++ tree.old.entries }
    ensures not_lower { tree.old.height ≤ tree.new.height }
    ensures at_most_one_higher { tree.new.height ≤ tree.old.height + 1 }
{
    let Some(mut top) = tree.take() else {
        *tree = link(Tree::new(), least, Tree::new());
        return;
    };
    let last = least.run.end();
    insert_least(&mut top.left, least);
    *tree = settle_more(top, true, last);
}

// Returns where an entry is to be inserted: into the left side, the branch's run or the right side. An entry outside
// the run goes into it if the side there is empty and the run has room. If the run is full, the entry begins a run of
// its own, which entries in ascending order then fill.
fn room_for<A: Allocator>(top: &Branch<A>, slot: Slot) -> Ordering
    requires some { 0 < length top.now.run }
    requires in_order { IsInOrder (entries_below top.now) }
    ensures { HasRoom result (entry_of slot) top.now.left.entries top.now.run top.now.right.entries }
{
    match top.run.side(slot) {
        Ordering::Less if top.left.is_empty() && top.run.len() < FULL => Ordering::Equal,
        Ordering::Greater if top.right.is_empty() && top.run.len() < FULL => Ordering::Equal,
        side => side,
    }
}

// Adds an entry to the run of a branch. If the run is full, its upper half moves into the right side. The branch keeps
// its greatest end.
fn put<A: Allocator + Copy>(top: &mut Branch<A>, slot: Slot, memory: A) -> Result<(), AllocError>
    requires some { 0 < length top.old.run }
    requires in_order { IsInOrder (entries_below top.old) }
    requires place { HasRoom Equal (entry_of slot) top.old.left.entries top.old.run top.old.right.entries }
    requires room { top.old.right.height ≤ 199 }
    ensures added { OnOk result (SameBag (entries_below top.new) (entry_of slot ∷ entries_below top.old)) }
    ensures unchanged { OnErr result (top.new ≡ top.old) }
    ensures some { 0 < length top.new.run }
    ensures in_order { IsInOrder (entries_below top.new) }
    ensures left { top.new.left ≡ top.old.left }
    ensures greatest { top.new.greatest ≡ top.old.greatest }
    ensures not_lower { top.old.right.height ≤ top.new.right.height }
    ensures at_most_one_higher { top.new.right.height ≤ top.old.right.height + 1 }
{
    if top.run.len() < FULL {
        let answer = top.run.put(slot);
        top.run.know();
        return answer;
    }
    let mut upper = Branch::new(memory, Run::new(memory))?;
    top.run.put_halved(slot, &mut upper.run)?;
    insert_least(&mut top.right, upper);
    Ok(())
}

// Inserts an entry. If out of memory, the entries stay as they are.
pub fn insert<A: Allocator + Copy>(
    tree: &mut Tree<A>,
    slot: Slot,
    memory: A,
) -> Result<(), AllocError>
    requires room { tree.old.height ≤ 199 }
    ensures added { OnOk result (SameBag tree.new.entries (entry_of slot ∷ tree.old.entries)) }
    ensures unchanged { OnErr result (tree.new.entries ≡ tree.old.entries) }
    ensures not_lower { tree.old.height ≤ tree.new.height }
    ensures at_most_one_higher { tree.new.height ≤ tree.old.height + 1 }
{
    let Some(mut top) = tree.take() else {
        let run = Run::of(memory, slot)?;
        let first = Branch::new(memory, run)?;
        *tree = link(Tree::new(), first, Tree::new());
        return Ok(());
    };
    match room_for(&top, slot) {
        Ordering::Less => {
            let answer = insert(&mut top.left, slot, memory);
            top.left.know();
            *tree = settle_more(top, answer.is_ok(), slot.span.end());
            answer
        }
        Ordering::Equal => {
            let answer = put(&mut top, slot, memory);
            *tree = settle_more(top, answer.is_ok(), slot.span.end());
            answer
        }
        Ordering::Greater => {
            let answer = insert(&mut top.right, slot, memory);
            top.right.know();
            *tree = settle_more(top, answer.is_ok(), slot.span.end());
            answer
        }
    }
}

// Whether a run is to take in the entries of the first run of a tree: it is empty, or both have few entries together.
fn takes_first<A: Allocator>(run: &Run<A>, tree: &Tree<A>) -> bool
    ensures { OnFalse result (0 < length run.now) }
{
    let Some(top) = tree.top() else {
        return run.len() == 0;
    };
    if !top.left.is_empty() {
        return takes_first(run, &top.left);
    }
    run.len() == 0 || run.len() + top.run.len() <= JOINED
}

// Moves the entries of the first run of a tree to the end of another run, if that is empty or has room for them. The
// branch of the first run is then freed, and nothing is allocated. `refill` seldom calls it, and is to stay short.
#[inline(never)]
fn move_first<A: Allocator>(run: &mut Run<A>, tree: &mut Tree<A>)
    requires in_order { IsInOrder (run.old ++ tree.old.entries) }
    requires room { tree.old.height ≤ 199 }
    ensures entries { run.new ++ tree.new.entries ≡ run.old ++ tree.old.entries }
    ensures some { 0 < length run.old → 0 < length run.new }
    ensures none { length run.new ≡ 0 → tree.old ≡ record { entries = []; height = 0 } }
    ensures not_higher { tree.new.height ≤ tree.old.height }
    ensures at_most_one_lower { tree.old.height ≤ tree.new.height + 1 }
{
    let Some(mut top) = tree.take() else {
        return;
    };
    if top.left.is_empty() {
        if run.join(&mut top.run) {
            *tree = mem::replace(&mut top.right, Tree::new());
        } else {
            *tree = settle(top);
        }
        return;
    }
    move_first(run, &mut top.left);
    top.greatest = top.greatest_end();
    *tree = settle(top);
}

// Joins the run of a branch with the next run or the one before it, if it is sparse and both have few entries together.
// The next one is the first run of the right side. The one before is tried only if it is all of the left side. The
// branch of the other run is freed, and nothing is allocated. After that the run is empty only if all others are to its
// left.
fn refill<A: Allocator>(top: &mut Branch<A>)
    requires in_order { IsInOrder (entries_below top.old) }
    requires room { max top.old.left.height top.old.right.height ≤ 199 }
    ensures entries { entries_below top.new ≡ entries_below top.old }
    ensures greatest { top.new.greatest ≡ top.old.greatest }
    ensures empty { length top.new.run ≡ 0 →
        (top.new.left ≡ top.old.left) × (entries_below top.old ≡ top.old.left.entries) × (top.old.right.height ≡ 0) }
    ensures left_not_higher { top.new.left.height ≤ top.old.left.height }
    ensures left_at_most_one_lower { top.old.left.height ≤ top.new.left.height + 1 }
    ensures right_not_higher { top.new.right.height ≤ top.old.right.height }
    ensures right_at_most_one_lower { top.old.right.height ≤ top.new.right.height + 1 }
{
    if top.run.len() > SPARSE {
        return;
    }
    if takes_first(&top.run, &top.right) {
        move_first(&mut top.run, &mut top.right);
        return;
    }
    if top.left.height() != 1 {
        return;
    }
    let Some(mut last) = top.left.take() else {
        return;
    };
    last.left.know();
    last.right.know();
    if last.run.join(&mut top.run) {
        mem::swap(&mut last.run, &mut top.run);
    } else {
        top.left = hold(last, 1);
    }
}

// Returns the tree of a branch after an entry that ends at `end` was removed from its run, if `found`. The branch still
// has its old greatest end. A run that became sparse is joined with another, and a branch whose run is empty then is
// removed.
fn settle_run<A: Allocator>(mut top: Box<Branch<A>, A>, found: bool, end: Place) -> Tree<A>
    requires in_order { IsInOrder (entries_below top.value) }
    requires balanced { DifferByAtMost 1 top.value.left.height top.value.right.height }
    requires room { max top.value.left.height top.value.right.height ≤ 199 }
    requires greatest { WasGreatest found (place_of end) (place_of top.value.greatest)
        (entries_below top.value) }
    ensures entries { result.entries ≡ entries_below top.value }
    ensures not_lower { max top.value.left.height top.value.right.height ≤ result.height }
    ensures at_most_one_higher { result.height ≤ max top.value.left.height top.value.right.height + 1 }
{
    refill(&mut top);
    if top.run.len() == 0 {
        return mem::replace(&mut top.left, Tree::new());
    }
    settle_less(top, found, end)
}

// Removes one entry that equals another one, if there is one. Returns whether there was.
pub fn remove<A: Allocator>(tree: &mut Tree<A>, slot: Slot) -> bool
    requires room { tree.old.height ≤ 199 }
    ensures entries { Removes result (entry_of slot) tree.old.entries tree.new.entries }
    ensures not_higher { tree.new.height ≤ tree.old.height }
    ensures at_most_one_lower { tree.old.height ≤ tree.new.height + 1 }
{
    let Some(mut top) = tree.take() else {
        return false;
    };
    match top.run.side(slot) {
        Ordering::Less => {
            let found = remove(&mut top.left, slot);
            top.left.know();
            *tree = settle_less(top, found, slot.span.end());
            found
        }
        Ordering::Equal => {
            let found = top.run.remove(slot);
            top.run.know();
            *tree = settle_run(top, found, slot.span.end());
            found
        }
        Ordering::Greater => {
            let found = remove(&mut top.right, slot);
            top.right.know();
            *tree = settle_less(top, found, slot.span.end());
            found
        }
    }
}
