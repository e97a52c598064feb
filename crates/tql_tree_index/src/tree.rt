//! A balanced tree of runs of entries. Its model is the entries in order and the height. Only `hold` puts a branch into
//! a tree. `take` takes it out to be changed in place, and `unlink` splits a tree into its parts.
//!
//! A branch keeps a run of 1 to 31 entries rather than one, so that a search follows fewer pointers and an entry takes
//! less memory. Where no entries were removed, most runs have 16 to 31. Runs that removals have left sparse are joined,
//! so where many were removed, a run has some 15 to 20. The entries of the left side, of the run and of the right side
//! follow each other in order.
ghost use Rattle.std.specs.Prelude.{◌≡◌, ◌+◌, ◌*◌, ◌^◌, ◌<◌, ◌≤◌, max, [], ◌++◌, length, IfOk, IfSome, IfNone};
ghost use Rattle.std.specs.Bool.{OnTrue, OnFalse};
ghost use Rattle.tql_index.specs.Line.{place_of};
ghost use Rattle.tql_index.specs.Tree.{greatest_end, DifferByAtMost, IsInOrder, IsShallow};
ghost use Rattle.tql_tree_index.specs.Nodes.{entries_below, IsParted, IsTop};

use std::alloc::{AllocError, Allocator};
use std::marker::Model;
use std::mem;
use tql_index::line::Place;
use tql_index::run::Run;

#[cycle(tree)]
#[derive(Drop)]
pub struct Tree<A: Allocator> {
    root: Root<A>,
}

#[cycle(tree)]
#[derive(Drop)]
pub enum Root<A: Allocator> {
    Empty,
    // The height is stored next to the box, so that it can be read without the branch.
    At { height: u8, top: Box<Branch<A>, A> },
}

// A run of entries, the entries to its left and to its right, and the greatest end of all of them.
#[cycle(tree)]
#[derive(Drop)]
pub struct Branch<A: Allocator> {
    pub left: Tree<A>,
    pub right: Tree<A>,
    pub greatest: Place,
    pub run: Run<A>,
}

// A tree that was split at its top.
#[derive(Drop)]
pub struct Parts<A: Allocator> {
    pub left: Tree<A>,
    pub top: Box<Branch<A>, A>,
    pub right: Tree<A>,
}

impl<A: Allocator> Model for Tree<A> {
    ghost use Rattle.std.specs.Prelude.{length};
    ghost use Rattle.tql_index.specs.Tree.{Contents};

    ghost Value = { Contents };

    ghost use Rattle.tql_tree_index.specs.Nodes.{contents_of, IsTree};

    ghost view = { λ t. contents_of t.root };

    ghost invariant = { λ t. IsTree t.root };

    ghost size = { λ c. length c.entries };

    ghost use Rattle.std.proofs.Common.{arith, length-append};

    ghost size_decreases = { λ t h. Prim.grind (arith, length-append) };
}

impl<A: Allocator> Branch<A> {
    // Creates a branch of a run, with empty sides.
    pub fn new(memory: A, run: Run<A>) -> Result<Box<Branch<A>, A>, AllocError>
        ensures { IfOk result (λ b. b.value.run ≡ run) }
    {
        let branch = Branch {
            left: Tree::new(),
            right: Tree::new(),
            greatest: run.end(),
            run,
        };
        Ok(Box::new(memory, branch)?)
    }

    // Computes the greatest end of the entries of the branch's run and of its sides.
    pub fn greatest_end(&self) -> Place
        ensures { place_of result ≡ greatest_end (entries_below self.now) }
    {
        self.left
            .greatest()
            .later(self.run.end())
            .later(self.right.greatest())
    }
}

impl<A: Allocator> Tree<A> {
    pub fn new() -> Tree<A>
        ensures { result ≡ record { entries = []; height = 0 } }
    {
        Tree { root: Root::Empty }
    }

    // Returns the number of branches on the longest path down.
    pub fn height(&self) -> u8
        ensures height { result ≡ self.now.height }
    {
        match &self.root {
            Root::Empty => 0,
            Root::At { height, .. } => *height,
        }
    }

    // Whether there are no entries.
    pub fn is_empty(&self) -> bool
        ensures none { OnTrue result (self.now ≡ record { entries = []; height = 0 }) }
        ensures some { OnFalse result (0 < self.now.height) }
    {
        match &self.root {
            Root::Empty => true,
            Root::At { .. } => false,
        }
    }

    // States what is known of each tree, as what the height says about the number of entries. Does nothing.
    pub fn know(&self)
        ensures shallow { IsShallow self.now.height (length self.now.entries) }
        ensures deep { length self.now.entries + 32 ≤ 32 * 2 ^ self.now.height }
        ensures in_order { IsInOrder self.now.entries }
    {
        let _root = &self.root;
    }

    // Returns the greatest end of the entries, or the first place of the line if there are none.
    pub fn greatest(&self) -> Place
        ensures { place_of result ≡ greatest_end self.now.entries }
    {
        match &self.root {
            Root::Empty => Place::first(),
            Root::At { top, .. } => top.greatest,
        }
    }

    // Returns the top branch, or `None` if there are no entries.
    pub fn top(&self) -> Option<&Branch<A>>
        ensures some { IfSome result (λ b. IsTop self.now b.now) }
        ensures none { IfNone result (self.now ≡ record { entries = []; height = 0 }) }
    {
        match &self.root {
            Root::Empty => None,
            Root::At { top, .. } => Some(top),
        }
    }

    // Takes out the top branch with its sides, and leaves an empty tree.
    pub fn take(&mut self) -> Option<Box<Branch<A>, A>>
        ensures some { IfSome result (λ b. IsTop self.old b.value) }
        ensures none { IfNone result (self.old ≡ record { entries = []; height = 0 }) }
        ensures left { self.new ≡ record { entries = []; height = 0 } }
    {
        match mem::replace(&mut self.root, Root::Empty) {
            Root::Empty => None,
            Root::At { top, .. } => Some(top),
        }
    }

    // Splits the tree at its top.
    pub fn unlink(self) -> Option<Parts<A>>
        ensures some { IfSome result (IsParted self) }
        ensures none { IfNone result (self ≡ record { entries = []; height = 0 }) }
    {
        match self.root {
            Root::Empty => None,
            Root::At { mut top, .. } => {
                let left = mem::replace(&mut top.left, Tree::new());
                let right = mem::replace(&mut top.right, Tree::new());
                Some(Parts { left, top, right })
            }
        }
    }
}

// Makes a tree of a branch with its sides. The branch's greatest end and the height must be right.
pub fn hold<A: Allocator>(top: Box<Branch<A>, A>, height: u8) -> Tree<A>
    requires some { 0 < length top.value.run }
    requires in_order { IsInOrder (entries_below top.value) }
    requires balanced { DifferByAtMost 1 top.value.left.height top.value.right.height }
    requires height { height ≡ max top.value.left.height top.value.right.height + 1 }
    requires greatest { place_of top.value.greatest ≡ greatest_end (entries_below top.value) }
    ensures { result ≡ record { entries = entries_below top.value; height = height } }
{
    top.left.know();
    top.run.know();
    top.right.know();
    Tree {
        root: Root::At { height, top },
    }
}

// Makes a tree of two sides and the run between them. The branch has the run and its memory.
pub fn link<A: Allocator>(left: Tree<A>, mut top: Box<Branch<A>, A>, right: Tree<A>) -> Tree<A>
    requires some { 0 < length top.value.run }
    requires in_order { IsInOrder (left.entries ++ (top.value.run ++ right.entries)) }
    requires balanced { DifferByAtMost 1 left.height right.height }
    requires room { max left.height right.height + 1 < 256 }
    ensures { result ≡ record {
      entries = left.entries ++ (top.value.run ++ right.entries);
      height = max left.height right.height + 1;
    } }
{
    let height = left.height().max(right.height()) + 1;
    top.left = left;
    top.right = right;
    top.greatest = top.greatest_end();
    hold(top, height)
}
