//! An index that is a balanced tree.
ghost use Rattle.std.specs.Prelude.{◌≡◌, ◌↔◌, ◌*◌, ◌^◌, ◌<◌, ◌≤◌, [], length, IsTrue, IfOk};
ghost use Rattle.tql_spec.specs.Bag.{SameBag};
ghost use Rattle.tql_index.specs.Entry.{ids_sharing};
ghost use Rattle.tql_index.specs.Spans.{points_between};
ghost use Rattle.tql_index.specs.Tree.{IsShallow};

use crate::edit::{insert, remove};
use crate::search::overlapping;
use crate::tree::Tree;
use std::alloc::AllocError;
use std::marker::Model;
use tql_index::index::{Id, IntervalIndex};
use tql_index::line::Place;
use tql_index::slot::Slot;
use tql_index::span::Span;
use tql_memory::{Memory, one_more};
use tql_period::period::Period;

/// An index whose search skips each part of the tree that ends too early or starts too late.
///
/// The tree is ordered by the starts of the entries, and each branch knows the greatest end below it. The model of the
/// index is the list of its entries.
pub struct TreeIndex {
    memory: Memory,
    tree: Tree<Memory>,
    count: usize,
}

impl Drop for TreeIndex {
    fn drop(self) {
        let TreeIndex {
            memory: _,
            tree,
            count: _,
        } = self;
        drop(tree);
    }
}

impl Model for TreeIndex {
    ghost use Rattle.std.specs.Prelude.{◌≡◌, List, length};
    ghost use Rattle.tql_index.specs.Entry.{Entry};

    ghost Value = { List Entry };

    ghost view = { λ t. t.tree.entries };

    ghost invariant = { λ t. t.count ≡ length t.tree.entries };
}

impl TreeIndex {
    /// Returns the number of entries.
    pub fn len(&self) -> usize
        ensures { result ≡ length self.now }
    {
        self.count
    }

    /// Whether there are no entries.
    pub fn is_empty(&self) -> bool
        ensures { IsTrue result ↔ (self.now ≡ []) }
    {
        self.len() == 0
    }

    /// Returns the number of branches on the longest path down. It is at most twice the number of binary digits of the
    /// number of entries, and 0 if there are none.
    pub fn depth(&self) -> usize
        ensures shallow { IsShallow result (length self.now) }

        // A tree with fewer levels has no room for these entries.
        ensures deep { length self.now < 32 * 2 ^ result }
    {
        self.tree.know();
        usize::from(self.tree.height())
    }

    // Returns the numbers of the entries that share a point with the line from one place up to another.
    fn between(&self, from: Place, to: Place) -> Result<Vec<Id, Memory>, AllocError>
        ensures { IfOk result (λ ids. SameBag ids.items (ids_sharing (points_between from to) self.now)) }
    {
        let mut found = Vec::new(self.memory);
        overlapping(&self.tree, from, to, &mut found)?;
        Ok(found)
    }
}

impl IntervalIndex for TreeIndex {
    ghost entries = { λ t. t };

    fn new(memory: Memory) -> Self {
        TreeIndex {
            memory,
            tree: Tree::new(),
            count: 0,
        }
    }

    fn add(&mut self, period: Period, id: Id) -> Result<(), AllocError> {
        self.add_span(Span::of(period), id)
    }

    fn remove(&mut self, period: Period, id: Id) -> bool {
        self.remove_span(Span::of(period), id)
    }

    fn stab(&self, point: i64) -> Result<Vec<Id, Memory>, AllocError> {
        self.between(Place { group: 0, point }, Place::after(point))
    }

    fn overlapping(&self, period: Period) -> Result<Vec<Id, Memory>, AllocError> {
        self.sharing(Span::of(period))
    }

    fn add_span(&mut self, span: Span, id: Id) -> Result<(), AllocError> {
        let TreeIndex {
            memory,
            tree,
            count,
        } = self;
        let counted = one_more(*count)?;
        tree.know();
        insert(tree, Slot { span, id }, *memory)?;
        *count = counted;
        Ok(())
    }

    fn remove_span(&mut self, span: Span, id: Id) -> bool {
        let TreeIndex { tree, count, .. } = self;
        if *count == 0 {
            return false;
        }
        tree.know();
        let found = remove(tree, Slot { span, id });
        if found {
            *count -= 1;
        }
        found
    }

    fn sharing(&self, span: Span) -> Result<Vec<Id, Memory>, AllocError> {
        self.between(span.start(), span.end())
    }

    fn in_groups(&self, low: i64, high: i64) -> Result<Vec<Id, Memory>, AllocError> {
        self.between(Span::all(low).start(), Span::all(high).end())
    }
}
