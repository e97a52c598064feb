//! An index that is a plain list.
ghost use Rattle.std.specs.Prelude.{◌≡◌, ◌↔◌, ◌<◌, [], length, map, slice_index_or, Contains, IsTrue, IfOk, IfSome};
ghost use Rattle.std.specs.Prelude.{IfNone};
ghost use Rattle.tql_spec.specs.Bag.{SameBag};
ghost use Rattle.tql_index.specs.Entry.{ids_sharing};
ghost use Rattle.tql_index.specs.Slots.{entry_of};
ghost use Rattle.tql_index.specs.Spans.{points_between};

use std::alloc::AllocError;
use std::marker::Model;
use tql_index::index::{Id, IntervalIndex, push_if};
use tql_index::line::Place;
use tql_index::slot::Slot;
use tql_index::span::Span;
use tql_memory::Memory;
use tql_period::period::Period;

// Returns the first position of an entry in the list, if it is there.
fn place_of(entries: &[Slot], wanted: Slot) -> Option<usize>
    ensures within { IfSome result (λ k. k < length entries.now) }
    ensures found { IfSome result (λ k. (d : _) →
        entry_of (slice_index_or entries.now k d) ≡ entry_of wanted) }
    ensures missing { IfNone result (¬ Contains (map entry_of entries.now) (entry_of wanted)) }
{
    for (place, entry) in entries.iter().enumerate() {
        if entry.compare(wanted).is_eq() {
            return Some(place);
        }
    }
    None
}

/// An index that is a plain list. A search looks at each entry. Its model is the list of entries.
#[derive(Drop)]
pub struct ListIndex {
    memory: Memory,
    held: Vec<Slot, Memory>,
}

impl Model for ListIndex {
    ghost use Rattle.std.specs.Prelude.{List, map};
    ghost use Rattle.tql_index.specs.Entry.{Entry};
    ghost use Rattle.tql_index.specs.Slots.{entry_of};

    ghost Value = { List Entry };

    ghost view = { λ l. map entry_of l.held.items };
}

impl ListIndex {
    /// Returns the number of entries.
    pub fn len(&self) -> usize
        ensures { result ≡ length self.now }
    {
        self.held.len()
    }

    /// Whether there are no entries.
    pub fn is_empty(&self) -> bool
        ensures { IsTrue result ↔ (self.now ≡ []) }
    {
        self.held.is_empty()
    }

    // Returns the numbers of the entries that share a point with the line from one place up to another.
    fn between(&self, from: Place, to: Place) -> Result<Vec<Id, Memory>, AllocError>
        ensures { IfOk result (λ ids. SameBag ids.items (ids_sharing (points_between from to) self.now)) }
    {
        let mut found = Vec::new(self.memory);
        for held in &self.held {
            push_if(&mut found, held.span.shares(from, to), held.id)?;
        }
        Ok(found)
    }
}

impl IntervalIndex for ListIndex {
    ghost entries = { λ l. l };

    fn new(memory: Memory) -> Self {
        ListIndex {
            memory,
            held: Vec::new(memory),
        }
    }

    fn add(&mut self, period: Period, id: Id) -> Result<(), AllocError> {
        self.add_span(Span::of(period), id)
    }

    fn remove(&mut self, period: Period, id: Id) -> bool {
        self.remove_span(Span::of(period), id)
    }

    fn stab(&self, point: i64) -> Result<Vec<Id, Memory>, AllocError> {
        self.between(Place { group: 0, point }, Place::after(point))
    }

    fn overlapping(&self, period: Period) -> Result<Vec<Id, Memory>, AllocError> {
        self.sharing(Span::of(period))
    }

    fn add_span(&mut self, span: Span, id: Id) -> Result<(), AllocError> {
        self.held.push(Slot { span, id })?;
        Ok(())
    }

    fn remove_span(&mut self, span: Span, id: Id) -> bool {
        let Some(place) = place_of(&self.held, Slot { span, id }) else {
            return false;
        };
        self.held.swap_remove(place);
        true
    }

    fn sharing(&self, span: Span) -> Result<Vec<Id, Memory>, AllocError> {
        self.between(span.start(), span.end())
    }

    fn in_groups(&self, low: i64, high: i64) -> Result<Vec<Id, Memory>, AllocError> {
        self.between(Span::all(low).start(), Span::all(high).end())
    }
}
