//! Runs of entries in order, of which each branch of a tree keeps one. The model of a run is the list of its entries.
ghost use Rattle.std.specs.Prelude.{◌≡◌, ◌+◌, ◌+ℤ◌, ◌<◌, ◌≤◌, ◌==◌, true, pos, [], ◌∷◌, ◌++◌, length};
ghost use Rattle.std.specs.Prelude.{OnOk, OnErr, IfOk};
ghost use Rattle.std.specs.Bool.{OnTrue, OnFalse};
ghost use Rattle.std.specs.List.{insert};
ghost use Rattle.tql_spec.specs.Bag.{SameBag};
ghost use Rattle.tql_index.specs.Entry.{ids_at, ids_sharing, Removes};
ghost use Rattle.tql_index.specs.Line.{place_of};
ghost use Rattle.tql_index.specs.Slots.{entry_of, entries_in, HasEnds};
ghost use Rattle.tql_index.specs.Spans.{points_between};
ghost use Rattle.tql_index.specs.Tree.{greatest_end, IsInOrder, IsPlace, IsSide, StartsLate, WasGreatest};

use crate::line::Place;
use crate::slot::Slot;
use crate::slots::{ROOM, Slots};
use crate::span::Span;
use std::alloc::{AllocError, Allocator};
use std::cmp::Ordering;
use std::marker::Model;
use std::mem;
use tql_memory::Memory;

/// The number of entries of a run that is split before another is added. While it is split it has one more.
pub const FULL: usize = ROOM - 1;

/// The number of entries up to which a run that lost one is joined with another run.
pub const SPARSE: usize = 15;

/// The number of entries up to which two runs are joined. It is below that of a full run, so that additions and
/// removals of single entries do not split and join a run in turn.
pub const JOINED: usize = 30;

// Returns the greatest end of the entries, or the first place of the line if there are none.
fn last_end<A: Allocator>(slots: &Slots<A>) -> Place
    ensures { place_of result ≡ greatest_end slots.now }
{
    let mut end = Place::first();
    for place in 0..slots.len() {
        end = end.later(slots.at(place).span.end());
    }
    end
}

/// What a search reads of a run without a look at its entries.
#[derive(Clone, Copy)]
pub struct Ends {
    // The greatest end of the entries.
    greatest: Place,
    // Copies of the first and the last entry, if there are any.
    first: Slot,
    last: Slot,
}

// Returns this greatest end, and copies of the first and the last of the entries; of another one if there are none.
fn ends_of<A: Allocator>(slots: &Slots<A>, greatest: Place, other: Slot) -> Ends
    ensures greatest { result.greatest ≡ greatest }
    ensures ends { HasEnds slots.now (entry_of result.first) (entry_of result.last) }
{
    if slots.len() == 0 {
        return Ends {
            greatest,
            first: other,
            last: other,
        };
    }
    Ends {
        greatest,
        first: slots.at(0),
        last: slots.at(slots.len() - 1),
    }
}

#[derive(Drop)]
pub struct Run<A: Allocator> {
    slots: Slots<A>,
    // The entries are elsewhere in memory, so the way down a tree reads those of no run that it passes by.
    ends: Ends,
}

impl<A: Allocator> Model for Run<A> {
    ghost use Rattle.std.specs.Prelude.{List};
    ghost use Rattle.tql_index.specs.Entry.{Entry};
    ghost use Rattle.tql_index.specs.Line.{place_of};
    ghost use Rattle.tql_index.specs.Slots.{entry_of, HasEnds};
    ghost use Rattle.tql_index.specs.Tree.{IsRun};

    ghost Value = { List Entry };

    ghost view = { λ r. r.slots };

    ghost invariant = { λ r. IsRun r.slots (place_of r.ends.greatest)
        × HasEnds r.slots (entry_of r.ends.first) (entry_of r.ends.last) };
}

impl<A: Allocator> Run<A> {
    /// Creates a run without entries, which takes no memory.
    pub fn new(memory: A) -> Run<A>
        ensures { result ≡ [] }
    {
        let none = Slot {
            span: Span::all(0),
            id: 0,
        };
        Run {
            slots: Slots::new(memory),
            ends: Ends {
                greatest: Place::first(),
                first: none,
                last: none,
            },
        }
    }

    /// Returns the number of entries.
    pub fn len(&self) -> usize
        ensures count { result ≡ length self.now }
        ensures few { result ≤ 32 }
    {
        self.slots.len()
    }

    /// States what is known of each run. Does nothing.
    pub fn know(&self)
        ensures in_order { IsInOrder self.now }
        ensures few { length self.now ≤ 32 }
    {
        let _slots = &self.slots;
    }

    /// Returns the greatest end of the entries, or the first place of the line if there are none.
    pub fn end(&self) -> Place
        ensures { place_of result ≡ greatest_end self.now }
    {
        self.ends.greatest
    }

    /// Returns on which side of the run an entry lies, or `Equal` if it lies within.
    pub fn side(&self, slot: Slot) -> Ordering
        requires { 0 < length self.now }
        ensures { IsSide result (entry_of slot) self.now }
    {
        if slot.compare(self.ends.first).is_lt() {
            Ordering::Less
        } else if self.ends.last.compare(slot).is_lt() {
            Ordering::Greater
        } else {
            Ordering::Equal
        }
    }

    /// Removes one entry that equals another one, if there is one. Returns whether there was.
    pub fn remove(&mut self, slot: Slot) -> bool
        ensures { Removes result (entry_of slot) self.old self.new }
    {
        let place = self.slots.place_in(slot);
        if place == self.slots.len() || !self.slots.at(place).compare(slot).is_eq() {
            return false;
        }
        self.slots.remove(place);
        self.ends = ends_of(&self.slots, last_end(&self.slots), slot);
        true
    }

    /// Moves the entries of the next run to the end of this one, if this one is empty or both have few entries
    /// together. Returns whether it did. Allocates nothing, since a run that is not empty has room for a full one.
    pub fn join(&mut self, next: &mut Run<A>) -> bool
        requires { IsInOrder (self.old ++ next.old) }
        ensures joined { OnTrue result (self.new ≡ self.old ++ next.old) }
        ensures unchanged { OnFalse result ((self.new ≡ self.old) × (next.new ≡ next.old) × (0 < length self.old)) }
    {
        if self.slots.len() == 0 {
            mem::swap(self, next);
            return true;
        }
        let together = self.slots.len() + next.slots.len();
        if together > JOINED || !self.slots.append(&next.slots) {
            return false;
        }
        let greatest = self.ends.greatest.later(next.ends.greatest);
        self.ends = ends_of(&self.slots, greatest, self.ends.first);
        true
    }

    /// Appends the numbers of the entries that share a point with the line from one place up to another. Returns false
    /// if some entry starts at the second place or after it.
    pub fn find(
        &self,
        from: Place,
        to: Place,
        found: &mut Vec<usize, Memory>,
    ) -> Result<bool, AllocError>
        ensures found { OnOk result
            (found.new.items ≡ found.old.items ++ ids_sharing (points_between from to) self.now) }
        ensures late { IfOk result (λ on. OnFalse on (StartsLate (place_of to) self.now)) }
    {
        if !from.is_before(self.ends.greatest) {
            return Ok(true);
        }
        self.slots.find(from, to, found)
    }
}

impl<A: Allocator + Copy> Run<A> {
    /// Creates a run of one entry, with room for a full run.
    pub fn of(memory: A, slot: Slot) -> Result<Run<A>, AllocError>
        ensures { IfOk result (λ run. run ≡ entry_of slot ∷ []) }
    {
        let mut slots = Slots::new(memory);
        slots.insert(0, slot)?;
        Ok(Run {
            slots,
            ends: Ends {
                greatest: slot.span.end(),
                first: slot,
                last: slot,
            },
        })
    }

    /// Adds an entry.
    pub fn put(&mut self, slot: Slot) -> Result<(), AllocError>
        requires { length self.old < 32 }
        ensures added { OnOk result (SameBag self.new (entry_of slot ∷ self.old)) }
        ensures unchanged { OnErr result (self.new ≡ self.old) }
    {
        let place = self.slots.place_in(slot);
        self.slots.insert(place, slot)?;
        let greatest = self.ends.greatest.later(slot.span.end());
        self.ends = ends_of(&self.slots, greatest, slot);
        Ok(())
    }

    /// Adds an entry, and moves the upper half of the entries to another run, which is empty.
    pub fn put_halved(&mut self, slot: Slot, upper: &mut Run<A>) -> Result<(), AllocError>
        requires some { 0 < length self.old }
        requires empty { upper.old ≡ [] }
        ensures added { OnOk result (SameBag (self.new ++ upper.new) (entry_of slot ∷ self.old)) }
        ensures in_order { OnOk result (IsInOrder (self.new ++ upper.new)) }
        ensures halves { OnOk result ((0 < length self.new) × (0 < length upper.new)) }
        ensures unchanged { OnErr result (self.new ≡ self.old) }
    {
        let place = self.slots.place_in(slot);
        self.slots.insert(place, slot)?;
        match self.slots.halve() {
            Ok(half) => upper.slots = half,
            Err(refused) => {
                self.slots.remove(place);
                return Err(refused);
            }
        }
        self.ends = ends_of(&self.slots, last_end(&self.slots), slot);
        upper.ends = ends_of(&upper.slots, last_end(&upper.slots), slot);
        Ok(())
    }
}
