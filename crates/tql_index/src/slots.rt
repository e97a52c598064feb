//! The entries of a run in memory, in one of two forms. The model is the list of the entries.
//!
//! An index on values alone files each row under the whole group of its values. Of such an entry only the group and the
//! number are kept, in 16 bytes. When an entry with another span is inserted, the list changes to entries with their
//! spans, in 32 bytes each, and remains so.
ghost use Rattle.std.specs.Prelude.{◌≡◌, ◌≢◌, ◌<◌, ◌≤◌, ◌/◌, [], ◌++◌, length, slice_index_or};
ghost use Rattle.std.specs.Prelude.{OnOk, OnErr, IfOk, IfSome, IfNone};
ghost use Rattle.std.specs.Bool.{OnTrue, OnFalse};
ghost use Rattle.std.specs.List.{insert, remove};
ghost use Rattle.tql_index.specs.Entry.{ids_sharing};
ghost use Rattle.tql_index.specs.Line.{place_of};
ghost use Rattle.tql_index.specs.Slots.{entry_of, entry_of_group, entries_in, entries_of_groups};
ghost use Rattle.tql_index.specs.Spans.{all_of_group, points_between, span_of};
ghost use Rattle.tql_index.specs.Tree.{IsInOrder, IsPlace, StartsLate};

use crate::index::push_if;
use crate::line::Place;
use crate::slot::Slot;
use crate::span::Span;
use std::alloc::{AllocError, Allocator};
use std::marker::Model;
use tql_memory::Memory;

// The number of entries for which a list gets room at once: those of a full run, and one that is added to it.
pub const ROOM: usize = 32;

// The whole of a group as a span, and its number.
#[derive(Clone, Copy)]
pub struct GroupSlot {
    group: i64,
    id: usize,
}

impl GroupSlot {
    // Returns the entry with its span.
    fn slot(self) -> Slot
        ensures { entry_of result ≡ entry_of_group self }
    {
        Slot {
            span: Span::all(self.group),
            id: self.id,
        }
    }
}

// Returns the entry without its span if that is the whole of a group.
fn group_slot(slot: Slot) -> Option<GroupSlot>
    ensures whole { IfSome result (λ s. entry_of_group s ≡ entry_of slot) }
    ensures part { IfNone result (span_of slot.span ≢ all_of_group slot.span.group) }
{
    let Span { group, period } = slot.span;
    if period.start == i64::MIN && period.end == i64::MAX {
        Some(GroupSlot { group, id: slot.id })
    } else {
        None
    }
}

// Moves the upper half of a list to a new list, which has room for a full run.
fn upper_half<T: Copy, A: Allocator + Copy>(list: &mut Vec<T, A>) -> Result<Vec<T, A>, AllocError>
    ensures halved { IfOk result (λ upper. list.old.items ≡ list.new.items ++ upper.items) }
    ensures lower { OnOk result (length list.new.items ≡ length list.old.items / 2) }
    ensures unchanged { OnErr result (list.new.items ≡ list.old.items) }
{
    let half = list.len() / 2;
    let mut upper = Vec::with_capacity(*list.allocator(), ROOM)?;
    upper.extend_from_slice(&list[half..])?;
    list.truncate(half);
    Ok(upper)
}

// Appends the numbers of the entries that share a point with the line from one place up to another. Returns false if
// some entry starts at the second place or after it.
fn find_in_groups(
    groups: &[GroupSlot],
    from: Place,
    to: Place,
    found: &mut Vec<usize, Memory>,
) -> Result<bool, AllocError>
    requires { IsInOrder (entries_of_groups groups.now) }
    ensures found { OnOk result (found.new.items
        ≡ found.old.items ++ ids_sharing (points_between from to) (entries_of_groups groups.now)) }
    ensures late { IfOk result (λ on. OnFalse on (StartsLate (place_of to) (entries_of_groups groups.now))) }
{
    for slot in groups {
        let whole = slot.slot();
        if !whole.span.start().is_before(to) {
            return Ok(false);
        }
        push_if(found, whole.span.shares(from, to), whole.id)?;
    }
    Ok(true)
}

// As `find_in_groups`, in entries with their spans.
fn find_in_spans(
    spans: &[Slot],
    from: Place,
    to: Place,
    found: &mut Vec<usize, Memory>,
) -> Result<bool, AllocError>
    requires { IsInOrder (entries_in spans.now) }
    ensures found { OnOk result (found.new.items
        ≡ found.old.items ++ ids_sharing (points_between from to) (entries_in spans.now)) }
    ensures late { IfOk result (λ on. OnFalse on (StartsLate (place_of to) (entries_in spans.now))) }
{
    for slot in spans {
        if !slot.span.start().is_before(to) {
            return Ok(false);
        }
        push_if(found, slot.span.shares(from, to), slot.id)?;
    }
    Ok(true)
}

#[derive(Drop)]
pub enum Kept<A: Allocator> {
    Groups(Vec<GroupSlot, A>),
    Spans(Vec<Slot, A>),
}

#[derive(Drop)]
pub struct Slots<A: Allocator> {
    kept: Kept<A>,
}

impl<A: Allocator> Model for Slots<A> {
    ghost use Rattle.std.specs.Prelude.{List};
    ghost use Rattle.tql_index.specs.Entry.{Entry};
    ghost use Rattle.tql_index.specs.Slots.{entries_kept};

    ghost Value = { List Entry };

    ghost view = { λ s. entries_kept s.kept };
}

impl<A: Allocator> Slots<A> {
    // Creates a list without entries, which takes no memory.
    pub fn new(memory: A) -> Slots<A>
        ensures { result ≡ [] }
    {
        Slots {
            kept: Kept::Groups(Vec::new(memory)),
        }
    }

    // Returns the number of entries.
    pub fn len(&self) -> usize
        ensures { result ≡ length self.now }
    {
        match &self.kept {
            Kept::Groups(groups) => groups.len(),
            Kept::Spans(spans) => spans.len(),
        }
    }

    // Returns the entry at a place.
    pub fn at(&self, place: usize) -> Slot
        requires { place < length self.now }
        ensures { (d : _) → entry_of result ≡ slice_index_or self.now place d }
    {
        match &self.kept {
            Kept::Groups(groups) => groups[place].slot(),
            Kept::Spans(spans) => spans[place],
        }
    }

    // Returns the number of entries that are before another one.
    pub fn place_in(&self, slot: Slot) -> usize
        requires { IsInOrder self.now }
        ensures { IsPlace (entry_of slot) self.now result }
    {
        match &self.kept {
            Kept::Groups(groups) => {
                groups.partition_point(|each| each.slot().compare(slot).is_lt())
            }
            Kept::Spans(spans) => spans.partition_point(|each| each.compare(slot).is_lt()),
        }
    }

    // Removes the entry at a place.
    pub fn remove(&mut self, place: usize)
        requires { place < length self.old }
        ensures { self.new ≡ remove self.old place }
    {
        match &mut self.kept {
            Kept::Groups(groups) => {
                groups.remove(place);
            }
            Kept::Spans(spans) => {
                spans.remove(place);
            }
        }
    }

    // Appends the entries of another list if that has the same form and there is room for them. Returns whether it did.
    // Allocates nothing.
    pub fn append(&mut self, next: &Slots<A>) -> bool
        ensures appended { OnTrue result (self.new ≡ self.old ++ next.now) }
        ensures unchanged { OnFalse result (self.new ≡ self.old) }
    {
        match (&mut self.kept, &next.kept) {
            (Kept::Groups(groups), Kept::Groups(more)) => {
                more.len() <= groups.capacity() - groups.len()
                    && groups.extend_from_slice(more).is_ok()
            }
            (Kept::Spans(spans), Kept::Spans(more)) => {
                more.len() <= spans.capacity() - spans.len()
                    && spans.extend_from_slice(more).is_ok()
            }
            _ => false,
        }
    }

    // Appends the numbers of the entries that share a point with the line from one place up to another. Returns false
    // if some entry starts at the second place or after it.
    pub fn find(
        &self,
        from: Place,
        to: Place,
        found: &mut Vec<usize, Memory>,
    ) -> Result<bool, AllocError>
        requires { IsInOrder self.now }
        ensures found { OnOk result
            (found.new.items ≡ found.old.items ++ ids_sharing (points_between from to) self.now) }
        ensures late { IfOk result (λ on. OnFalse on (StartsLate (place_of to) self.now)) }
    {
        match &self.kept {
            Kept::Groups(groups) => find_in_groups(groups, from, to, found),
            Kept::Spans(spans) => find_in_spans(spans, from, to, found),
        }
    }
}

impl<A: Allocator + Copy> Slots<A> {
    // Returns the entries with their spans, in a list with room for a full run.
    fn with_spans(&self) -> Result<Vec<Slot, A>, AllocError>
        ensures { IfOk result (λ spans. entries_in spans.items ≡ self.now) }
    {
        let memory = match &self.kept {
            Kept::Groups(groups) => *groups.allocator(),
            Kept::Spans(spans) => *spans.allocator(),
        };
        let mut spans = Vec::with_capacity(memory, ROOM)?;
        for place in 0..self.len() {
            spans.push(self.at(place))?;
        }
        Ok(spans)
    }

    // Inserts an entry at a place. A list without entries gets room for a full run. If out of memory, nothing changes.
    pub fn insert(&mut self, place: usize, slot: Slot) -> Result<(), AllocError>
        requires { place ≤ length self.old }
        ensures inserted { OnOk result (self.new ≡ insert self.old place (entry_of slot)) }
        ensures unchanged { OnErr result (self.new ≡ self.old) }
    {
        match &mut self.kept {
            Kept::Groups(groups) => {
                if let Some(short) = group_slot(slot) {
                    groups.reserve(ROOM.saturating_sub(groups.len()))?;
                    groups.insert(place, short)?;
                    return Ok(());
                }
            }
            Kept::Spans(spans) => {
                spans.insert(place, slot)?;
                return Ok(());
            }
        }
        let mut spans = self.with_spans()?;
        spans.insert(place, slot)?;
        self.kept = Kept::Spans(spans);
        Ok(())
    }

    // Moves the upper half of the entries to a new list. If out of memory, nothing changes.
    pub fn halve(&mut self) -> Result<Slots<A>, AllocError>
        ensures halved { IfOk result (λ upper. self.old ≡ self.new ++ upper) }
        ensures lower { OnOk result (length self.new ≡ length self.old / 2) }
        ensures unchanged { OnErr result (self.new ≡ self.old) }
    {
        match &mut self.kept {
            Kept::Groups(groups) => Ok(Slots {
                kept: Kept::Groups(upper_half(groups)?),
            }),
            Kept::Spans(spans) => Ok(Slots {
                kept: Kept::Spans(upper_half(spans)?),
            }),
        }
    }
}
