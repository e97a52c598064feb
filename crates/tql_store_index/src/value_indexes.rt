//! The indexes of a table, one for each index definition (`Basis`).
ghost use Rattle.std.specs.Prelude.{◌≡◌, ◌≢◌, ◌<◌, ◌≤◌, ◌+◌, ◌==◌, ◌++◌, [], ◌∷◌, All, OnOk, OnErr, IfOk, IfSome};
ghost use Rattle.std.specs.Prelude.{None, true, false, length, map, option_map, slice_set};
ghost use Rattle.tql_spec.specs.Bag.{SameBag};
ghost use Rattle.tql_period.specs.Points.{points_of};
ghost use Rattle.tql_store_index.specs.Basis.{ServesIf, With, WithIn, basis_of, filed, meets, meets_if, sought_of};
ghost use Rattle.tql_store_index.specs.Basis.{stands_by};
ghost use Rattle.tql_store_index.specs.Seating.{seat_at};
ghost use Rattle.tql_store_index.specs.Standing.{passes, seats_if, stands};
ghost use Rattle.tql_store_index.specs.ValueIndexes.{Each, IsGrown, IsTurned, IsLinked, DiffersIn, AreLoose};
ghost use Rattle.tql_store_index.specs.ValueIndexes.{HasPeriod, IsCleared, IsFoundBy, StandsAs, index_at};
ghost use Rattle.tql_value.specs.Views.{datum_of_view};

use crate::basis::{Basis, Sought};
use crate::seat_index::SeatIndex;
use crate::seats::Seats;
use crate::tuple::{placed_if, span_of_tuple};
use std::alloc::AllocError;
use std::marker::Model;
use tql_index::index::IntervalIndex;
use tql_index::span::Span;
use tql_memory::Memory;
use tql_period::period::Period;
use tql_row::row::Row;
use tql_value::value::View;

/// An index: its definition, and the period under which each row slot is indexed.
#[derive(Drop)]
pub struct ValueIndex<I: IntervalIndex> {
    basis: Basis,
    index: SeatIndex<I>,
}

impl<I: IntervalIndex> Model for ValueIndex<I> {
    ghost use Rattle.tql_store_index.specs.Basis.{basis_of};
    ghost use Rattle.tql_store_index.specs.ValueIndexes as spec;

    ghost Value = { spec.ValueIndex };

    ghost view = { λ k. record { basis = basis_of k.basis; standing = k.index } };
}

/// Removes the rows at positions `from..to` from the index. Allocates no memory.
fn unlink_each<I: IntervalIndex>(index: &mut SeatIndex<I>, seats: &Seats, from: usize, to: usize)
    requires rises { from ≤ to }
    requires room { to ≤ length seats.now.seats }
    ensures differs { DiffersIn from to seats.now index.old index.new }
    ensures gone { AreLoose from to seats.now index.new }
{
    for place in from..to {
        let seat = seats.seat(place);
        index.unlink(seat);
    }
}

impl<I: IntervalIndex> ValueIndex<I> {
    /// Makes room for at least `seats` row slots.
    fn grow(&mut self, seats: usize) -> Result<(), AllocError>
        ensures grown { IsGrown self.old self.new }
        ensures ok { OnOk result (seats ≤ length self.new.standing) }
    {
        self.index.grow(seats)
    }

    /// Enters a row under its row slot. If out of memory, nothing changes.
    fn enter(&mut self, seat: usize, row: &Row, during: Period) -> Result<(), AllocError>
        requires there { seat < length self.old.standing }
        requires loose { stands self.old.standing seat ≡ None }
        ensures ok { OnOk result (self.new ≡ record {
          basis = self.old.basis;
          standing = slice_set self.old.standing seat (stands_by self.old.basis
              (filed row.now (points_of during)));
        }) }
        ensures err { OnErr result (self.new ≡ self.old) }
    {
        let span = self.basis.span(row, during);
        self.index.link(seat, span)
    }

    /// Removes all rows and row slots from the index. Allocates no memory, and frees that of the index.
    fn clear(&mut self, memory: Memory)
        ensures { IsCleared self.old self.new }
    {
        self.index = SeatIndex::new(memory);
    }

    /// Whether a row slot has the period under which this row is entered.
    fn has(&self, seat: usize, row: &Row, during: Period) -> bool
        ensures { result ≡ true → stands self.now.standing seat
            ≡ stands_by self.now.basis (filed row.now (points_of during)) }
    {
        self.index.has(seat, self.basis.span(row, during))
    }

    /// Whether a row slot has a period.
    fn has_any(&self, seat: usize) -> bool
        ensures some { result ≡ true → stands self.now.standing seat ≢ None }
        ensures none { result ≡ false → stands self.now.standing seat ≡ None }
    {
        self.index.has_any(seat)
    }

    /// Removes the rows at positions `from..to` from the index. Allocates no memory.
    fn leave(&mut self, seats: &Seats, from: usize, to: usize)
        requires rises { from ≤ to }
        requires room { to ≤ length seats.now.seats }
        ensures turned { IsTurned from to seats.now self.old self.new }
        ensures gone { AreLoose from to seats.now self.new.standing }
    {
        unlink_each(&mut self.index, seats, from, to);
    }

    /// Returns the row slots of candidate rows for these values. An index on the period kept with each row uses
    /// `during`.
    fn seats_with(
        &self,
        columns: &[usize],
        tuple: &[View<'_>],
        during: Option<Period>,
    ) -> Result<Vec<usize, Memory>, AllocError>
        ensures { IfOk result (λ seats. SameBag seats.items (seats_if (passes
            (meets self.now.basis (With columns.now (map datum_of_view tuple.now)) (option_map points_of during)))
            0 self.now.standing)) }
    {
        let _columns = columns;
        match &self.basis {
            Basis::ValuesDuring(_) => self.index.sharing(span_of_tuple(tuple, during)),
            _ => self.index.sharing(span_of_tuple(tuple, None)),
        }
    }

    /// Returns the row slots of candidate rows for these values and the period between two columns. An index on the
    /// period kept with each row uses `during` instead of `period`.
    fn seats_within(
        &self,
        columns: &[usize],
        tuple: &[View<'_>],
        ends: (usize, usize),
        period: Period,
        during: Option<Period>,
    ) -> Result<Vec<usize, Memory>, AllocError>
        ensures { IfOk result (λ seats. SameBag seats.items (seats_if (passes
            (meets self.now.basis
            (WithIn columns.now (map datum_of_view tuple.now) ends.0 ends.1 (points_of period))
            (option_map points_of during))) 0 self.now.standing)) }
    {
        let _columns = columns;
        let _ends = ends;
        match &self.basis {
            Basis::ValuesDuring(_) => self.index.sharing(span_of_tuple(tuple, during)),
            _ => self.index.sharing(span_of_tuple(tuple, Some(period))),
        }
    }

    /// Returns the row slots of the candidate rows for a lookup: all rows that match within `during`, and possibly
    /// others.
    fn seats_of(
        &self,
        sought: Sought<'_>,
        during: Option<Period>,
    ) -> Result<Vec<usize, Memory>, AllocError>
        ensures { IfOk result (λ seats. SameBag seats.items (seats_if
            (passes (meets self.now.basis (sought_of sought.entry) (option_map points_of during)))
            0 self.now.standing)) }
    {
        match sought {
            Sought::With(columns, tuple) => self.seats_with(columns, tuple, during),
            Sought::WithIn(columns, tuple, start, end, period) => {
                self.seats_within(columns, tuple, (start, end), period, during)
            }
            Sought::Holding(_, _, point) => self.index.stab(point),
            Sought::Sharing(_, _, period) => self.index.sharing(Span::of(period)),
            Sought::Between(_, low, high) => self.index.in_groups(low, high),
        }
    }

    /// Returns the row slots of the candidate rows for a lookup. Without one, they are those of the rows whose kept
    /// period shares a point with `during`.
    fn candidates(
        &self,
        sought: Option<Sought<'_>>,
        during: Option<Period>,
    ) -> Result<Vec<usize, Memory>, AllocError>
        ensures { IfOk result (λ seats. SameBag seats.items (seats_if
            (passes (meets_if self.now.basis (option_map sought_of sought.entry) (option_map points_of during)))
            0 self.now.standing)) }
    {
        match sought {
            Some(sought) => self.seats_of(sought, during),
            None => self.index.sharing(placed_if(0, during)),
        }
    }

    /// Returns the positions of the candidate rows for a lookup, or for a period alone: all rows that match within
    /// `during`, and possibly others.
    fn find(
        &self,
        seats: &Seats,
        sought: Option<Sought<'_>>,
        during: Option<Period>,
    ) -> Result<Vec<usize, Memory>, AllocError>
        ensures { IfOk result (λ places. (what : _) → IsLinked what seats.now self.now.standing
            → SameBag places.items (seats_if
            (passes (meets_if self.now.basis (option_map sought_of sought.entry) (option_map points_of during)))
            0 what)) }
    {
        let mut found = self.candidates(sought, during)?;
        seats.place_each(&mut found);
        Ok(found)
    }
}

/// Empties each index.
fn clear_each<I: IntervalIndex>(indexes: &mut [ValueIndex<I>], memory: Memory)
    ensures { Each IsCleared indexes.old indexes.new }
{
    for i in 0..indexes.len() {
        indexes[i].clear(memory);
    }
}

/// Makes room for at least `seats` row slots in each index.
fn grow_each<I: IntervalIndex>(
    indexes: &mut [ValueIndex<I>],
    seats: usize,
) -> Result<(), AllocError>
    ensures each { Each IsGrown indexes.old indexes.new }
    ensures ok { OnOk result
        ((i : _) → i < length indexes.old → seats ≤ length (index_at indexes.new i).standing) }
{
    for i in 0..indexes.len() {
        indexes[i].grow(seats)?;
    }
    Ok(())
}

/// Enters the row at a position in each index. If out of memory, only some of the indexes contain it.
fn enter_each<I: IntervalIndex>(
    indexes: &mut [ValueIndex<I>],
    seats: &Seats,
    place: usize,
    row: &Row,
    during: Period,
) -> Result<(), AllocError>
    requires there { place < length seats.now.seats }
    requires wide { (i : _) → i < length indexes.old
        → length seats.now.seats ≤ length (index_at indexes.old i).standing }
    requires loose { (i : _) → i < length indexes.old
        → stands (index_at indexes.old i).standing (seat_at seats.now place) ≡ None }
    ensures each { Each (IsTurned place (place + 1) seats.now) indexes.old indexes.new }
    ensures came { OnOk result ((i : _) → i < length indexes.old
        → stands (index_at indexes.new i).standing (seat_at seats.now place)
        ≡ stands_by (index_at indexes.old i).basis (filed row.now (points_of during))) }
{
    let seat = seats.seat(place);
    for i in 0..indexes.len() {
        indexes[i].enter(seat, row, during)?;
    }
    Ok(())
}

/// Whether, in each index, a row slot has the period under which this row is entered.
fn all_have<I: IntervalIndex>(
    indexes: &[ValueIndex<I>],
    seat: usize,
    row: &Row,
    during: Period,
) -> bool
    ensures { result ≡ true → (i : _) → i < length indexes.now → stands (index_at indexes.now i).standing seat
        ≡ stands_by (index_at indexes.now i).basis (filed row.now (points_of during)) }
{
    for index in indexes {
        if !index.has(seat, row, during) {
            return false;
        }
    }
    true
}

/// Whether a row slot has a period in some index.
fn some_has<I: IntervalIndex>(indexes: &[ValueIndex<I>], seat: usize) -> bool
    ensures some { result ≡ true → HasPeriod seat indexes.now }
    ensures none { result ≡ false → (i : _) → i < length indexes.now
        → stands (index_at indexes.now i).standing seat ≡ None }
{
    for index in indexes {
        if index.has_any(seat) {
            return true;
        }
    }
    false
}

/// Removes the rows at positions `from..to` from each index. Allocates no memory.
fn leave_each<I: IntervalIndex>(
    indexes: &mut [ValueIndex<I>],
    seats: &Seats,
    from: usize,
    to: usize,
)
    requires rises { from ≤ to }
    requires room { to ≤ length seats.now.seats }
    ensures each { Each (IsTurned from to seats.now) indexes.old indexes.new }
    ensures gone { (i : _) → i < length indexes.old
        → AreLoose from to seats.now (index_at indexes.new i).standing }
{
    for i in 0..indexes.len() {
        indexes[i].leave(seats, from, to);
    }
}

/// The indexes of a table, one for each index definition.
#[derive(Drop)]
pub struct ValueIndexes<I: IntervalIndex> {
    indexes: Vec<ValueIndex<I>, Memory>,
}

impl<I: IntervalIndex> Model for ValueIndexes<I> {
    ghost use Rattle.std.specs.Prelude.{List};
    ghost use Rattle.tql_store_index.specs.ValueIndexes as spec;

    ghost Value = { List spec.ValueIndex };

    ghost view = { λ k. k.indexes.items };
}

impl<I: IntervalIndex> ValueIndexes<I> {
    /// Creates an empty list of indexes.
    pub fn new(memory: Memory) -> ValueIndexes<I>
        ensures { result ≡ [] }
    {
        ValueIndexes {
            indexes: Vec::new(memory),
        }
    }

    /// Whether there are no indexes.
    pub fn is_empty(&self) -> bool
        ensures { result ≡ (length self.now == 0) }
    {
        self.indexes.is_empty()
    }

    /// Adds an index without rows after the others. If out of memory, nothing changes.
    pub fn add(&mut self, memory: Memory, basis: Basis) -> Result<(), AllocError>
        ensures none { All (λ k. k.standing ≡ []) self.old → All (λ k. k.standing ≡ []) self.new }
        ensures ok { OnOk result
            (self.new ≡ self.old ++ record { basis = basis_of basis; standing = [] } ∷ []) }
        ensures err { OnErr result (self.new ≡ self.old) }
    {
        self.indexes.push(ValueIndex {
            basis,
            index: SeatIndex::new(memory),
        })?;
        Ok(())
    }

    /// Makes room for at least `seats` row slots in each index.
    pub fn grow(&mut self, seats: usize) -> Result<(), AllocError>
        ensures each { Each IsGrown self.old self.new }
        ensures ok { OnOk result ((i : _) → i < length self.old → seats ≤ length (index_at self.new i).standing) }
    {
        grow_each(&mut self.indexes, seats)
    }

    /// Enters the row at a position in each index. If out of memory, only some of the indexes contain it.
    pub fn enter(
        &mut self,
        seats: &Seats,
        place: usize,
        row: &Row,
        during: Period,
    ) -> Result<(), AllocError>
        requires there { place < length seats.now.seats }
        requires wide { (i : _) → i < length self.old → length seats.now.seats ≤ length (index_at self.old i).standing }
        requires loose { (i : _) → i < length self.old
            → stands (index_at self.old i).standing (seat_at seats.now place) ≡ None }
        ensures each { Each (IsTurned place (place + 1) seats.now) self.old self.new }
        ensures came { OnOk result ((i : _) → i < length self.old
            → stands (index_at self.new i).standing (seat_at seats.now place)
            ≡ stands_by (index_at self.old i).basis (filed row.now (points_of during))) }
    {
        enter_each(&mut self.indexes, seats, place, row, during)
    }

    /// Removes all rows and row slots from each index. Allocates no memory, and frees that of the indexes.
    pub fn clear(&mut self, memory: Memory)
        ensures { Each IsCleared self.old self.new }
    {
        clear_each(&mut self.indexes, memory);
    }

    /// Whether there is a row slot at a position that has a period in some index.
    pub fn has_any(&self, seats: &Seats, place: usize) -> bool
        ensures some { result ≡ true
            → (place < length seats.now.seats) × HasPeriod (seat_at seats.now place) self.now }
        ensures none { result ≡ false → place < length seats.now.seats → (i : _) → i < length self.now
            → stands (index_at self.now i).standing (seat_at seats.now place) ≡ None }
    {
        if place < seats.len() {
            some_has(&self.indexes, seats.seat(place))
        } else {
            false
        }
    }

    /// Whether the row slot at a position has a period in some index and, in each index, the one under which this row
    /// is entered.
    pub fn stands_as(&self, seats: &Seats, place: usize, row: &Row, during: Period) -> bool
        ensures { result ≡ true → StandsAs seats.now place self.now (filed row.now (points_of during)) }
    {
        if place < seats.len() {
            let seat = seats.seat(place);
            some_has(&self.indexes, seat) && all_have(&self.indexes, seat, row, during)
        } else {
            false
        }
    }

    /// Removes the rows at positions `from..to` from each index. Allocates no memory.
    pub fn leave(&mut self, seats: &Seats, from: usize, to: usize)
        requires rises { from ≤ to }
        requires room { to ≤ length seats.now.seats }
        ensures each { Each (IsTurned from to seats.now) self.old self.new }
        ensures gone { (i : _) → i < length self.old → AreLoose from to seats.now (index_at self.new i).standing }
    {
        leave_each(&mut self.indexes, seats, from, to);
    }

    /// Returns the positions of the candidate rows for a lookup, or for a period alone: all rows that match, and
    /// possibly others. With `during`, an index on the period kept with each row leaves out rows whose period shares no
    /// point with it. Returns `None` only if no index serves the lookup, and an error if out of memory.
    pub fn find(
        &self,
        seats: &Seats,
        sought: Option<Sought<'_>>,
        during: Option<Period>,
    ) -> Result<Option<Vec<usize, Memory>>, AllocError>
        ensures places { IfOk result (λ r. IfSome r (λ places. IsFoundBy seats.now self.now
            (option_map sought_of sought.entry) (option_map points_of during) places.items)) }
        ensures none { IfOk result (λ r. r ≡ None → (i : _) → i < length self.now
            → ¬ ServesIf (option_map sought_of sought.entry) (index_at self.now i).basis) }
    {
        for index in &self.indexes {
            if index.basis.serves_if(sought) {
                let places = index.find(seats, sought, during)?;
                return Ok(Some(places));
            }
        }
        Ok(None)
    }
}
