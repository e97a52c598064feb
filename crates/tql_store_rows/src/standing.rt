//! Current rows in the indexes by value and by application period: adding and removing them.
ghost use Rattle.std.specs.Prelude.{◌≡◌, ◌<◌, ◌≤◌, ◌+◌, ◌^◌, ◌++◌, [], ◌∷◌, All, OnOk, OnErr, IfOk, IfSome, length};
ghost use Rattle.std.specs.Prelude.{Contains, None, true, false, take, drop, vec_len};
ghost use Rattle.tql_store_index.specs.Basis.{filed};
ghost use Rattle.tql_store_index.specs.Places.{whole};
ghost use Rattle.tql_store_index.specs.Seating.{seat_at};
ghost use Rattle.tql_store_index.specs.Standing.{stands};
ghost use Rattle.tql_store_index.specs.ValueIndexes.{Each, IsTurned, index_at};
ghost use Rattle.tql_store_rows.specs.Loans.{AreLent, AreMore, AreOwing, IsEntered, IsLoan};
ghost use Rattle.tql_standing.specs.RowsStanding.{IsShut, cells_of, rows_of};
ghost use Rattle.tql_versions.specs.Views.{versions_of};

use crate::borrowing::{Loan, take_back};
use std::alloc::AllocError;
use tql_index::index::IntervalIndex;
use tql_memory::Memory;
use tql_period::period::Period;
use tql_row::row::Row;
use tql_store_index::basis::Basis;
use tql_store_index::seats::Seats;
use tql_store_index::value_indexes::ValueIndexes;
use tql_versions::kept::{Kept, is_open};

/// Every moment and day: the period attached to a current row. No index of current rows uses it.
pub const EVER: Period = Period {
    start: i64::MIN,
    end: i64::MAX,
};

/// Returns the index definition for these columns, with the period between two more columns if given.
fn basis_for(columns: Vec<usize, Memory>, application: Option<(usize, usize)>) -> Basis {
    match application {
        Some((start, end)) => Basis::ValuesIn(columns, start, end),
        None => Basis::Values(columns),
    }
}

/// Creates an empty index for each list of columns.
fn value_indexes<I: IntervalIndex>(
    memory: Memory,
    lists: Vec<Vec<usize, Memory>, Memory>,
    application: Option<(usize, usize)>,
) -> Result<ValueIndexes<I>, AllocError>
    ensures { IfOk result (All (λ k. k.standing ≡ [])) }
{
    let mut indexes = ValueIndexes::new(memory);
    for columns in lists {
        indexes.add(memory, basis_for(columns, application))?;
    }
    Ok(indexes)
}

/// Creates an empty index for each list of columns and, if two columns are given, one for the period between them.
pub fn row_indexes<I: IntervalIndex>(
    memory: Memory,
    lists: Vec<Vec<usize, Memory>, Memory>,
    application: Option<(usize, usize)>,
) -> Result<ValueIndexes<I>, AllocError>
    ensures { IfOk result (All (λ k. k.standing ≡ [])) }
{
    let mut indexes = value_indexes(memory, lists, application)?;
    if let Some((start, end)) = application {
        indexes.add(memory, Basis::Period(start, end))?;
    }
    Ok(indexes)
}

/// Returns the position of the version that may lend its row slot to the new row with this number: the one in
/// `lenders`, if it is below the base.
fn lender_at(lenders: &[usize], number: usize, base: usize) -> Option<usize>
    ensures { IfSome result (λ p. (p < base) × Contains lenders.now p) }
{
    match lenders.get(number) {
        Some(lender) => { if *lender < base { Some(*lender) } else { None } }
        None => None,
    }
}

/// Lets the row at the position `place` take over the row slot of a version, if the indexes have it under the periods
/// of the row. Returns whether they do. If out of memory, nothing changes.
fn borrow_seat<I: IntervalIndex>(
    indexes: &ValueIndexes<I>,
    seats: &mut Seats,
    loans: &mut Vec<Loan, Memory>,
    lender: usize,
    place: usize,
    row: &Row,
) -> Result<bool, AllocError>
    requires there { place < length seats.old.seats }
    ensures lent { IfOk result (λ lent. lent ≡ true → IsLoan lender place (filed row.now whole) loans.old.items
        loans.new.items seats.old seats.new indexes.now) }
    ensures same { IfOk result (λ lent. lent ≡ false
        → (loans.new.items ≡ loans.old.items) × (seats.new ≡ seats.old)) }
    ensures err { OnErr result ((loans.new.items ≡ loans.old.items) × (seats.new ≡ seats.old)) }
{
    if !indexes.stands_as(seats, lender, row, EVER) {
        return Ok(false);
    }
    loans.push(Loan {
        lender,
        borrower: place,
    })?;
    seats.swap(lender, place);
    Ok(true)
}

/// Enters a new row after the others. If `lender` is the position of a version with the same periods in the indexes,
/// the row takes over its row slot, and needs no new entry. If out of memory, only some of the indexes contain it.
fn enter_one<I: IntervalIndex>(
    indexes: &mut ValueIndexes<I>,
    seats: &mut Seats,
    loans: &mut Vec<Loan, Memory>,
    lender: Option<usize>,
    place: usize,
    row: &Row,
) -> Result<(), AllocError>
    requires there { place < length seats.old.seats }
    requires wide { (i : _) → i < length indexes.old
        → length seats.old.seats ≤ length (index_at indexes.old i).standing }
    requires loose { (i : _) → i < length indexes.old
        → stands (index_at indexes.old i).standing (seat_at seats.old place) ≡ None }
    ensures ok { OnOk result (IsEntered lender place (filed row.now whole) loans.old.items loans.new.items seats.old
        seats.new indexes.old indexes.new) }
    ensures err { OnErr result ((loans.new.items ≡ loans.old.items) × ((seats.new ≡ seats.old)
        × Each (IsTurned place (place + 1) seats.old) indexes.old indexes.new)) }
{
    if let Some(lender) = lender {
        if borrow_seat(indexes, seats, loans, lender, place, row)? {
            return Ok(());
        }
    }
    indexes.enter(seats, place, row, EVER)
}

/// Enters the new rows after those of the versions. Each may take over the row slot of the version at the position in
/// `lenders` with the same number. Fails if out of memory; then some of them may be entered.
fn enter_each<I: IntervalIndex>(
    indexes: &mut ValueIndexes<I>,
    seats: &mut Seats,
    loans: &mut Vec<Loan, Memory>,
    versions: &Vec<Kept, Memory>,
    rows: &Vec<Row, Memory>,
    lenders: &[usize],
    base: usize,
) -> Result<(), AllocError>
    requires fits { vec_len versions.now + vec_len rows.now < 2 ^ 64 }
    requires based { base ≤ length versions.now.items }
    requires room { length versions.now.items + length rows.now.items ≤ length seats.old.seats }
    requires standing { AreLent base loans.old.items seats.old indexes.old (rows_of (versions_of versions.now.items)) }
    ensures even { length seats.new.seats ≡ length seats.old.seats }
    ensures indexes { length indexes.new ≡ length indexes.old }
    ensures more { AreMore (length versions.now.items) lenders.now loans.old.items loans.new.items }
    ensures ok { OnOk result (AreLent base loans.new.items seats.new indexes.new
        (rows_of (versions_of versions.now.items) ++ cells_of rows.now.items)) }
    ensures err { OnErr result (AreOwing base (length versions.now.items)
        (length versions.now.items + length rows.now.items)
        (take (length loans.old.items) loans.new.items) (drop (length loans.old.items) loans.new.items)
        seats.new indexes.new (rows_of (versions_of versions.now.items))) }
{
    let from = versions.len();
    for (j, row) in rows.iter().enumerate() {
        let lender = lender_at(lenders, j, base);
        enter_one(indexes, seats, loans, lender, from + j, row)?;
    }
    Ok(())
}

/// Enters the new rows after those of the versions. Each may take over the row slot of the version at the position in
/// `lenders` with the same number. Fails if out of memory; then none of them is entered.
pub fn enter_rows<I: IntervalIndex>(
    seats: &mut Seats,
    indexes: &mut ValueIndexes<I>,
    loans: &mut Vec<Loan, Memory>,
    versions: &Vec<Kept, Memory>,
    rows: &Vec<Row, Memory>,
    lenders: &[usize],
    base: usize,
) -> Result<(), AllocError>
    requires fits { vec_len versions.now + vec_len rows.now < 2 ^ 64 }
    requires based { base ≤ length versions.now.items }
    requires standing { AreLent base loans.old.items seats.old indexes.old (rows_of (versions_of versions.now.items)) }
    ensures ok { OnOk result (AreLent base loans.new.items seats.new indexes.new
        (rows_of (versions_of versions.now.items) ++ cells_of rows.now.items)) }
    ensures more { OnOk result (AreMore (length versions.now.items) lenders.now loans.old.items loans.new.items) }
    ensures err { OnErr result (AreLent base loans.new.items seats.new indexes.new
        (rows_of (versions_of versions.now.items))) }
    ensures kept { OnErr result (loans.new.items ≡ loans.old.items) }
{
    if indexes.is_empty() {
        return Ok(());
    }
    let from = versions.len();
    let to = from + rows.len();
    indexes.grow(to)?;
    seats.grow(to)?;
    let lent = loans.len();
    if let Err(error) = enter_each(indexes, seats, loans, versions, rows, lenders, base) {
        take_back(indexes, seats, loans, lent, from, to);
        return Err(error);
    }
    Ok(())
}

/// Removes the row at a position from the indexes if its version is closed. Allocates no memory.
fn leave_if_shut<I: IntervalIndex>(
    indexes: &mut ValueIndexes<I>,
    seats: &Seats,
    versions: &[Kept],
    place: usize,
)
    requires { length versions.now ≤ length seats.now.seats }
    ensures { Each (IsShut (versions_of versions.now) seats.now (place ∷ [])) indexes.old indexes.new }
{
    if let Some(version) = versions.get(place) {
        if !is_open(version) {
            indexes.leave(seats, place, place + 1);
        }
    }
}

/// Removes the rows of closed versions at these positions from the indexes. Allocates no memory.
fn leave_each<I: IntervalIndex>(
    indexes: &mut ValueIndexes<I>,
    seats: &Seats,
    versions: &Vec<Kept, Memory>,
    places: &Vec<usize, Memory>,
)
    requires { length versions.now.items ≤ length seats.now.seats }
    ensures { Each (IsShut (versions_of versions.now.items) seats.now places.now.items) indexes.old indexes.new }
{
    for place in places {
        leave_if_shut(indexes, seats, versions, *place);
    }
}

/// Removes the rows of closed versions at these positions, if there are any indexes. Allocates no memory.
pub fn leave_shut<I: IntervalIndex>(
    indexes: &mut ValueIndexes<I>,
    seats: &Seats,
    versions: &Vec<Kept, Memory>,
    places: &Vec<usize, Memory>,
)
    requires { 0 < length indexes.old → length versions.now.items ≤ length seats.now.seats }
    ensures { Each (IsShut (versions_of versions.now.items) seats.now places.now.items) indexes.old indexes.new }
{
    if !indexes.is_empty() {
        leave_each(indexes, seats, versions, places);
    }
}
