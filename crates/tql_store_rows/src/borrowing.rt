//! Row slots that ended versions lend to the rows that replace them.
//!
//! An UPDATE that keeps the keys and the period of a row needs no new entry in the indexes: the new version takes over
//! the row slot of the ended one, with the periods under which the indexes have it, and the ended version gets the new
//! row slot, which has none. A rollback gives the row slots back, without memory. A change that ends a version added by
//! the same transaction first settles all loans: the borrowers are entered under row slots of their own.
ghost use Rattle.std.specs.Prelude.{◌≡◌, ◌≢◌, ◌<◌, ◌≤◌, ◌+◌, ◌-◌, [], ◌∷◌, ◌++◌, OnOk, OnErr, IfOk, true, false};
ghost use Rattle.std.specs.Prelude.{if◌then◌else◌, length, take, drop, vec_len};
ghost use Rattle.tql_store_index.specs.ValueIndexes.{index_at};
ghost use Rattle.tql_store_rows.specs.Loans.{AreLent, AreOwing, IsFront};
ghost use Rattle.tql_standing.specs.RowsStanding.{AreStanding, rows_of};
ghost use Rattle.tql_versions.specs.Views.{versions_of};

use crate::standing::EVER;
use std::alloc::AllocError;
use tql_index::index::IntervalIndex;
use tql_memory::Memory;
use tql_store_index::seats::Seats;
use tql_store_index::value_indexes::ValueIndexes;
use tql_versions::kept::Kept;

/// The version at position `lender` has lent its row slot to the version at position `borrower`.
#[derive(Clone, Copy)]
pub struct Loan {
    /// The position of a version that the open transaction ended.
    pub lender: usize,
    /// The position of the version that replaced it.
    pub borrower: usize,
}

/// Gives the row slots back to the lenders.
fn give_back(seats: &mut Seats, loans: &[Loan])
    ensures even { length seats.new.seats ≡ length seats.old.seats }
    ensures given { (base from to kept indexes rows : _)
        → AreOwing base from to kept loans.now seats.old indexes rows
        → AreOwing base from to kept [] seats.new indexes rows }
{
    for loan in loans {
        seats.swap(loan.lender, loan.borrower);
    }
}

/// Takes back the loans after the first `kept`, and removes the rows at positions `from..to` from the indexes.
/// Allocates no memory.
pub fn take_back<I: IntervalIndex>(
    indexes: &mut ValueIndexes<I>,
    seats: &mut Seats,
    loans: &mut Vec<Loan, Memory>,
    kept: usize,
    from: usize,
    to: usize,
)
    requires rises { from ≤ to }
    requires room { 0 < length indexes.old → to ≤ length seats.old.seats }
    requires kept { kept ≤ length loans.old.items }
    ensures loans { loans.new.items ≡ take kept loans.old.items }
    ensures standing { (base rows : _)
        → AreOwing base from to (take kept loans.old.items) (drop kept loans.old.items) seats.old indexes.old rows
        → AreLent base (take kept loans.old.items) seats.new indexes.new rows }
{
    give_back(seats, &loans[kept..]);
    loans.truncate(kept);
    if !indexes.is_empty() {
        indexes.leave(seats, from, to);
    }
}

/// Takes back all loans, and removes the rows at positions `base..all` from the indexes. If these are all rows, the
/// indexes and the row slots are freed as a whole. Allocates no memory.
pub fn undo_rows<I: IntervalIndex>(
    indexes: &mut ValueIndexes<I>,
    seats: &mut Seats,
    loans: &mut Vec<Loan, Memory>,
    base: usize,
    all: usize,
    memory: Memory,
)
    requires rises { base ≤ all }
    requires room { 0 < length indexes.old → all ≤ length seats.old.seats }
    ensures loans { loans.new.items ≡ [] }
    ensures standing { (rows : _) → AreOwing base base all [] loans.old.items seats.old indexes.old rows
        → AreStanding seats.new indexes.new rows }
{
    if base == 0 {
        loans.clear();
        *seats = Seats::new(memory);
        indexes.clear(memory);
    } else {
        take_back(indexes, seats, loans, 0, base, all);
    }
}

/// Ends the last loan: the lender gets its row slot back, and the borrower is entered in the indexes. If out of memory,
/// the loan stays.
fn settle_last<I: IntervalIndex>(
    indexes: &mut ValueIndexes<I>,
    seats: &mut Seats,
    loans: &Vec<Loan, Memory>,
    versions: &Vec<Kept, Memory>,
    base: usize,
) -> Result<(), AllocError>
    requires some { 0 < length loans.now.items }
    requires standing { AreLent base loans.now.items seats.old indexes.old (rows_of (versions_of versions.now.items)) }
    requires indexed { 0 < length indexes.old }
    ensures indexes { length indexes.new ≡ length indexes.old }
    ensures ok { OnOk result (AreLent base (take (length loans.now.items - 1) loans.now.items) seats.new indexes.new
        (rows_of (versions_of versions.now.items))) }
    ensures err { OnErr result (AreLent base loans.now.items seats.new indexes.new
        (rows_of (versions_of versions.now.items))) }
{
    let _base = base;
    let loan = loans[loans.len() - 1];
    let borrower = loan.borrower;
    seats.swap(loan.lender, borrower);
    if let Err(error) = indexes.enter(seats, borrower, &versions[borrower].row, EVER) {
        indexes.leave(seats, borrower, borrower + 1);
        seats.swap(loan.lender, borrower);
        return Err(error);
    }
    Ok(())
}

/// Ends all loans. If out of memory, some of them stay.
fn settle<I: IntervalIndex>(
    indexes: &mut ValueIndexes<I>,
    seats: &mut Seats,
    loans: &mut Vec<Loan, Memory>,
    versions: &Vec<Kept, Memory>,
    base: usize,
) -> Result<(), AllocError>
    requires { AreLent base loans.old.items seats.old indexes.old (rows_of (versions_of versions.now.items)) }
    ensures standing { AreLent base loans.new.items seats.new indexes.new (rows_of (versions_of versions.now.items)) }
    ensures fewer { IsFront loans.new.items loans.old.items }
    ensures ok { OnOk result (loans.new.items ≡ []) }
{
    if indexes.is_empty() {
        loans.clear();
        return Ok(());
    }
    while !loans.is_empty() {
        settle_last(indexes, seats, loans, versions, base)?;
        let left = loans.len() - 1;
        loans.truncate(left);
    }
    Ok(())
}

/// Whether a change may lend row slots: it ends `removed` versions, of which the open transaction added none, and none
/// of the versions that it added is recorded as dead.
pub fn may_lend(dead: usize, below: usize, removed: usize) -> bool
    ensures { result ≡ true → (dead ≡ 0) × (below ≡ removed) }
{
    dead == 0 && below == removed
}

/// Returns the positions of `removed` that may lend their row slots: all, or none if the loans have to end. In that
/// case ends them. If out of memory, some of them stay.
pub fn lenders_of<'a, I: IntervalIndex>(
    lends: bool,
    removed: &'a [usize],
    indexes: &mut ValueIndexes<I>,
    seats: &mut Seats,
    loans: &mut Vec<Loan, Memory>,
    versions: &Vec<Kept, Memory>,
    base: usize,
) -> Result<&'a [usize], AllocError>
    requires { AreLent base loans.old.items seats.old indexes.old (rows_of (versions_of versions.now.items)) }
    ensures standing { AreLent base loans.new.items seats.new indexes.new (rows_of (versions_of versions.now.items)) }
    ensures fewer { IsFront loans.new.items loans.old.items }
    ensures lenders { IfOk result (λ lenders. lenders.now ≡ (if lends then removed.now else [])) }
    ensures settled { OnOk result (lends ≡ false → loans.new.items ≡ []) }
{
    if lends {
        return Ok(removed);
    }
    settle(indexes, seats, loans, versions, base)?;
    Ok(&removed[..0])
}
