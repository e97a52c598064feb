//! Rows of values that are kept once each, and numbered in the order in which they first came: the keys of groups, and
//! the rows of a query with DISTINCT.
//!
//! Rows are looked up in a hash table with linear probing. The digest of a row gives its first slot, and a look-up
//! reads up to `WINDOW` slots, or to the first empty one. A slot has 32 bits. Row numbers that do not fit, or for which
//! all of these slots were taken, are in sorted runs, which are searched by binary search. There are many of them only
//! if rows were chosen to collide.
ghost use Rattle.std.specs.Prelude.{◌≡◌, ◌≢◌, ◌+◌, ◌<◌, ◌^◌, ◌↔◌, IfNone, IfOk, IfSome, IsTrue, length, ℕ};
ghost use Rattle.std.specs.Prelude.{false, slice_get, OnErr, OnOk, Some, true};
ghost use Rattle.tql_exec_join.specs.Digest.{spread_digest};
ghost use Rattle.tql_exec_numbered.specs.Numbered.{seen};
ghost use Rattle.tql_exec_numbered.specs.Runs.{numbers_in, AreRuns};
ghost use Rattle.tql_exec_numbered.specs.Slots.{first_place as place_of, free_from, is_kept, is_reached, AreFiled};

use crate::cells::{agree, digest_of};
use crate::rows::Rows;
use crate::runs::{add, find};
use std::alloc::AllocError;
use std::marker::Model;
use tql_exec_join::digest::spread;
use tql_memory::Memory;
use tql_value::refusal::Refusal;
use tql_value::value::{Value, View};

/// The maximum number of slots that a look-up reads.
const WINDOW: usize = 32;

/// The number of slots of the smallest table.
const FEWEST: usize = 64;

/// Returns the first slot of a digest, in a table of this number of slots. The digest is spread once more, since
/// digests of numbers in steps are in steps too, and would be crowded in a part of the table.
#[inline(always)]
fn first_place(size: usize, digest: u64) -> usize
    ensures { result ≡ place_of size digest }
{
    ((spread(digest ^ (digest >> 32)) >> 32) as usize) & size.saturating_sub(1)
}

/// Whether the row with a number equals this row, which has this digest. Rows with other digests are not compared.
#[inline(always)]
fn agrees_at(rows: &Rows, number: usize, digest: u64, row: &[View<'_>]) -> bool
    requires { digest ≡ spread_digest (seen row.now) }
    ensures { IsTrue result ↔ (slice_get rows.now number ≡ Some (seen row.now)) }
{
    match rows.digest_at(number) {
        Some(known) => known == digest && agree(rows.at(number), row),
        None => false,
    }
}

/// Returns the number of a row with this digest, if it is in one of its slots.
#[inline(always)]
fn met_number(rows: &Rows, slots: &[u32], digest: u64, row: &[View<'_>]) -> Option<usize>
    requires { digest ≡ spread_digest (seen row.now) }
    ensures some { IfSome result (λ n. slice_get rows.now n ≡ Some (seen row.now)) }
    ensures none { IfNone result ((n : ℕ) → slice_get rows.now n ≡ Some (seen row.now)
        → is_reached 32 slots.now (place_of (length slots.now) digest) n ≡ false) }
{
    let mut at = first_place(slots.len(), digest);
    for _step in 0..WINDOW {
        let Some(slot) = slots.get(at) else {
            return None;
        };
        if *slot == 0 {
            return None;
        }
        let number = *slot as usize - 1;
        if agrees_at(rows, number, digest, row) {
            return Some(number);
        }
        at += 1;
    }
    None
}

/// Returns the number of a row with this digest, if it is among the rows.
#[inline(always)]
fn number_of(
    rows: &Rows,
    slots: &[u32],
    runs: &[Vec<usize, Memory>],
    digest: u64,
    row: &[View<'_>],
) -> Option<usize>
    requires filed { AreFiled rows.now slots.now (numbers_in runs.now) }
    requires digest { digest ≡ spread_digest (seen row.now) }
    ensures some { IfSome result (λ n. slice_get rows.now n ≡ Some (seen row.now)) }
    ensures none { IfNone result ((n : ℕ) → slice_get rows.now n ≢ Some (seen row.now)) }
{
    match met_number(rows, slots, digest, row) {
        Some(number) => Some(number),
        None => find(rows, runs, row),
    }
}

/// Returns the first empty slot for a row with this digest.
fn free_place(slots: &[u32], digest: u64) -> Option<usize>
    ensures found { result ≡ free_from 32 slots.now (place_of (length slots.now) digest) }
    ensures within { IfSome result (λ p. p < length slots.now) }
{
    let mut at = first_place(slots.len(), digest);
    for _step in 0..WINDOW {
        let Some(slot) = slots.get(at) else {
            return None;
        };
        if *slot == 0 {
            return Some(at);
        }
        at += 1;
    }
    None
}

/// Writes the number of a row with this digest into the first empty slot for it. Where all of its slots are taken, or
/// the number does not fit into a slot, it is added to the runs. The only error is a refused allocation, and leaves
/// both as they were.
fn file(
    memory: Memory,
    rows: &Rows,
    slots: &mut Vec<u32, Memory>,
    runs: &mut Vec<Vec<usize, Memory>, Memory>,
    digest: u64,
    number: usize,
) -> Result<(), AllocError>
    requires small { number + 1 < 2 ^ 64 }
    requires number { number < length rows.now }
    requires runs { AreRuns rows.now (numbers_in runs.old.items) }
    ensures len { length slots.new.items ≡ length slots.old.items }
    ensures runs { AreRuns rows.now (numbers_in runs.new.items) }
    ensures filed { OnOk result (is_kept slots.new.items (numbers_in runs.new.items)
        (place_of (length slots.old.items) digest) number ≡ true) }
    ensures kept { (at n : ℕ) → is_kept slots.old.items (numbers_in runs.old.items) at n ≡ true
        → is_kept slots.new.items (numbers_in runs.new.items) at n ≡ true }
    ensures slots { OnErr result (slots.new.items ≡ slots.old.items) }
    ensures err { OnErr result (runs.new.items ≡ runs.old.items) }
{
    match (
        free_place(slots.as_slice(), digest),
        u32::try_from(number + 1),
    ) {
        (Some(at), Ok(slot)) => {
            slots[at] = slot;
            Ok(())
        }
        _ => add(memory, rows, runs, number),
    }
}

/// Files all rows. The only error is a refused allocation.
fn file_all(
    memory: Memory,
    rows: &Rows,
    slots: &mut Vec<u32, Memory>,
    runs: &mut Vec<Vec<usize, Memory>, Memory>,
) -> Result<(), AllocError>
    requires { AreRuns rows.now (numbers_in runs.old.items) }
    ensures { OnOk result (AreFiled rows.now slots.new.items (numbers_in runs.new.items)) }
{
    let mut number = 0;
    while let Some(digest) = rows.digest_at(number) {
        file(memory, rows, slots, runs, digest, number)?;
        number += 1;
    }
    Ok(())
}

/// Rows of values without repeats, where NULL equals NULL. In contracts it is the list of these rows, in the order in
/// which they first came.
pub struct Numbered {
    memory: Memory,
    rows: Rows,
    slots: Vec<u32, Memory>,
    runs: Vec<Vec<usize, Memory>, Memory>,
}

impl Model for Numbered {
    ghost use Rattle.std.specs.Prelude.{List};
    ghost use Rattle.tql_spec.specs.Datum.{Row};
    ghost use Rattle.tql_exec_numbered.specs.Runs.{numbers_in};
    ghost use Rattle.tql_exec_numbered.specs.Slots.{AreFiled};

    ghost Value = { List Row };

    ghost view = { λ n. n.rows };

    ghost invariant = { λ n. AreFiled n.rows n.slots.items (numbers_in n.runs.items) };
}

impl Drop for Numbered {
    fn drop(self) {
        let Numbered {
            memory: _,
            rows,
            slots,
            runs,
        } = self;
        drop(rows);
        drop(slots);
        drop(runs);
    }
}

impl Numbered {
    ghost use Rattle.std.specs.Prelude.{◌≡◌, ◌≢◌, ◌++◌, ◌∷◌, ◌<◌, [], ℕ, IfErr, IfOk, length, OnErr, OnOk};
    ghost use Rattle.std.specs.Prelude.{slice_get, slice_index_or, Some};
    ghost use Rattle.tql_value.specs.Views.{row_of, rows_of};
    ghost use Rattle.tql_exec_join.specs.Digest.{spread_digest};
    ghost use Rattle.tql_exec_numbered.specs.Numbered.{seen, with_row};

    /// Returns no rows. Makes no allocation.
    pub fn new(memory: Memory) -> Numbered
        ensures { result ≡ [] }
    {
        Numbered {
            memory,
            rows: Rows::new(memory),
            slots: Vec::new(memory),
            runs: Vec::new(memory),
        }
    }

    /// Returns the number of rows.
    pub fn len(&self) -> usize
        ensures { result ≡ length self.now }
    {
        self.rows.len()
    }

    /// Returns the values of the row with a number.
    pub fn row(&self, number: usize) -> &[Value]
        requires { number < length self.now }
        ensures { row_of result.now ≡ slice_index_or self.now number [] }
    {
        self.rows.at(number)
    }

    /// Makes room in the table for one more row, so that half of the slots stay empty. The only error is a refused
    /// allocation.
    fn make_room(&mut self) -> Result<(), AllocError>
        ensures { self.new ≡ self.old }
    {
        if self.rows.len() < self.slots.len() / 2 {
            return Ok(());
        }
        let size = self.slots.len().saturating_mul(4).max(FEWEST);
        let mut slots: Vec<u32, Memory> = Vec::new(self.memory);
        slots.resize(size, 0)?;
        let mut runs: Vec<Vec<usize, Memory>, Memory> = Vec::new(self.memory);
        file_all(self.memory, &self.rows, &mut slots, &mut runs)?;
        self.slots = slots;
        self.runs = runs;
        Ok(())
    }

    /// Appends a row that has this digest and is not among the rows. Returns its number. The only error is a refused
    /// allocation, and leaves the rows as they were.
    #[inline(never)]
    fn add(&mut self, digest: u64, row: &[View<'_>]) -> Result<usize, Refusal>
        requires { digest ≡ spread_digest (seen row.now) }
        ensures rows { OnOk result (self.new ≡ self.old ++ seen row.now ∷ []) }
        ensures number { IfOk result (λ n. slice_get self.new n ≡ Some (seen row.now)) }
        ensures err { OnErr result (self.new ≡ self.old) }
        ensures memory { IfErr result (λ e. e ≡ Refusal.OutOfMemory) }
    {
        self.make_room()?;
        let number = self.rows.len();
        self.rows.push(self.memory, digest, row)?;
        let filed = file(
            self.memory,
            &self.rows,
            &mut self.slots,
            &mut self.runs,
            digest,
            number,
        );
        match filed {
            Ok(()) => Ok(number),
            Err(refused) => {
                self.rows.pop();
                Err(Refusal::from(refused))
            }
        }
    }

    /// Returns the number of the row with these values, which is appended if it is not among the rows. Makes no
    /// allocation for a row that is among them. The only error is a refused allocation, and leaves the rows as they
    /// were.
    pub fn put(&mut self, row: &[View<'_>]) -> Result<usize, Refusal>
        ensures rows { OnOk result (self.new ≡ with_row self.old (seen row.now)) }
        ensures number { IfOk result (λ n. slice_get self.new n ≡ Some (seen row.now)) }
        ensures err { OnErr result (self.new ≡ self.old) }
        ensures memory { IfErr result (λ e. e ≡ Refusal.OutOfMemory) }
    {
        let digest = digest_of(row);
        let number = number_of(
            &self.rows,
            self.slots.as_slice(),
            self.runs.as_slice(),
            digest,
            row,
        );
        match number {
            Some(number) => Ok(number),
            None => self.add(digest, row),
        }
    }

    /// Returns each row in a list of its own. The only error is a refused allocation.
    pub fn into_rows(self) -> Result<Vec<Vec<Value, Memory>, Memory>, AllocError>
        ensures { IfOk result (λ v. rows_of v.items ≡ self) }
    {
        let Numbered {
            memory,
            rows,
            slots,
            runs,
        } = self;
        drop(slots);
        drop(runs);
        rows.into_rows(memory)
    }
}
