//! Runs of row numbers. Each run is sorted by the rows with these numbers, and searched by binary search.
//!
//! A new number is merged with the last runs, as long as the next one is not longer than those merged so far, and the
//! result is sorted as one run. So there are few runs, and a number is sorted again only if its run at least doubles.
ghost use Rattle.std.specs.Prelude.{◌≡◌, ◌≢◌, ◌++◌, ◌∷◌, [], ◌<◌, ◌≤◌, ◌||◌, ℕ, IfNone, IfOk, IfSome, OnErr, OnOk};
ghost use Rattle.std.specs.Prelude.{length, slice_get, Some, take, true};
ghost use Rattle.std.specs.List.Sorted.{IsPermutation};
ghost use Rattle.tql_exec_numbered.specs.Numbered.{seen};
ghost use Rattle.tql_exec_numbered.specs.Runs.{has_number, is_in_runs, numbers_in};
ghost use Rattle.tql_exec_numbered.specs.Runs.{AreBelow, AreInOrder, AreRuns, IsRun};

use crate::cells::{compare, compare_seen};
use crate::rows::Rows;
use std::alloc::AllocError;
use tql_memory::Memory;
use tql_value::value::View;

/// Returns the number of this row, if it is in a run.
fn find_in(rows: &Rows, run: &[usize], row: &[View<'_>]) -> Option<usize>
    ensures some { IsRun rows.now run.now → IfSome result (λ n. slice_get rows.now n ≡ Some (seen row.now)) }
    ensures none { IsRun rows.now run.now → IfNone result ((n : ℕ) → has_number n run.now ≡ true
        → slice_get rows.now n ≢ Some (seen row.now)) }
{
    match run.binary_search_by(|number| compare_seen(rows.at(*number), row)) {
        Ok(at) => Some(run[at]),
        Err(_) => None,
    }
}

/// Returns the number of this row, if it is in one of several runs.
pub(crate) fn find(rows: &Rows, runs: &[Vec<usize, Memory>], row: &[View<'_>]) -> Option<usize>
    ensures some { AreRuns rows.now (numbers_in runs.now)
        → IfSome result (λ n. slice_get rows.now n ≡ Some (seen row.now)) }
    ensures none { AreRuns rows.now (numbers_in runs.now)
        → IfNone result ((n : ℕ) → is_in_runs n (numbers_in runs.now) ≡ true
        → slice_get rows.now n ≢ Some (seen row.now)) }
{
    match runs.split_first() {
        None => None,
        Some((run, others)) => match find_in(rows, run.as_slice(), row) {
            Some(number) => Some(number),
            None => find(rows, others, row),
        },
    }
}

/// Appends to a run the numbers of the last runs, as long as the next one is not longer than it. Returns the number of
/// runs before these. The only error is a refused allocation.
fn join(runs: &[Vec<usize, Memory>], run: &mut Vec<usize, Memory>) -> Result<usize, AllocError>
    ensures bound { IfOk result (λ stay. stay ≤ length runs.now) }
    ensures old { IfOk result (λ _. (n : ℕ) → has_number n run.old.items ≡ true → has_number n run.new.items ≡ true) }
    ensures all { IfOk result (λ stay. (n : ℕ) → is_in_runs n (numbers_in runs.now) ≡ true
        → (is_in_runs n (take stay (numbers_in runs.now)) || has_number n run.new.items) ≡ true) }
    ensures below { IfOk result (λ _. (bound : ℕ) → AreBelow bound run.old.items
        → ((k : ℕ) → is_in_runs k (numbers_in runs.now) ≡ true → k < bound) → AreBelow bound run.new.items) }
{
    match runs.split_last() {
        Some((last, others)) if last.len() <= run.len() => {
            run.extend_from_slice(last.as_slice())?;
            join(others, run)
        }
        _ => Ok(runs.len()),
    }
}

/// Sorts row numbers by the rows with these numbers.
fn sort(rows: &Rows, run: &mut Vec<usize, Memory>)
    ensures sorted { AreInOrder rows.now run.new.items }
    ensures same { IsPermutation run.old.items run.new.items }
{
    run.sort_unstable_by(|a, b| compare(rows.at(*a), rows.at(*b)));
}

/// Replaces all but the first `stay` runs by a run. The only error is a refused allocation, and leaves the runs as they
/// were.
fn put_behind(
    runs: &mut Vec<Vec<usize, Memory>, Memory>,
    stay: usize,
    run: Vec<usize, Memory>,
) -> Result<(), AllocError>
    requires { stay ≤ length runs.old.items }
    ensures ok { OnOk result (runs.new.items ≡ take stay runs.old.items ++ run.entry ∷ []) }
    ensures err { OnErr result (runs.new.items ≡ runs.old.items) }
{
    if stay < runs.len() {
        runs[stay] = run;
        runs.truncate(stay + 1);
    } else {
        runs.push(run)?;
    }
    Ok(())
}

/// Adds a row number to the runs. The only error is a refused allocation, and leaves the runs as they were.
pub(crate) fn add(
    memory: Memory,
    rows: &Rows,
    runs: &mut Vec<Vec<usize, Memory>, Memory>,
    number: usize,
) -> Result<(), AllocError>
    requires runs { AreRuns rows.now (numbers_in runs.old.items) }
    requires number { number < length rows.now }
    ensures runs { AreRuns rows.now (numbers_in runs.new.items) }
    ensures added { OnOk result (is_in_runs number (numbers_in runs.new.items) ≡ true) }
    ensures kept { (n : ℕ) → is_in_runs n (numbers_in runs.old.items) ≡ true
        → is_in_runs n (numbers_in runs.new.items) ≡ true }
    ensures err { OnErr result (runs.new.items ≡ runs.old.items) }
{
    let mut run = Vec::new(memory);
    run.push(number)?;
    let stay = join(runs.as_slice(), &mut run)?;
    sort(rows, &mut run);
    put_behind(runs, stay, run)
}
