//! Rows of values that stand one behind another in one list, with the end and the digest of each. So a row takes no
//! block of memory of its own, and a row with another digest is told apart without a look at its values.
ghost use Rattle.std.specs.Prelude.{◌≡◌, ◌≤◌, ◌++◌, ◌∷◌, [], IfErr, length, MatchResult, OnErr, OnOk, take};
ghost use Rattle.tql_value.specs.Views.{row_of};
ghost use Rattle.tql_exec_numbered.specs.Numbered.{seen};
ghost use Rattle.tql_exec_numbered.specs.Rows.{start_at};

use std::alloc::AllocError;
use std::marker::Model;
use tql_memory::Memory;
use tql_value::refusal::Refusal;
use tql_value::value::{Value, View};

/// Where a row ends, and its digest.
#[derive(Clone, Copy)]
struct Mark {
    /// The number of values of the rows up to this one.
    end: usize,
    digest: u64,
}

/// Rows of values. In contracts it is the list of these rows.
pub(crate) struct Rows {
    values: Vec<Value, Memory>,
    marks: Vec<Mark, Memory>,
}

impl Model for Rows {
    ghost use Rattle.std.specs.Prelude.{List};
    ghost use Rattle.tql_spec.specs.Datum.{Row};
    ghost use Rattle.tql_value.specs.Views.{row_of};
    ghost use Rattle.tql_exec_numbered.specs.Rows.{parts, AreMarks};

    ghost Value = { List Row };

    ghost view = { λ r. parts 0 r.marks.items (row_of r.values.items) };

    ghost invariant = { λ r. AreMarks 0 r.marks.items (row_of r.values.items) };
}

impl Drop for Rows {
    fn drop(self) {
        let Rows { values, marks } = self;
        drop(values);
        drop(marks);
    }
}

/// Adds copies of the values of a row. The only error is a refused allocation, and may leave some of them.
fn add_copies(
    memory: Memory,
    row: &[View<'_>],
    values: &mut Vec<Value, Memory>,
) -> Result<(), Refusal>
    ensures values { MatchResult result
        (λ _. row_of values.new.items ≡ row_of values.old.items ++ seen row.now) (λ e. e ≡ Refusal.OutOfMemory) }
    ensures before { take (length values.old.items) values.new.items ≡ values.old.items }
{
    for view in row {
        values.push(view.to_value(memory)?)?;
    }
    Ok(())
}

/// Returns the number of values before the row with a number.
#[inline(always)]
fn start_in(marks: &[Mark], number: usize) -> usize
    requires { number ≤ length marks.now }
    ensures { result ≡ start_at 0 marks.now number }
{
    if number == 0 {
        0
    } else {
        marks[number - 1].end
    }
}

/// Adds a row. The only error is a refused allocation. It leaves the marks as they were, and may leave some values.
fn add_row(
    memory: Memory,
    digest: u64,
    row: &[View<'_>],
    values: &mut Vec<Value, Memory>,
    marks: &mut Vec<Mark, Memory>,
) -> Result<(), Refusal>
    ensures values { OnOk result (row_of values.new.items ≡ row_of values.old.items ++ seen row.now) }
    ensures marks { OnOk result (marks.new.items
        ≡ marks.old.items ++ record { end = length values.new.items; digest = digest } ∷ []) }
    ensures before { take (length values.old.items) values.new.items ≡ values.old.items }
    ensures err { OnErr result (marks.new.items ≡ marks.old.items) }
    ensures memory { IfErr result (λ e. e ≡ Refusal.OutOfMemory) }
{
    add_copies(memory, row, values)?;
    marks.push(Mark {
        end: values.len(),
        digest,
    })?;
    Ok(())
}

impl Rows {
    ghost use Rattle.std.specs.Prelude.{◌≡◌, ◌+◌, ◌^◌, ◌<◌, ◌++◌, ◌∷◌, [], IfErr, IfOk, IfSome, length, List, OnErr};
    ghost use Rattle.std.specs.Prelude.{OnOk, option_map, slice_get};
    ghost use Rattle.tql_spec.specs.Datum.{Row};
    ghost use Rattle.tql_value.specs.Views.{row_of, rows_of};
    ghost use Rattle.tql_exec_join.specs.Digest.{spread_digest};
    ghost use Rattle.tql_exec_numbered.specs.Numbered.{seen};
    ghost use Rattle.tql_exec_numbered.specs.Runs.{row_at};

    /// Returns no rows. Makes no allocation.
    pub(crate) fn new(memory: Memory) -> Rows
        ensures { result ≡ [] }
    {
        Rows {
            values: Vec::new(memory),
            marks: Vec::new(memory),
        }
    }

    /// Returns the number of rows.
    #[inline(always)]
    pub(crate) fn len(&self) -> usize
        ensures count { result ≡ length self.now }
        ensures most { result + 1 < 2 ^ 64 }
    {
        self.marks.len()
    }

    /// Returns the values of the row with a number, or none if there is no such row.
    #[inline(always)]
    pub(crate) fn at(&self, number: usize) -> &[Value]
        ensures { row_of result.now ≡ row_at self.now number }
    {
        match self.marks.get(number) {
            Some(mark) => {
                let start = start_in(self.marks.as_slice(), number);
                &self.values[start..mark.end]
            }
            None => &[],
        }
    }

    /// Returns the digest of the row with a number.
    #[inline(always)]
    pub(crate) fn digest_at(&self, number: usize) -> Option<u64>
        ensures digest { result ≡ option_map spread_digest (slice_get self.now number) }
        ensures most { IfSome result (λ _. number + 1 < 2 ^ 64) }
    {
        match self.marks.get(number) {
            Some(mark) => Some(mark.digest),
            None => None,
        }
    }

    /// Appends a row that has this digest. The only error is a refused allocation, and leaves the rows as they were.
    pub(crate) fn push(
        &mut self,
        memory: Memory,
        digest: u64,
        row: &[View<'_>],
    ) -> Result<(), Refusal>
        requires { digest ≡ spread_digest (seen row.now) }
        ensures rows { OnOk result (self.new ≡ self.old ++ seen row.now ∷ []) }
        ensures err { OnErr result (self.new ≡ self.old) }
        ensures memory { IfErr result (λ e. e ≡ Refusal.OutOfMemory) }
    {
        let before = self.values.len();
        let added = add_row(memory, digest, row, &mut self.values, &mut self.marks);
        if added.is_err() {
            self.values.truncate(before);
        }
        added
    }

    /// Removes the last row, if there is one.
    pub(crate) fn pop(&mut self)
        ensures { (rows : List Row) (row : Row) → self.old ≡ rows ++ row ∷ [] → self.new ≡ rows }
    {
        let len = self.marks.len();
        if len == 0 {
            return;
        }
        let start = start_in(self.marks.as_slice(), len - 1);
        self.values.truncate(start);
        self.marks.truncate(len - 1);
    }

    /// Moves the values of the last row to a list of their own. The only error is a refused allocation.
    fn take_last(&mut self) -> Result<Vec<Value, Memory>, AllocError>
        requires { 0 < length self.old }
        ensures { IfOk result (λ v. self.old ≡ self.new ++ row_of v.items ∷ []) }
    {
        let len = self.marks.len();
        let start = start_in(self.marks.as_slice(), len - 1);
        let row = self.values.split_off(start)?;
        self.marks.truncate(len - 1);
        Ok(row)
    }

    /// Returns each row in a list of its own. The only error is a refused allocation.
    pub(crate) fn into_rows(
        self,
        memory: Memory,
    ) -> Result<Vec<Vec<Value, Memory>, Memory>, AllocError>
        ensures { IfOk result (λ v. rows_of v.items ≡ self) }
    {
        let mut left = self;
        let mut rows = Vec::with_capacity(memory, left.len())?;
        while 0 < left.len() {
            rows.push(left.take_last()?)?;
        }
        rows.reverse();
        Ok(rows)
    }
}
