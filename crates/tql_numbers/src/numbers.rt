//! A list of numbers in little memory.
ghost use Rattle.std.specs.Prelude.{◌≡◌, ◌<◌, ◌++◌, [], ◌∷◌, OnOk, OnErr, IfOk, length, slice_index_or, take};
ghost use Rattle.std.specs.List.{swap};

use std::alloc::AllocError;
use std::marker::Model;
use tql_memory::Memory;

/// A list of numbers. Its model is that list. It takes 4 bytes a number as long as each is below 2^32, and 8 from then
/// on.
#[derive(Drop)]
pub struct Numbers {
    // Whether the list is in `wide`, else it is in `narrow`. The other one is empty.
    is_wide: bool,
    narrow: Vec<u32, Memory>,
    wide: Vec<usize, Memory>,
}

impl Model for Numbers {
    ghost use Rattle.std.specs.Prelude.{List, ℕ, if◌then◌else◌};

    ghost Value = { List ℕ };

    ghost view = { λ s. if s.is_wide then s.wide.items else s.narrow.items };
}

/// Returns a copy of the list, with 8 bytes a number.
fn widened(memory: Memory, narrow: &[u32]) -> Result<Vec<usize, Memory>, AllocError>
    ensures { IfOk result (λ wide. wide.items ≡ narrow.now) }
{
    let mut wide = Vec::with_capacity(memory, narrow.len())?;
    for number in narrow {
        wide.push(*number as usize)?;
    }
    Ok(wide)
}

/// Returns the number at an index, or 0 past the end.
fn narrow_at(narrow: &[u32], index: usize) -> usize
    ensures { result ≡ slice_index_or narrow.now index 0 }
{
    match narrow.get(index) {
        Some(number) => *number as usize,
        None => 0,
    }
}

/// Returns the number at an index, or 0 past the end.
fn wide_at(wide: &[usize], index: usize) -> usize
    ensures { result ≡ slice_index_or wide.now index 0 }
{
    match wide.get(index) {
        Some(number) => *number,
        None => 0,
    }
}

impl Numbers {
    /// Creates an empty list.
    pub fn new(memory: Memory) -> Numbers
        ensures { result ≡ [] }
    {
        Numbers {
            is_wide: false,
            narrow: Vec::new(memory),
            wide: Vec::new(memory),
        }
    }

    /// Returns the number of numbers.
    pub fn len(&self) -> usize
        ensures { result ≡ length self.now }
    {
        if self.is_wide {
            self.wide.len()
        } else {
            self.narrow.len()
        }
    }

    /// Returns the number at an index, or 0 past the end.
    pub fn at(&self, index: usize) -> usize
        ensures { result ≡ slice_index_or self.now index 0 }
    {
        if self.is_wide {
            wide_at(&self.wide, index)
        } else {
            narrow_at(&self.narrow, index)
        }
    }

    /// Appends a number. If out of memory, nothing changes.
    pub fn push(&mut self, number: usize) -> Result<(), AllocError>
        ensures ok { OnOk result (self.new ≡ self.old ++ number ∷ []) }
        ensures err { OnErr result (self.new ≡ self.old) }
    {
        if self.is_wide {
            self.wide.push(number)?;
            return Ok(());
        }
        if let Ok(small) = u32::try_from(number) {
            self.narrow.push(small)?;
            return Ok(());
        }
        let memory = *self.narrow.allocator();
        let mut wide = widened(memory, &self.narrow)?;
        wide.push(number)?;
        self.is_wide = true;
        self.narrow = Vec::new(memory);
        self.wide = wide;
        Ok(())
    }

    /// Keeps the first `len` numbers.
    pub fn truncate(&mut self, len: usize)
        ensures { self.new ≡ take len self.old }
    {
        if self.is_wide {
            self.wide.truncate(len);
        } else {
            self.narrow.truncate(len);
        }
    }

    /// Swaps the numbers at two indexes.
    pub fn swap(&mut self, a: usize, b: usize)
        requires a { a < length self.old }
        requires b { b < length self.old }
        ensures { self.new ≡ swap self.old a b }
    {
        if self.is_wide {
            self.wide.swap(a, b);
        } else {
            self.narrow.swap(a, b);
        }
    }
}
