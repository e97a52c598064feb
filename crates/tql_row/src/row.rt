//! A row of a table, packed into bytes.
//!
//! The bytes of a row begin with the number of its columns: one byte if there are fewer than 255, else the byte 255 and
//! eight bytes, the lowest first. The cells of the columns follow (see `cell`), one after another. A reader skips the
//! cells before the one that it needs.
ghost use Rattle.std.specs.Prelude.{◌≡◌, ◌≤◌, ◌<◌, ◌^◌, [], IfOk, length, map, slice_index_or};
ghost use Rattle.tql_spec.specs.Datum.{Null};
ghost use Rattle.tql_spec.specs.Definition.{cell};
ghost use Rattle.tql_value.specs.Views.{datum_of_view, datum_of_value};
ghost use Rattle.tql_row.specs.Cells.{IsRow, cells_part, row_of, width_of};

use crate::cell::{eight, next, read};
use crate::writing::{Bytes, packed};
use smallvec::SmallVec;
use std::alloc::AllocError;
use std::marker::Model;
use tql_memory::Memory;
use tql_value::value::{Value, View};

/// A row of a table. Its model is the list of its values.
pub struct Row {
    bytes: Bytes,
}

impl Model for Row {
    ghost use Rattle.tql_spec.specs.Datum as pure;
    ghost use Rattle.tql_row.specs.Cells.{IsRow, row_of};

    ghost Value = { pure.Row };

    ghost view = { λ r. row_of r.bytes.items };

    ghost invariant = { λ r. IsRow r.bytes.items };
}

impl Drop for Row {
    fn drop(self) {
        let Row { bytes } = self;
        drop(bytes);
    }
}

/// Returns the number of columns of a row with these bytes.
#[inline]
fn width(bytes: &[u8]) -> usize
    requires { IsRow bytes.now }
    ensures { result ≡ width_of bytes.now }
{
    if bytes[0] < 255 {
        bytes[0] as usize
    } else {
        eight(bytes) as usize
    }
}

/// Returns the cells of a row with these bytes.
#[inline]
fn cells(bytes: &[u8]) -> &[u8]
    requires { IsRow bytes.now }
    ensures { result.now ≡ cells_part bytes.now }
{
    if bytes[0] < 255 {
        &bytes[1..]
    } else {
        &bytes[9..]
    }
}

/// Returns the value in a column of a row with these bytes, or NULL past the last column.
#[inline]
fn column(bytes: &[u8], place: usize) -> View<'_>
    requires { IsRow bytes.now }
    ensures { datum_of_view result ≡ slice_index_or (row_of bytes.now) place Null }
{
    if width(bytes) <= place {
        return View::Null;
    }
    let mut rest = cells(bytes);
    for _ in 0..place {
        rest = next(rest);
    }
    read(rest)
}

/// Returns views of these values.
fn views_of<'a>(
    memory: Memory,
    values: &'a [Value],
) -> Result<SmallVec<View<'a>, 8, Memory>, AllocError>
    ensures { IfOk result (λ views. map datum_of_view views.items ≡ map datum_of_value values.now) }
{
    let mut views = SmallVec::with_capacity(memory, values.len())?;
    for value in values {
        views.push(value.view())?;
    }
    Ok(views)
}

impl Row {
    /// Returns the row without columns. Allocates no memory.
    pub fn empty(memory: Memory) -> Row
        ensures { result ≡ [] }
    {
        let mut bytes = SmallVec::new(memory);
        bytes.push_reserved(0);
        Row { bytes }
    }

    /// Returns a row of these values. Fails only if out of memory.
    pub fn of_values(memory: Memory, values: &[Value]) -> Result<Row, AllocError>
        ensures { IfOk result (λ r. r ≡ map datum_of_value values.now) }
    {
        let views = views_of(memory, values)?;
        Row::of(memory, views.as_slice())
    }

    /// Returns a row of these values. Fails only if out of memory.
    pub fn of(memory: Memory, values: &[View<'_>]) -> Result<Row, AllocError>
        ensures { IfOk result (λ r. r ≡ map datum_of_view values.now) }
    {
        Ok(Row {
            bytes: packed(memory, values)?,
        })
    }

    /// Returns the number of columns. There is at least one byte for each.
    pub fn width(&self) -> usize
        ensures value { result ≡ length self.now }
        ensures small { result < 2 ^ 63 }
    {
        width(self.bytes.as_slice())
    }

    /// Returns the value of a column, or NULL past the last one. Allocates no memory.
    #[inline]
    pub fn column(&self, place: usize) -> View<'_>
        ensures { datum_of_view result ≡ cell self.now place }
    {
        column(self.bytes.as_slice(), place)
    }
}

impl Clone for Row {
    ghost use Rattle.std.specs.Prelude.{◌≡◌};

    ghost is_clone = { λ s t. t ≡ s };

    fn clone(&self) -> Result<Row, AllocError> {
        Ok(Row {
            bytes: SmallVec::from_slice(*self.bytes.allocator(), self.bytes.as_slice())?,
        })
    }
}
