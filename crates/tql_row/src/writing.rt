//! Packs values into the bytes of a row: `row` and `cell` describe these bytes.
ghost use Rattle.std.specs.Prelude.{◌≡◌, ◌≤◌, ◌<◌, ◌++◌, ◌∷◌, List, ℕ, OnOk, IfOk, length, map};
ghost use Rattle.std.specs.Int.{w16, to_le_bytes};
ghost use Rattle.tql_spec.specs.Datum.{Null, Text};
ghost use Rattle.tql_value.specs.Views.{datum_of_view};
ghost use Rattle.tql_row.specs.Cells.{datum_of_number, front_of_row, front_of_text, Adds, IsPacked, IsWritten};

use smallvec::SmallVec;
use std::alloc::AllocError;
use tql_memory::Memory;
use tql_value::value::View;

/// The bytes of a row: 40 hold three whole numbers and a text of 20 bytes, and make a row of 64 bytes. More are in an
/// allocation.
pub(crate) type Bytes = SmallVec<u8, 40, Memory>;

/// Appends the number of columns of a row.
fn put_width(bytes: &mut Bytes, width: usize) -> Result<(), AllocError>
    ensures { OnOk result (bytes.new.items ≡ bytes.old.items ++ front_of_row width) }
{
    if width < 255 {
        return put(bytes, width as u8, &[]);
    }
    put(bytes, 255, &(width as u64).to_le_bytes())
}

/// Appends a tag and the bytes after it, one by one, which costs less than a copy of a few bytes.
#[inline]
fn put(bytes: &mut Bytes, tag: u8, rest: &[u8]) -> Result<(), AllocError>
    ensures { OnOk result (bytes.new.items ≡ bytes.old.items ++ tag ∷ rest.now) }
{
    bytes.reserve(rest.len() + 1)?;
    bytes.push_reserved(tag);
    for byte in rest {
        bytes.push_reserved(*byte);
    }
    Ok(())
}

/// Appends the cell of a number of one byte.
#[tactic(auto, using(crate::proofs::CellLemmas::adds_one))]
fn put_one(bytes: &mut Bytes, kind: u8, number: i8) -> Result<(), AllocError>
    requires { kind ≤ 3 }
    ensures { OnOk result (Adds bytes.old.items bytes.new.items (datum_of_number kind number)) }
{
    put(bytes, kind * 16 + 1, &[number.cast_unsigned()])
}

/// Appends the cell of a number of two bytes.
#[tactic(auto, using(crate::proofs::CellLemmas::adds_two))]
fn put_two(bytes: &mut Bytes, kind: u8, number: i16) -> Result<(), AllocError>
    requires { kind ≤ 3 }
    ensures { OnOk result (Adds bytes.old.items bytes.new.items (datum_of_number kind number)) }
{
    put(bytes, kind * 16 + 2, &number.to_le_bytes())
}

/// Appends the cell of a number of four bytes.
#[tactic(auto, using(crate::proofs::CellLemmas::adds_four))]
fn put_four(bytes: &mut Bytes, kind: u8, number: i32) -> Result<(), AllocError>
    requires { kind ≤ 3 }
    ensures { OnOk result (Adds bytes.old.items bytes.new.items (datum_of_number kind number)) }
{
    put(bytes, kind * 16 + 4, &number.to_le_bytes())
}

/// Appends the cell of a number of eight bytes.
#[tactic(auto, using(crate::proofs::CellLemmas::adds_eight))]
fn put_eight(bytes: &mut Bytes, kind: u8, number: i64) -> Result<(), AllocError>
    requires { kind ≤ 3 }
    ensures { OnOk result (Adds bytes.old.items bytes.new.items (datum_of_number kind number)) }
{
    put(bytes, kind * 16 + 8, &number.to_le_bytes())
}

/// Appends the cell of a number of a kind, in the fewest bytes that can represent it.
fn put_number(bytes: &mut Bytes, kind: u8, number: i64) -> Result<(), AllocError>
    requires { kind ≤ 3 }
    ensures { OnOk result (Adds bytes.old.items bytes.new.items (datum_of_number kind number)) }
{
    if let Ok(small) = i8::try_from(number) {
        return put_one(bytes, kind, small);
    }
    if let Ok(small) = i16::try_from(number) {
        return put_two(bytes, kind, small);
    }
    if let Ok(small) = i32::try_from(number) {
        return put_four(bytes, kind, small);
    }
    put_eight(bytes, kind, number)
}

/// Appends the cell of NULL.
#[tactic(auto, using(crate::proofs::CellLemmas::adds_null))]
fn put_null(bytes: &mut Bytes) -> Result<(), AllocError>
    ensures { OnOk result (Adds bytes.old.items bytes.new.items Null) }
{
    put(bytes, 0, &[])
}

/// Appends the tag and the length of the cell of a text.
fn put_length(bytes: &mut Bytes, length: usize) -> Result<(), AllocError>
    ensures { OnOk result (bytes.new.items ≡ bytes.old.items ++ front_of_text length) }
{
    if let Ok(length) = u8::try_from(length) {
        return put(bytes, 64, &[length]);
    }
    put(bytes, 65, &(length as u64).to_le_bytes())
}

/// Appends the cell of a text.
#[tactic(auto, using(crate::proofs::CellLemmas::adds_text))]
fn put_text(bytes: &mut Bytes, text: &str) -> Result<(), AllocError>
    ensures { OnOk result (Adds bytes.old.items bytes.new.items (Text text.now)) }
{
    put_length(bytes, text.len())?;
    bytes.extend_from_slice(text.as_bytes())
}

/// Appends the cell of a value.
fn put_value(bytes: &mut Bytes, value: View<'_>) -> Result<(), AllocError>
    ensures { OnOk result (Adds bytes.old.items bytes.new.items (datum_of_view value.entry)) }
{
    match value {
        View::Null => put_null(bytes),
        View::Int(number) => put_number(bytes, 1, number),
        View::Day(day) => put_number(bytes, 2, day),
        View::Moment(moment) => put_number(bytes, 3, moment),
        View::Text(text) => put_text(bytes, text),
    }
}

/// Appends the cells of values.
fn put_each(bytes: &mut Bytes, values: &[View<'_>]) -> Result<(), AllocError>
    ensures { OnOk result (IsWritten bytes.old.items (map datum_of_view values.now) bytes.new.items) }
{
    for value in values {
        put_value(bytes, *value)?;
    }
    Ok(())
}

/// Returns the number of bytes of the cell of a number.
fn number_size(number: i64) -> usize {
    // The bits of the number without the copies of its sign, but one.
    let bits = 65 - (number ^ (number >> 63)).leading_zeros();
    match bits {
        0..=8 => 2,
        9..=16 => 3,
        17..=32 => 5,
        _ => 9,
    }
}

/// Returns the number of bytes of the cell of a value.
fn cell_size(value: View<'_>) -> usize {
    match value {
        View::Null => 1,
        View::Int(number) => number_size(number),
        View::Day(day) => number_size(day),
        View::Moment(moment) => number_size(moment),
        View::Text(text) => text
            .len()
            .saturating_add(if text.len() < 256 { 2 } else { 9 }),
    }
}

/// Returns the number of bytes of a row of these values, so that a row is made in an allocation of just its size.
fn row_size(values: &[View<'_>]) -> usize {
    let mut size = if values.len() < 255 { 1usize } else { 9 };
    for value in values {
        size = size.saturating_add(cell_size(*value));
    }
    size
}

/// Returns the bytes of a row of these values. Fails only if out of memory.
pub(crate) fn packed(memory: Memory, values: &[View<'_>]) -> Result<Bytes, AllocError>
    ensures { IfOk result (λ bytes. IsPacked (map datum_of_view values.now) bytes.items) }
{
    let mut bytes = SmallVec::with_capacity(memory, row_size(values))?;
    put_width(&mut bytes, values.len())?;
    put_each(&mut bytes, values)?;
    Ok(bytes)
}
