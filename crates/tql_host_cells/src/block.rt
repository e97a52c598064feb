//! Blocks: the cells of a column in one piece of memory.
ghost use Rattle.std.specs.Prelude.{◌≡◌, ◌+◌, ◌-◌, ◌*◌, ◌^◌, ◌<◌, ◌≤◌, ◌∷◌, [], ◌++◌, min, length, drop, if◌then◌else◌};
ghost use Rattle.std.specs.Prelude.{nat_le};
ghost use Rattle.std.specs.Int.{w64, to_le_bytes};
ghost use Rattle.tql_value.specs.Views.{datum_of_view, rows_of};
ghost use Rattle.tql_host_cells.specs.Texts.{over};
ghost use Rattle.tql_host_cells.specs.Cells.{kind_number, text_in};
ghost use Rattle.tql_host_cells.specs.Block.{below_most, block, column_of, kinds, number_at, numbers, texts};

use crate::cells::cell_of;
use tql_memory::Memory;
use tql_value::value::{Value, View};

/// Returns the bytes of a cell's text.
fn text_of(cell: View<'_>) -> &[u8]
    ensures { result.now ≡ text_in (datum_of_view cell.entry) }
{
    match cell {
        View::Text(text) => text.as_bytes(),
        _ => b"",
    }
}

/// Returns the number of the kind of a cell.
fn kind_of(cell: View<'_>) -> u8
    ensures { result ≡ kind_number (datum_of_view cell.entry) }
{
    match cell {
        View::Null => 0,
        View::Int(_) => 1,
        View::Text(_) => 2,
        View::Day(_) => 3,
        View::Moment(_) => 4,
    }
}

/// Returns the number of a cell in 8 bytes, the lowest first. For a text it is `end`.
fn number_of(cell: View<'_>, end: u64) -> [u8; 8]
    ensures { result ≡ to_le_bytes w64 (number_at end (datum_of_view cell.entry)) }
{
    match cell {
        View::Null => 0u64.to_le_bytes(),
        View::Int(number) | View::Day(number) | View::Moment(number) => number.to_le_bytes(),
        View::Text(_) => end.to_le_bytes(),
    }
}

/// Returns the number of bytes of the texts of a column, if it is below 2^64.
fn text_bytes(rows: &[Vec<Value, Memory>], column: usize) -> Option<usize>
    ensures { result ≡ below_most (length (texts (column_of column (rows_of rows.now)))) }
{
    let mut bytes = 0usize;
    for row in rows {
        bytes = bytes.checked_add(text_of(cell_of(row, column)).len())?;
    }
    Some(bytes)
}

/// Returns the number of bytes of the block of a column, if it is below 2^64.
fn block_bytes(rows: &[Vec<Value, Memory>], column: usize) -> Option<usize>
    ensures { result ≡ below_most (length (block (column_of column (rows_of rows.now)))) }
{
    let front = rows.len().checked_mul(9)?;
    front.checked_add(text_bytes(rows, column)?)
}

/// Writes bytes over those from `at` on. Returns the place behind them.
fn put_at(bytes: &[u8], at: usize, room: &mut [u8]) -> usize
    requires { at + length bytes.now ≤ length room.old }
    ensures end { result ≡ at + length bytes.now }
    ensures put { room.new ≡ over bytes.now at room.old }
{
    let end = at + bytes.len();
    room[at..end].copy_from_slice(bytes);
    end
}

/// Writes the numbers of a column's cells. Returns the place behind them.
fn put_numbers(rows: &[Vec<Value, Memory>], column: usize, room: &mut [u8]) -> usize
    requires room { length (numbers 0 (column_of column (rows_of rows.now))) ≤ length room.old }
    requires texts { length (texts (column_of column (rows_of rows.now))) < 2 ^ 64 }
    ensures end { result ≡ length (numbers 0 (column_of column (rows_of rows.now))) }
    ensures put { room.new ≡ over (numbers 0 (column_of column (rows_of rows.now))) 0 room.old }
{
    let mut at = 0usize;
    let mut end = 0u64;
    for row in rows {
        let cell = cell_of(row, column);
        end += text_of(cell).len() as u64;
        at = put_at(&number_of(cell, end), at, room);
    }
    at
}

/// Writes the kinds of a column's cells from `start` on. Returns the place behind them.
fn put_kinds(rows: &[Vec<Value, Memory>], column: usize, start: usize, room: &mut [u8]) -> usize
    requires { start + length (kinds (column_of column (rows_of rows.now))) ≤ length room.old }
    ensures end { result ≡ start + length (kinds (column_of column (rows_of rows.now))) }
    ensures put { room.new ≡ over (kinds (column_of column (rows_of rows.now))) start room.old }
{
    let mut at = start;
    for row in rows {
        at = put_at(&[kind_of(cell_of(row, column))], at, room);
    }
    at
}

/// Writes the texts of a column's cells from `start` on.
fn put_texts(rows: &[Vec<Value, Memory>], column: usize, start: usize, room: &mut [u8])
    requires { start + length (texts (column_of column (rows_of rows.now))) ≤ length room.old }
    ensures { room.new ≡ over (texts (column_of column (rows_of rows.now))) start room.old }
{
    let mut at = start;
    for row in rows {
        at = put_at(text_of(cell_of(row, column)), at, room);
    }
}

/// Writes the cells of a column: for each row 8 bytes of its number, little-endian (for a text, where its bytes end
/// among those of all texts), then for each row 1 byte of its kind, then the bytes of the texts. Writes nothing if the
/// room is smaller. Returns the number of bytes that are needed, or the greatest number.
pub fn put_block(rows: &[Vec<Value, Memory>], column: usize, room: &mut [u8]) -> u64
    ensures needed { result ≡ min (2 ^ 64 - 1) (length (block (column_of column (rows_of rows.now)))) }
    ensures put { room.new ≡ (if nat_le (length (block (column_of column (rows_of rows.now)))) (length room.old)
        then block (column_of column (rows_of rows.now))
        ++ drop (length (block (column_of column (rows_of rows.now)))) room.old
        else room.old) }
{
    match block_bytes(rows, column) {
        Some(needed) => {
            if needed <= room.len() {
                let kinds = put_numbers(rows, column, room);
                let texts = put_kinds(rows, column, kinds, room);
                put_texts(rows, column, texts, room);
            }
            needed as u64
        }
        None => u64::MAX,
    }
}
