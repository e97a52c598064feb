//! Texts that a host copies into its own memory.
ghost use Rattle.std.specs.Prelude.{◌≡◌, length};
ghost use Rattle.tql_host_cells.specs.Texts.{copied, signed, narrow};
ghost use Rattle.tql_host_cells.specs.Cells.{told_text};

use crate::requests::Told;

/// Returns a count as a signed number, or the greatest one.
pub fn signed(count: u64) -> i64
    ensures { result ≡ signed count }
{
    match i64::try_from(count) {
        Ok(number) => number,
        Err(_) => i64::MAX,
    }
}

/// Returns a count in 32 bits, or the greatest one.
pub fn narrow(count: u64) -> u32
    ensures { result ≡ narrow count }
{
    match u32::try_from(count) {
        Ok(number) => number,
        Err(_) => u32::MAX,
    }
}

/// Copies the bytes of a text from `start` on into the room, as many as fit. Returns the number of the bytes of the
/// whole text.
pub fn put(text: &[u8], start: u64, room: &mut [u8]) -> u64
    ensures whole { result ≡ length text.now }
    ensures copied { room.new ≡ copied text.now start room.old }
{
    let whole = text.len() as u64;
    if start < whole {
        let rest = &text[start as usize..];
        let count = rest.len().min(room.len());
        room[..count].copy_from_slice(&rest[..count]);
    }
    whole
}

/// Tells a text.
pub fn told_text(text: &[u8], start: u64, room: &mut [u8]) -> Told
    ensures told { result ≡ told_text text.now }
    ensures copied { room.new ≡ copied text.now start room.old }
{
    let mut told = Told::nothing();
    told.kind = 1;
    told.length = put(text, start, room);
    told
}
