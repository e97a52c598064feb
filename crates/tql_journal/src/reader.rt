//! Reads a file as a journal, in parts.
ghost use Rattle.std.specs.Prelude.{◌≡◌, ◌≤◌, ℕ, IfOk, IsFalse, List, length};
ghost use Rattle.std.specs.List.{prefix_len};
ghost use Rattle.tql_journal_laws.specs.Bytes.{Begins};
ghost use Rattle.tql_journal.specs.Seals.{head};
ghost use Rattle.tql_journal.specs.Reading.{IsReadOf, IsOf, IsHeadless, IsHeadRest, IsRestOf, is_damaged};
ghost use Rattle.tql_journal.specs.Reading.{is_digit, is_line, begins_line, has_line};

use crate::entries::take_entries;
use crate::found::{Found, Rest};
use crate::front::strip;
use crate::seal::{DIGITS, HEAD, Seal};
use crate::window::Window;
use std::alloc::{AllocError, AllocFailed};
use std::io::{self, Read};
use tql_memory::Memory;

/// Why a file was not read as far as needed.
#[derive(Debug, Drop)]
pub enum ReadFault {
    /// An allocation failed.
    Memory(AllocError),
    /// A read failed.
    Device(io::Error),
}

/// Counts the digits at the front.
fn digits_length(bytes: &[u8]) -> usize
    ensures value { result ≡ prefix_len is_digit bytes.now }
    ensures within { result ≤ length bytes.now }
{
    bytes
        .iter()
        .take_while(|byte| matches!(**byte, b'0'..=b'9' | b'a'..=b'f'))
        .count()
}

/// Whether the bytes begin with 64 digits and a line feed.
fn is_line(bytes: &[u8]) -> bool
    ensures { result ≡ is_line bytes.now }
{
    digits_length(bytes) == DIGITS && bytes.len() > DIGITS && bytes[DIGITS] == b'\n'
}

/// Whether the bytes begin with a line feed and a line like that of a statement.
fn begins_line(bytes: &[u8]) -> bool
    ensures { result ≡ begins_line bytes.now }
{
    match strip(bytes, b"\n-- ") {
        Some(line) => is_line(line),
        None => false,
    }
}

/// Whether a line like that of a statement is among these bytes.
fn has_line(bytes: &[u8]) -> bool
    ensures { result ≡ has_line bytes.now }
{
    for index in 0..bytes.len() {
        if begins_line(&bytes[index..]) {
            return true;
        }
    }
    false
}

/// Returns what a file is that begins with these bytes and not with the first line.
fn rest_without_head(bytes: &[u8]) -> Rest
    ensures { IsHeadRest bytes.now result }
{
    if bytes.is_empty() {
        return Rest::Nothing;
    }
    match strip(HEAD, bytes) {
        Some(_) => Rest::Torn,
        None => Rest::Damaged,
    }
}

/// Returns what is found in a file that begins with these bytes and not with the first line.
fn without_head(bytes: &[u8], size: u64) -> Found
    requires { Begins head bytes.now → ⊥ }
    ensures size { result.size ≡ size }
    ensures found { (sought : List ℕ) → IsHeadless sought bytes.now result }
    ensures short { IsFalse (is_damaged result.rest) → length bytes.now ≤ 17 }
{
    Found {
        seal: Seal::new(),
        end: 0,
        statements: 0,
        lines: 0,
        last: None,
        has_line: false,
        rest: rest_without_head(bytes),
        size,
    }
}

/// Returns what is found in a file of which only the first line is read.
fn after_head() -> Found
    ensures end { result.end ≡ 17 }
    ensures statements { result.statements ≡ 0 }
    ensures lines { result.lines ≡ 1 }
    ensures is { (sought : List ℕ) → IsOf sought head result }
{
    Found {
        seal: Seal::new(),
        end: HEAD.len() as u64,
        statements: 0,
        lines: 1,
        last: None,
        has_line: false,
        rest: Rest::Nothing,
        size: 0,
    }
}

/// Returns what follows the journal in a file that ends with these bytes, which are a beginning of a statement.
fn rest_of(bytes: &[u8]) -> Rest
    ensures { IsRestOf bytes.now result }
{
    if bytes.is_empty() {
        Rest::Nothing
    } else if has_line(bytes) {
        Rest::Damaged
    } else {
        Rest::Torn
    }
}

/// Reads a file from its beginning to its end, or to what shows that it was changed. `sought` is the line to look up,
/// in 64 hexadecimal digits in lower case. It keeps at most 1,114,182 bytes of the file in memory.
///
/// # Errors
///
/// `Memory` if these cannot be allocated, `Device` if a read fails or the file has more than 2^63 - 1 bytes.
pub fn read_journal<R: Read>(
    reader: &mut R,
    memory: Memory,
    sought: &[u8],
) -> Result<Found, ReadFault>
    ensures { IfOk result (λ found. IsReadOf (R.remaining reader.old) (R.remaining reader.new) sought.now found) }
{
    let mut window = Window::new(memory)?;
    let mut is_ended = window.fill(reader)?;
    let Some(_) = strip(window.view(), HEAD) else {
        return Ok(without_head(window.view(), window.total()));
    };
    window.skip(HEAD.len());
    let mut found = after_head();
    let mut may_go_on = take_entries(&mut found, &mut window, sought);
    while may_go_on && !is_ended {
        is_ended = window.fill(reader)?;
        may_go_on = take_entries(&mut found, &mut window, sought);
    }
    found.size = window.total();
    found.rest = if may_go_on {
        rest_of(window.view())
    } else {
        Rest::Damaged
    };
    Ok(found)
}

impl From<AllocError> for ReadFault {
    ghost from_gives = { λ _ _. Rattle.std.specs.Prelude.⊤ };

    fn from(error: AllocError) -> ReadFault {
        ReadFault::Memory(error)
    }
}

impl From<io::Error> for ReadFault {
    ghost from_gives = { λ _ _. Rattle.std.specs.Prelude.⊤ };

    fn from(error: io::Error) -> ReadFault {
        ReadFault::Device(error)
    }
}
