//! The places of values in the text of a statement, and the text in which their literals are.
//!
//! A place is a `?` outside of quotes and comments. The grammar has no parameters: the engine reads the text that is
//! made here. Each literal is between two blanks, so it joins no neighbour. It is one value, whatever the value holds.
ghost use Rattle.std.specs.Prelude.{◌≡◌, ◌++◌, ◌<◌, All, IfOk, IfSome, List, length, map};
ghost use Rattle.tql_spec.specs.Script as script;
ghost use Rattle.tql_splitter.specs.Cutting.{state_of};
ghost use Rattle.tql_value.specs.Points.{IsPrintable};
ghost use Rattle.tql_value.specs.Views.{datum_of_view};
ghost use Rattle.tql_places.specs.Places.{Fills, GoesOn, filled, first_from, is_place, places, spaced};

use std::alloc::{AllocError, AllocFailed};
use tql_literal::literal::literal;
use tql_memory::Memory;
use tql_splitter::scan_state::{ScanState, can_end, state_after};
use tql_value::value::View;

/// Why a text was not filled.
#[derive(Clone, Copy, PartialEq, Eq, Debug)]
pub enum Unfilled {
    /// There is no memory.
    OutOfMemory,
    /// There are more or fewer values than places.
    WrongNumber,
    /// Some bytes are no values.
    NoValues,
}

impl From<AllocError> for Unfilled {
    ghost use Rattle.std.specs.Prelude.{◌≡◌};
    ghost use Rattle.tql_places.specs.declared.places.Unfilled.TheVariants.{OutOfMemory};

    ghost from_gives = { λ _ e. e ≡ OutOfMemory };

    fn from(_error: AllocError) -> Self {
        Unfilled::OutOfMemory
    }
}

impl<T: Drop> From<AllocFailed<T>> for Unfilled {
    ghost use Rattle.std.specs.Prelude.{◌≡◌};
    ghost use Rattle.tql_places.specs.declared.places.Unfilled.TheVariants.{OutOfMemory};

    ghost from_gives = { λ _ e. e ≡ OutOfMemory };

    fn from(_failed: AllocFailed<T>) -> Self {
        Unfilled::OutOfMemory
    }
}

/// Whether a byte is the place of a value.
fn is_place(state: ScanState, byte: u8) -> bool
    ensures { result ≡ is_place (state_of state) byte }
{
    byte == b'?' && can_end(state)
}

/// Returns the number of places in a text.
pub fn places(text: &[u8]) -> usize
    ensures { result ≡ places text.now }
{
    let mut count = 0;
    let mut state = ScanState::Outside;
    for byte in text {
        if is_place(state, *byte) {
            count += 1;
        }
        state = state_after(state, *byte);
    }
    count
}

/// Returns the number of bytes before the first place.
fn first_place(text: &[u8]) -> Option<usize>
    ensures value { result ≡ first_from script.Outside text.now }
    ensures within { IfSome result (λ n. n < length text.now) }
{
    let mut state = ScanState::Outside;
    for (index, byte) in text.iter().enumerate() {
        if is_place(state, *byte) {
            return Some(index);
        }
        state = state_after(state, *byte);
    }
    None
}

/// Appends the literal of a value between blanks.
fn push_spaced(
    bytes: &mut Vec<u8, Memory>,
    memory: Memory,
    value: View<'_>,
) -> Result<(), AllocError>
    requires { IsPrintable (datum_of_view value) }
    ensures { IfOk result (λ _. bytes.new.items ≡ bytes.old.items ++ spaced (datum_of_view value.entry)) }
{
    let text = literal(memory, value)?;
    bytes.extend_from_slice(b" ")?;
    bytes.extend_from_slice(text.as_bytes())?;
    bytes.extend_from_slice(b" ")
}

/// Appends a text up to its first place, and there the literal of a value. Returns what follows the place.
fn push_value<'a>(
    bytes: &mut Vec<u8, Memory>,
    memory: Memory,
    text: &'a [u8],
    value: View<'_>,
) -> Result<&'a [u8], AllocError>
    requires { IsPrintable (datum_of_view value) }
    ensures { IfOk result (λ rest. GoesOn text.now (datum_of_view value.entry) bytes.old.items bytes.new.items
        rest.now) }
{
    let Some(place) = first_place(text) else {
        return Ok(text);
    };
    let (before, behind) = text.split_at(place);
    bytes.extend_from_slice(before)?;
    push_spaced(bytes, memory, value)?;
    Ok(&behind[1..])
}

/// Appends a text with the literals of values in its places.
fn push_filled(
    bytes: &mut Vec<u8, Memory>,
    memory: Memory,
    text: &[u8],
    values: &[View<'_>],
) -> Result<(), AllocError>
    requires { All (λ v. IsPrintable (datum_of_view v)) values.now }
    ensures { IfOk result (λ _. bytes.new.items ≡ bytes.old.items ++ filled text.now (map datum_of_view values.now)) }
{
    let mut rest = text;
    for value in values {
        rest = push_value(bytes, memory, rest, *value)?;
    }
    bytes.extend_from_slice(rest)?;
    Ok(())
}

/// Returns the text with the literal of the n-th value, between blanks, in the place of its n-th `?`. Each date and
/// each timestamp has to be in the years 1 to 9999.
///
/// # Errors
///
/// `WrongNumber` if there are more or fewer values than places, and `OutOfMemory`.
pub fn fill(memory: Memory, text: &[u8], values: &[View<'_>]) -> Result<Vec<u8, Memory>, Unfilled>
    requires { All (λ v. IsPrintable (datum_of_view v)) values.now }
    ensures { Fills text.now (map datum_of_view values.now) result }
{
    if places(text) != values.len() {
        return Err(Unfilled::WrongNumber);
    }
    let mut filled = Vec::new(memory);
    push_filled(&mut filled, memory, text, values)?;
    Ok(filled)
}
