//! JSON strings: texts in quotes, with the necessary escapes.
ghost use Rattle.std.specs.Prelude.{◌≡◌, ◌<◌, ◌||◌, ◌==◌, ◌∷◌, ◌++◌, nat_lt, IfSome, MatchOption, length, position};
ghost use Rattle.std.specs.List.{flat_map};
ghost use Rattle.tql_result_laws.specs.Json.{hex_digit as hex_digit_of, control, escaped, string};
ghost use Rattle.tql_result.specs.Devices.{Pushes, held};
ghost use Rattle.tql_result_forms.specs.Escapes.{has_escape as escape_of};

use tql_result::device::DeviceFault;
use tql_result::pieces::push_all;
use tql_result::sink::Sink;

/// Returns a hexadecimal digit.
fn hex_digit(digit: u8) -> u8
    requires { digit < 16 }
    ensures { result ≡ hex_digit_of digit }
{
    if digit < 10 {
        b'0' + digit
    } else {
        b'a' + (digit - 10)
    }
}

/// Returns the escape of a control byte.
fn control_bytes(byte: u8) -> [u8; 6]
    ensures { result ≡ control byte }
{
    [
        b'\\',
        b'u',
        b'0',
        b'0',
        hex_digit(byte / 16),
        hex_digit(byte % 16),
    ]
}

/// Whether a byte is escaped: a quote, a backslash, or a control byte.
fn has_escape(byte: u8) -> bool
    ensures { result ≡ escape_of byte }
{
    byte == b'"' || byte == b'\\' || byte < 32
}

/// Returns the index of the first byte that needs an escape, if any.
fn first_place(text: &[u8]) -> Option<usize>
    ensures place { result ≡ position escape_of text.now }
    ensures within { IfSome result (λ i. i < length text.now) }
{
    text.iter().position(|byte| has_escape(*byte))
}

/// Returns the part before the first byte that needs an escape, that byte, and the part after it.
fn parts_at_escape(text: &[u8]) -> Option<(&[u8], u8, &[u8])>
    ensures parts { MatchOption result (flat_map escaped text.now ≡ text.now)
        (λ p. flat_map escaped text.now ≡ p.0.now ++ (escaped p.1 ++ flat_map escaped p.2.now)) }
    ensures shorter { IfSome result (λ p. length p.2.now < length text.now) }
{
    let place = first_place(text)?;
    let (front, back) = text.split_at(place);
    Some((front, back[0], &back[1..]))
}

/// Pushes a byte of a string, escaped if necessary.
fn push_escaped<S: Sink>(sink: &mut S, byte: u8) -> Result<(), DeviceFault>
    ensures { Pushes (escaped byte) result
        (held S.written S.kept sink.old) (held S.written S.kept sink.new) (S.failures sink.old) (S.failures sink.new) }
{
    if byte == b'"' || byte == b'\\' {
        push_all(sink, &[b'\\', byte])
    } else if byte < 32 {
        push_all(sink, &control_bytes(byte))
    } else {
        push_all(sink, &[byte])
    }
}

/// Pushes the bytes of a string, escaped where necessary.
fn push_escapes<S: Sink>(sink: &mut S, text: &[u8]) -> Result<(), DeviceFault>
    ensures { Pushes (flat_map escaped text.now) result
        (held S.written S.kept sink.old) (held S.written S.kept sink.new) (S.failures sink.old) (S.failures sink.new) }
{
    let mut rest = text;
    while let Some((front, byte, back)) = parts_at_escape(rest) {
        push_all(sink, front)?;
        push_escaped(sink, byte)?;
        rest = back;
    }
    push_all(sink, rest)
}

/// Pushes a text as a JSON string.
pub(crate) fn push_string<S: Sink>(sink: &mut S, text: &[u8]) -> Result<(), DeviceFault>
    ensures { Pushes (string text.now) result
        (held S.written S.kept sink.old) (held S.written S.kept sink.new) (S.failures sink.old) (S.failures sink.new) }
{
    push_all(sink, b"\"")?;
    push_escapes(sink, text)?;
    push_all(sink, b"\"")
}
