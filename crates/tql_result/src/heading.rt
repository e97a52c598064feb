//! The text of headings: bare where possible, otherwise in quotes, separated by bars.
ghost use Rattle.std.specs.Prelude.{◌≡◌, ◌||◌, ◌∷◌, ◌++◌, map, string_bytes};
ghost use Rattle.std.specs.List.{flat_map, join_with_byte, list_all};
ghost use Rattle.tql_spec.specs.Calendar.{is_digit as digit_of};
ghost use Rattle.tql_spec.specs.Text.{is_upper as upper_of, is_bare as bare_of, heading_text, line};
ghost use Rattle.tql_result.specs.Devices.{Pushes, held};

use crate::device::DeviceFault;
use crate::pieces::push_all;
use crate::quoted::push_quoted;
use crate::sink::Sink;
use tql_memory::Memory;

/// Whether the byte is a letter A to Z or `_`.
fn is_upper(byte: u8) -> bool
    ensures { result ≡ upper_of byte }
{
    byte.is_ascii_uppercase() || byte == b'_'
}

/// Whether the byte is a letter A to Z, `_` or a digit.
fn is_upper_or_digit(byte: u8) -> bool
    ensures { result ≡ (upper_of byte || digit_of byte) }
{
    is_upper(byte) || byte.is_ascii_digit()
}

/// Whether all bytes are letters A to Z, `_` or digits.
fn are_upper_or_digits(bytes: &[u8]) -> bool
    ensures { result ≡ list_all (λ b. upper_of b || digit_of b) bytes.now }
{
    bytes.iter().all(|byte| is_upper_or_digit(*byte))
}

/// Whether a heading is printed without quotes: a letter A to Z or `_`, followed by such letters and digits.
fn is_bare(name: &[u8]) -> bool
    ensures { result ≡ bare_of name.now }
{
    match name.split_first() {
        None => false,
        Some((first, others)) => { is_upper(*first) && are_upper_or_digits(others) }
    }
}

/// Pushes a heading, bare or in quotes.
fn push_heading<S: Sink>(sink: &mut S, name: &str) -> Result<(), DeviceFault>
    ensures { Pushes (heading_text name.now) result
        (held S.written S.kept sink.old) (held S.written S.kept sink.new) (S.failures sink.old) (S.failures sink.new) }
{
    if is_bare(name.as_bytes()) {
        push_all(sink, name.as_bytes())
    } else {
        push_quoted(sink, b'"', name.as_bytes())
    }
}

/// Pushes a heading that is not the first, after a bar as separator.
fn push_next_heading<S: Sink>(sink: &mut S, name: &str) -> Result<(), DeviceFault>
    ensures { Pushes (124 ∷ heading_text name.now) result
        (held S.written S.kept sink.old) (held S.written S.kept sink.new) (S.failures sink.old) (S.failures sink.new) }
{
    push_all(sink, b"|")?;
    push_heading(sink, name)
}

/// Pushes headings, each after a bar.
fn push_next_headings<S: Sink>(sink: &mut S, names: &[String<Memory>]) -> Result<(), DeviceFault>
    ensures { Pushes (flat_map (λ n. 124 ∷ heading_text (string_bytes n)) names.now) result
        (held S.written S.kept sink.old) (held S.written S.kept sink.new) (S.failures sink.old) (S.failures sink.new) }
{
    for name in names {
        push_next_heading(sink, name.as_str())?;
    }
    Ok(())
}

/// Pushes headings, separated by bars.
fn push_joined<S: Sink>(sink: &mut S, names: &[String<Memory>]) -> Result<(), DeviceFault>
    ensures { Pushes (join_with_byte 124 (map heading_text (map string_bytes names.now))) result
        (held S.written S.kept sink.old) (held S.written S.kept sink.new) (S.failures sink.old) (S.failures sink.new) }
{
    match names.split_first() {
        None => Ok(()),
        Some((first, others)) => {
            push_heading(sink, first.as_str())?;
            push_next_headings(sink, others)
        }
    }
}

/// Pushes the line of the headings.
pub fn push_headings<S: Sink>(sink: &mut S, names: &[String<Memory>]) -> Result<(), DeviceFault>
    ensures { Pushes (line (join_with_byte 124 (map heading_text (map string_bytes names.now)))) result
        (held S.written S.kept sink.old) (held S.written S.kept sink.new) (S.failures sink.old) (S.failures sink.new) }
{
    push_joined(sink, names)?;
    push_all(sink, b"\n")
}
