//! Values as shown in a box, and their widths in terminal columns.
ghost use Rattle.std.specs.Prelude.{◌≡◌, ◌<◌, true, length};
ghost use Rattle.std.specs.Char.{is_control};
ghost use Rattle.std.specs.Fmt.{signed_decimal};
ghost use Rattle.tql_spec.specs.Datum.{Day, Moment};
ghost use Rattle.tql_spec.specs.Text.{cell_text};
ghost use Rattle.tql_result_laws.specs.Json.{hex_digit as hex_digit_of};
ghost use Rattle.tql_result_box.specs.Box.{control_escape, shown_character, character_width as width_of, visible};
ghost use Rattle.tql_result_box.specs.Box.{text_width as text_width_of, shown, value_width as value_width_of};
ghost use Rattle.tql_value.specs.Views.{datum_of_view};
ghost use Rattle.tql_value.specs.Points.{IsMoment, IsPrintable};
ghost use Rattle.tql_result.specs.Devices.{Pushes, held};

use itoa::Buffer;
use tql_result::device::DeviceFault;
use tql_result::number::push_int;
use tql_result::pieces::push_all;
use tql_result::point::{push_day, push_moment};
use tql_result::sink::Sink;
use tql_value::calendar::moment_parts;
use tql_value::value::View;
use unicode_width::UnicodeWidthChar;

/// Returns a hexadecimal digit.
fn hex_digit(digit: u8) -> u8
    requires { digit < 16 }
    ensures { result ≡ hex_digit_of digit }
{
    if digit < 10 {
        b'0' + digit
    } else {
        b'a' + (digit - 10)
    }
}

/// Returns the escape of a control character, given its number.
fn escape_bytes(number: u8) -> [u8; 6]
    ensures { result ≡ control_escape number }
{
    [
        b'\\',
        b'u',
        b'{',
        hex_digit(number / 16),
        hex_digit(number % 16),
        b'}',
    ]
}

/// Pushes a control character as `\n`, `\r`, `\t`, or by its number, for example `\u{1b}`.
fn push_control<S: Sink>(sink: &mut S, character: char) -> Result<(), DeviceFault>
    requires { is_control character ≡ true }
    ensures { Pushes (shown_character character) result
        (held S.written S.kept sink.old) (held S.written S.kept sink.new) (S.failures sink.old) (S.failures sink.new) }
{
    match character {
        '\n' => push_all(sink, b"\\n"),
        '\r' => push_all(sink, b"\\r"),
        '\t' => push_all(sink, b"\\t"),
        _ => push_all(sink, &escape_bytes(character as u8)),
    }
}

/// Pushes a character as shown: itself, or the escape of a control character.
fn push_character<S: Sink>(sink: &mut S, character: char) -> Result<(), DeviceFault>
    ensures { Pushes (shown_character character) result
        (held S.written S.kept sink.old) (held S.written S.kept sink.new) (S.failures sink.old) (S.failures sink.new) }
{
    if character.is_control() {
        push_control(sink, character)
    } else {
        push_all(sink, character.encode_utf8(&mut [0; 4]).as_bytes())
    }
}

/// Pushes a text as shown, with each control character escaped.
fn push_text<S: Sink>(sink: &mut S, text: &str) -> Result<(), DeviceFault>
    ensures { Pushes (visible text.now) result
        (held S.written S.kept sink.old) (held S.written S.kept sink.new) (S.failures sink.old) (S.failures sink.new) }
{
    for character in text.chars() {
        push_character(sink, character)?;
    }
    Ok(())
}

/// Pushes a value as shown: `NULL`, a number in decimal, a text without quotes, a date, or a timestamp.
pub fn push_shown<S: Sink>(sink: &mut S, cell: View<'_>) -> Result<(), DeviceFault>
    requires { IsPrintable (datum_of_view cell) }
    ensures { Pushes (shown (datum_of_view cell.entry)) result
        (held S.written S.kept sink.old) (held S.written S.kept sink.new) (S.failures sink.old) (S.failures sink.new) }
{
    match cell {
        View::Null => push_all(sink, b"NULL"),
        View::Int(number) => push_int(sink, number),
        View::Text(text) => push_text(sink, text),
        View::Day(day) => push_day(sink, day),
        View::Moment(moment) => push_moment(sink, b' ', moment),
    }
}

/// Returns the width of the escape of a control character, in terminal columns.
fn control_width(character: char) -> usize
    requires { is_control character ≡ true }
    ensures { result ≡ length (shown_character character) }
{
    match character {
        '\n' | '\r' | '\t' => 2,
        _ => 6,
    }
}

/// Returns the width of a character as shown, in terminal columns.
fn character_width(character: char) -> usize
    ensures { result ≡ width_of character }
{
    if character.is_control() {
        control_width(character)
    } else {
        character.width().unwrap_or(0)
    }
}

/// Returns the width of a text as shown, in terminal columns; at most 2^64 - 1.
pub fn text_width(text: &str) -> usize
    ensures { result ≡ text_width_of text.now }
{
    let mut width = 0usize;
    for character in text.chars() {
        width = width.saturating_add(character_width(character));
    }
    width
}

/// Returns the length of a number in decimal digits, including its sign.
fn int_width(number: i64) -> usize
    ensures { result ≡ length (signed_decimal number) }
{
    Buffer::new().format(number).len()
}

/// Returns the length of `YYYY-MM-DD HH:MM:SS`, including the fraction of the second unless it is zero.
fn moment_width(moment: i64) -> usize
    requires { IsMoment moment }
    ensures { result ≡ length (cell_text (Moment moment)) }
{
    if moment_parts(moment).microsecond == 0 {
        19
    } else {
        26
    }
}

/// Returns the width of a value as shown, in terminal columns.
pub fn value_width(cell: View<'_>) -> usize
    requires { IsPrintable (datum_of_view cell) }
    ensures { result ≡ value_width_of (datum_of_view cell.entry) }
{
    match cell {
        View::Null => 4,
        View::Int(number) => int_width(number),
        View::Text(text) => text_width(text),
        View::Day(_) => 10,
        View::Moment(moment) => moment_width(moment),
    }
}
