//! The line of a fault, with a caret below its place.
ghost use Rattle.std.specs.Prelude.{◌≡◌, ◌++◌, IfOk, chars, length, map, take, drop, string_bytes, encode_utf8_all};
ghost use Rattle.std.specs.List.{after_first, before_first};
ghost use Rattle.tql_prompt.specs.Carets.{before_place, blanks, columns_of, cut_before, cut_behind, dots, head_of};
ghost use Rattle.tql_prompt.specs.Carets.{is_line_feed, lines_at, plain, pointed, pointed_in, row_of, row_shown};
ghost use Rattle.tql_prompt.specs.Carets.{width_in, window_of};

use itoa::Buffer;
use std::alloc::{AllocError, Global};
use unicode_width::UnicodeWidthChar;

/// Returns the first line of a text.
fn first_row(text: &str) -> &str
    ensures { result.now ≡ before_first is_line_feed text.now }
{
    match text.split_once('\n') {
        Some((row, _)) => row,
        None => text,
    }
}

/// Returns what follows the first line of a text.
fn behind_row(text: &str) -> &str
    ensures { result.now ≡ after_first is_line_feed text.now }
{
    match text.split_once('\n') {
        Some((_, rest)) => rest,
        None => "",
    }
}

/// Returns the line of a text at an index.
fn row_at(text: &str, index: usize) -> &str
    ensures { result.now ≡ row_of index text.now }
{
    let mut rest = text;
    for _ in 0..index {
        rest = behind_row(rest);
    }
    first_row(rest)
}

/// Returns the character that is shown for another: a blank for a control character.
fn plain_character(character: char) -> char
    ensures { result ≡ plain character }
{
    if character.is_control() {
        ' '
    } else {
        character
    }
}

/// Returns the width of a character as shown, in terminal columns.
fn character_columns(character: char) -> usize
    ensures { result ≡ columns_of character }
{
    plain_character(character).width().unwrap_or(0)
}

/// Returns the width of characters of a line as shown, in terminal columns: of this number of them, from an index on.
fn columns_in(row: &str, start: usize, count: usize) -> usize
    ensures { result ≡ width_in (take count (drop start (chars row.now))) }
{
    let mut columns = 0usize;
    for character in row.chars().skip(start).take(count) {
        columns = columns.saturating_add(character_columns(character));
    }
    columns
}

/// Appends characters of a line as shown: this number of them, from an index on.
fn push_characters(
    lines: &mut String,
    row: &str,
    start: usize,
    count: usize,
) -> Result<(), AllocError>
    ensures { IfOk result (λ _. string_bytes lines.new
        ≡ string_bytes lines.old ++ encode_utf8_all (map plain (take count (drop start (chars row.now))))) }
{
    for character in row.chars().skip(start).take(count) {
        lines.push(plain_character(character))?;
    }
    Ok(())
}

/// Appends blanks.
fn push_blanks(lines: &mut String, count: usize) -> Result<(), AllocError>
    ensures { IfOk result (λ _. string_bytes lines.new ≡ string_bytes lines.old ++ blanks count) }
{
    for _ in 0..count {
        lines.push_str(" ")?;
    }
    Ok(())
}

/// Appends what stands before the line of a text: its number if the text has several, and else blanks.
fn push_head(lines: &mut String, text: &str, line: u64) -> Result<(), AllocError>
    ensures { IfOk result (λ _. string_bytes lines.new ≡ string_bytes lines.old ++ head_of text.now line) }
{
    if first_row(text).len() == text.len() {
        return lines.push_str("    ");
    }
    let mut buffer = Buffer::new();
    lines.push_str("line ")?;
    lines.push_str(buffer.format(line))?;
    lines.push_str(": ")
}

/// The part of a line that is shown: this number of characters, from an index on, of all.
#[derive(Clone, Copy)]
struct Window {
    start: usize,
    count: usize,
    all: usize,
}

/// Returns the part of a line of this number of characters that is shown: all of it if there is room, and otherwise the
/// characters around an index.
fn part_around(all: usize, place: usize, room: usize) -> Window
    ensures { result ≡ window_of all place room }
{
    if all <= room {
        return Window {
            start: 0,
            count: all,
            all,
        };
    }
    Window {
        start: place.saturating_sub(room / 2),
        count: room.saturating_sub(2),
        all,
    }
}

impl Window {
    /// Whether characters before the part are left out.
    fn is_cut_before(self) -> bool
        ensures { result ≡ cut_before self }
    {
        self.start != 0
    }

    /// Whether characters after the part are left out.
    fn is_cut_behind(self) -> bool
        ensures { result ≡ cut_behind self }
    {
        self.start < self.all.saturating_sub(self.count)
    }
}

/// Appends `…` if characters are left out.
fn push_cut(lines: &mut String, is_cut: bool) -> Result<(), AllocError>
    ensures { IfOk result (λ _. string_bytes lines.new ≡ string_bytes lines.old ++ dots is_cut) }
{
    if is_cut { lines.push_str("…") } else { Ok(()) }
}

/// Appends the part of a line that is shown.
fn push_row(lines: &mut String, row: &str, window: Window) -> Result<(), AllocError>
    ensures { IfOk result (λ _. string_bytes lines.new
        ≡ string_bytes lines.old ++ row_shown (chars row.now) window) }
{
    push_cut(lines, window.is_cut_before())?;
    push_characters(lines, row, window.start, window.count)?;
    push_cut(lines, window.is_cut_behind())
}

/// Returns the width of what is shown before an index of a line, in terminal columns.
fn columns_before(row: &str, window: Window, place: usize) -> usize
    ensures { result ≡ before_place (chars row.now) window place }
{
    let columns = columns_in(row, window.start, place.saturating_sub(window.start));
    if window.is_cut_before() {
        columns.saturating_add(1)
    } else {
        columns
    }
}

/// Returns the number of characters of a line.
fn character_count(row: &str) -> usize
    ensures { result ≡ length (chars row.now) }
{
    row.chars().count()
}

/// Appends the part of a line that is shown, after `head` columns, and a caret below the character at an index.
fn push_pointed(
    lines: &mut String,
    head: usize,
    row: &str,
    window: Window,
    place: usize,
) -> Result<(), AllocError>
    ensures { IfOk result (λ _. string_bytes lines.new
        ≡ string_bytes lines.old ++ pointed head (chars row.now) window place) }
{
    push_row(lines, row, window)?;
    lines.push_str("\n")?;
    let columns = head.saturating_add(columns_before(row, window, place));
    push_blanks(lines, columns)?;
    lines.push_str("^")
}

/// Appends a line, cut to the characters around an index if a terminal of a width has no room for it after `head`
/// columns, and a caret below.
fn push_cut_row(
    lines: &mut String,
    head: usize,
    row: &str,
    place: usize,
    width: usize,
) -> Result<(), AllocError>
    ensures { IfOk result (λ _. string_bytes lines.new
        ≡ string_bytes lines.old ++ pointed_in head (chars row.now) place width) }
{
    let room = width.saturating_sub(head).saturating_sub(1);
    let window = part_around(character_count(row), place, room);
    push_pointed(lines, head, row, window, place)
}

/// Returns two lines about a place in the text of a statement: its line, after its number if the text has several
/// lines, and a caret below the character at the place. Line and column are counted from 1. A line that is wider than a
/// terminal of this width is cut to the characters around the place. The only error is a refused allocation.
pub fn caret_lines(
    alloc: Global,
    text: &str,
    line: u64,
    column: u64,
    width: usize,
) -> Result<String, AllocError>
    ensures { IfOk result (λ lines. string_bytes lines ≡ lines_at text.now line column width) }
{
    let row = row_at(text, (line as usize).saturating_sub(1));
    let place = (column as usize).saturating_sub(1);
    let mut lines = String::new(alloc);
    push_head(&mut lines, text, line)?;
    let head = lines.len();
    push_cut_row(&mut lines, head, row, place, width)?;
    Ok(lines)
}
