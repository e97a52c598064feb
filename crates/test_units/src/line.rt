//! A line of a file: `COMMAND INPUT -> ANSWER`.
use std::alloc::{AllocError, Global};

/// A line: a command, its input, and the expected answer.
#[derive(Clone, Copy)]
pub struct Line<'a> {
    pub command: &'a str,
    pub input: &'a str,
    pub wanted: &'a str,
}

/// Whether a line of a file is a test, neither empty nor a remark.
pub fn is_case(written: &str) -> bool {
    !written.is_empty() && !written.starts_with('#')
}

/// Returns the character that a mark represents.
fn meant(mark: char) -> char {
    match mark {
        '⏎' => '\n',
        '␍' => '\r',
        '⇥' => '\t',
        '␠' => ' ',
        '␛' => '\u{1b}',
        '␤' => '\u{85}',
        '␡' => '\u{7f}',
        _ => mark,
    }
}

/// Returns a text with its marks replaced by the characters that they represent.
pub fn unmarked(alloc: Global, written: &str) -> Result<String, AllocError> {
    let mut text = String::new(alloc);
    for mark in written.chars() {
        text.push(meant(mark))?;
    }
    Ok(text)
}

/// Parses a line.
pub fn line_of(text: &str) -> Option<Line<'_>> {
    let (asked, answer) = text.split_once(" ->")?;
    let (command, input) = asked.split_once(' ')?;
    Some(Line {
        command,
        input,
        wanted: answer.strip_prefix(' ').unwrap_or(answer),
    })
}
