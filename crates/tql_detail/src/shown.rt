//! Texts of a statement as they are shown in a line.
use std::alloc::AllocError;
use tql_memory::Memory;

/// The words of a line under construction.
pub type Words = String<Memory>;

/// The maximum number of characters of a text that are shown.
const MOST_SHOWN: usize = 40;

/// Returns the character as shown in a line: itself, or `?` for a control character, which a terminal might interpret.
fn shown(character: char) -> char {
    match character {
        '\0'..='\u{1f}' | '\u{7f}'..='\u{9f}' => '?',
        _ => character,
    }
}

/// Appends a text as shown: its first 40 characters, and two dots if there are more.
pub fn push_shown(words: &mut Words, text: &str) -> Result<(), AllocError> {
    let mut left = MOST_SHOWN;
    for character in text.chars() {
        if left == 0 {
            words.push_str("..")?;
            break;
        }
        words.push(shown(character))?;
        left -= 1;
    }
    Ok(())
}

/// Appends `before`, then a text as shown.
pub fn push_behind(words: &mut Words, before: &str, text: &str) -> Result<(), AllocError> {
    words.push_str(before)?;
    push_shown(words, text)
}
