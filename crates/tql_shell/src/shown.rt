//! Words of the command line as a line shows them.
ghost use Rattle.std.specs.Prelude.{◌≡◌};
ghost use Rattle.tql_shell.specs.Showing.{shown_as};

use std::alloc::{AllocError, Global};
use std::fmt;

/// Returns the character that a line shows for another: itself, or `?` for a control character.
fn shown_character(character: char) -> char
    ensures { result ≡ shown_as character }
{
    match character {
        '\0'..='\u{1f}' | '\u{7f}'..='\u{9f}' => '?',
        _ => character,
    }
}

/// A word in a line, with `?` in place of each of its control characters.
#[derive(Clone, Copy)]
pub struct Shown<'a>(pub &'a str);

impl fmt::Display for Shown<'_> {
    fn fmt<W: fmt::Write>(&self, f: &mut fmt::Formatter<W>) -> fmt::Result {
        for character in self.0.chars() {
            f.write_char(shown_character(character))?;
        }
        Ok(())
    }
}

/// Returns a word as a line shows it. The only error is a refused allocation.
fn shown_word(alloc: Global, word: &str) -> Result<String, AllocError> {
    let mut text = String::new(alloc);
    for character in word.chars() {
        text.push(shown_character(character))?;
    }
    Ok(text)
}

/// Returns words as a line shows them. The only error is a refused allocation.
pub fn shown_words(alloc: Global, words: &[String]) -> Result<Vec<String>, AllocError> {
    let mut texts = Vec::new(alloc);
    for word in words {
        texts.push(shown_word(alloc, word.as_str())?)?;
    }
    Ok(texts)
}
