//! The words at an offset of a statement's text: a name, a literal, or a call of an aggregate.
use std::alloc::AllocError;
use tql_detail::shown::Words;
use tql_memory::Memory;

/// Whether a byte belongs to a name or a number.
fn is_plain(byte: u8) -> bool {
    byte.is_ascii_alphanumeric() || byte == b'_' || byte == b'.' || 0x80 <= byte
}

/// Whether the words continue at this position, outside of quotes and parentheses: with a name or a number, with a sign
/// before it, or with the text of a literal as in `DATE '2024-01-01'`.
fn goes_on(text: &[u8], place: usize, byte: u8) -> bool {
    let is_sign = place == 0 && (byte == b'-' || byte == b'+');
    let is_literal = byte == b' ' && text.get(place.saturating_add(1)) == Some(&b'\'');
    is_plain(byte) || is_sign || is_literal
}

/// Returns the length of the words at the start of a text.
fn length_of(text: &[u8]) -> usize {
    let mut depth = 0usize;
    let mut quote = 0u8;
    for (place, byte) in text.iter().enumerate() {
        let byte = *byte;
        if quote != 0 {
            if byte == quote {
                quote = 0;
            }
        } else if byte == b'\'' || byte == b'"' {
            quote = byte;
        } else if byte == b'(' {
            depth = depth.saturating_add(1);
        } else if byte == b')' && 1 < depth {
            depth -= 1;
        } else if byte == b')' && depth == 1 {
            return place.saturating_add(1);
        } else if depth == 0 && !goes_on(text, place, byte) {
            return place;
        }
    }
    text.len()
}

/// Returns the part of a statement's text from an offset on.
pub fn text_from(text: &str, offset: u32) -> &str {
    match usize::try_from(offset) {
        Ok(offset) => text.get(offset..).unwrap_or(""),
        Err(_) => "",
    }
}

/// Returns the words at an offset. An operand without an offset is a SYSTEM_TIME without a table before it.
pub fn piece(text: &str, offset: u32) -> &str {
    if offset == 0 {
        return "SYSTEM_TIME";
    }
    let rest = text_from(text, offset);
    rest.get(..length_of(rest.as_bytes())).unwrap_or(rest)
}

/// Returns the part of a statement's text after the words at an offset.
pub fn text_after(text: &str, offset: u32) -> &str {
    let rest = text_from(text, offset);
    rest.get(length_of(rest.as_bytes())..).unwrap_or("")
}

/// Whether a character cannot be part of a name.
pub fn is_between_words(character: char) -> bool {
    !(character.is_ascii_alphanumeric() || character == '_')
}

/// Whether a character cannot be part of a name with its table before it.
fn is_apart(character: char) -> bool {
    is_between_words(character) && character != '.'
}

/// Whether a text has this name as a word, without a dot before or after it. The case of letters does not matter.
pub fn has_word(text: &str, name: &str) -> bool {
    for word in text.split(is_apart) {
        if word.eq_ignore_ascii_case(name) {
            return true;
        }
    }
    false
}

/// Returns the part of a name after its qualifier, as in `table.column`.
pub fn last_name(piece: &str) -> &str {
    match piece.split_once('.') {
        Some((_, name)) => name,
        None => piece,
    }
}

/// Returns the decoded name: a word in upper case, or the content of double quotes. The only error is a refused
/// allocation.
pub fn meant(memory: Memory, name: &str) -> Result<Words, AllocError> {
    match name.strip_prefix('"') {
        Some(name) => String::from_str(memory, name.strip_suffix('"').unwrap_or(name)),
        None => name.chars().map(|c| c.to_ascii_uppercase()).collect(memory),
    }
}

/// Whether a name must be written in double quotes: it is not a word in upper case. Reserved words are not known here.
pub fn is_quoted_name(name: &str) -> bool {
    let mut is_first = true;
    for byte in name.bytes() {
        let is_letter = byte.is_ascii_uppercase() || byte == b'_';
        if !(is_letter || (!is_first && byte.is_ascii_digit())) {
            return true;
        }
        is_first = false;
    }
    is_first
}
