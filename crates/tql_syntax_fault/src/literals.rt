//! The literal that was probably meant where a moment, a day or a point of a period is required. A literal is only
//! offered if it means the same as what was written.
use crate::hints::{DAY, MOMENT, POINT};
use crate::places::{LITERALS, is_one_of};
use crate::told::NO_CALL;
use std::alloc::AllocError;
use tql_detail::shown::{Words, push_shown};
use tql_lex::token::{Token, TokenKind};
use tql_memory::Memory;
use tql_value::literal::{read_date, read_timestamp};

/// Returns the text between two marks.
fn text_between(text: &str, mark: char) -> Option<&str> {
    text.strip_prefix(mark)?.strip_suffix(mark)
}

/// Whether a character is not part of a date or a time.
fn ends_time(character: char) -> bool {
    !(character.is_ascii_digit() || matches!(character, '-' | ':' | '.' | ' '))
}

/// Returns the date or the time with which a text begins, without quotes.
fn bare_time(text: &str) -> &str {
    let time = match text.split_once(ends_time) {
        Some((time, _)) => time,
        None => text,
    };
    time.trim_end()
}

/// Returns the date or the time that is written at a place: in quotes, with DATE or TIMESTAMP before them or not, or
/// without quotes. `behind` are the tokens from the place on, and `rest` is the text from there on.
fn written<'a>(behind: &[Token<'a>], rest: &'a str) -> Option<&'a str> {
    let token = match behind {
        [word, text, ..] if is_one_of(word, LITERALS) => text,
        [first, ..] => first,
        [] => return None,
    };
    match token.kind {
        TokenKind::Quote => text_between(token.text, '\''),
        TokenKind::QuotedName => text_between(token.text, '"'),
        TokenKind::Number => Some(bare_time(rest)),
        _ => None,
    }
}

/// Returns how to write DATE or TIMESTAMP that was called as a function. The only error is a refused allocation.
fn call_hint(memory: Memory, behind: &[Token<'_>]) -> Result<Option<Words>, AllocError> {
    match behind {
        [word, _, text, ..] if matches!(text.kind, TokenKind::Quote) => {
            let mut says = String::from_str(memory, "write ")?;
            push_shown(&mut says, word.text)?;
            says.push(' ')?;
            push_shown(&mut says, text.text)?;
            says.push_str(", without parentheses")?;
            Ok(Some(says))
        }
        _ => Ok(None),
    }
}

/// Returns the hint `says` with the literal that was probably meant, if the hint asks for a moment, a day or a point of
/// a period, and one is written at the place in another form; or a literal is called as a function. The only error is
/// a refused allocation.
pub(crate) fn literal_hint(
    memory: Memory,
    says: &str,
    behind: &[Token<'_>],
    rest: &str,
) -> Result<Option<Words>, AllocError> {
    if says == NO_CALL {
        return call_hint(memory, behind);
    }
    let text = written(behind, rest).unwrap_or("");
    let is_day = read_date(text).is_some();
    let is_moment = read_timestamp(text).is_some();
    if is_day && (says == DAY || says == POINT) {
        Ok(Some(format!(in memory; "write DATE '{text}'")?))
    } else if is_moment && (says == MOMENT || says == POINT) {
        Ok(Some(format!(in memory; "write TIMESTAMP '{text}'")?))
    } else if is_day && says == MOMENT {
        Ok(Some(format!(in memory; "write TIMESTAMP '{text} 00:00:00'")?))
    } else {
        Ok(None)
    }
}
