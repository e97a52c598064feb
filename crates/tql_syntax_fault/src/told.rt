//! Messages for the place where reading a text stopped.
use crate::hints::{habit_hint, keyword_hint};
use crate::literals::literal_hint;
use crate::matching::is_plain;
use crate::places::{LITERALS, is_name_meant, is_one_of, shown_place};
use crate::slips::{end_hint, first_inside, lacks_from, slip_hint};
use std::alloc::AllocError;
use tql_detail::detail::Detail;
use tql_detail::place::Place;
use tql_detail::shown::{Words, push_shown};
use tql_lex::token::{Symbol, Token, TokenKind};
use tql_memory::Memory;
use tql_syntax::stop::{Stopped, depth_stop_of, stop_of};

/// Hints that need more context than a few tokens.
const DEEP: &str = "at most 64 parentheses may be open at once";

const QUOTED: &str = "write it in double quotes";

const FUNCTIONS: &str = "the only functions are COUNT, SUM, MIN and MAX";

pub(crate) const NO_CALL: &str = "write DATE '..' or TIMESTAMP '..', without parentheses";

const NO_TABLE: &str = "FROM and a table are missing";

/// Returns the text before this byte offset.
fn front_of(text: &str, end: usize) -> &str {
    text.get(..end).unwrap_or("")
}

/// Whether a call of an unknown function follows these tokens of a statement other than CREATE.
fn begins_call(before: &[Token<'_>], behind: &[Token<'_>]) -> bool {
    let is_call = match behind {
        [name, open, ..] => is_plain(name) && open.is_sign(Symbol::Open),
        _ => false,
    };
    let in_change = match before {
        [first, ..] => !first.is_word("CREATE"),
        [] => false,
    };
    is_call && in_change
}

/// Words after which a table's name is written.
const BEFORE_TABLES: &str = "TABLE INTO FROM JOIN UPDATE REFERENCES";

/// Returns what to write for a reserved word where a name was meant, or for DATE or TIMESTAMP written as a function.
fn hint_for_name(before: &[Token<'_>], behind: &[Token<'_>]) -> &'static str {
    let is_table = before
        .last()
        .is_some_and(|last| is_one_of(last, BEFORE_TABLES));
    match behind {
        [word, open, next, ..] if is_one_of(word, LITERALS) && open.is_sign(Symbol::Open) => {
            if matches!(next.kind, TokenKind::Quote) {
                NO_CALL
            } else if is_table {
                QUOTED
            } else {
                FUNCTIONS
            }
        }
        _ => QUOTED,
    }
}

/// Returns what to write instead, if known: by the tokens before the place where reading stopped, those from there on,
/// and the text from there on.
fn hint_for(before: &[Token<'_>], behind: &[Token<'_>], rest: &str) -> Option<&'static str> {
    if is_name_meant(before, behind) {
        return Some(hint_for_name(before, behind));
    }
    if let Some(says) = keyword_hint(before, behind) {
        return Some(says);
    }
    if let Some(says) = end_hint(before, behind) {
        return Some(says);
    }
    if let Some(says) = habit_hint(before, behind, rest) {
        return Some(says);
    }
    if begins_call(before, behind) {
        Some(FUNCTIONS)
    } else if rest.is_empty() && lacks_from(before) {
        Some(NO_TABLE)
    } else {
        slip_hint(before, behind)
    }
}

/// Adds a token to the words, and whether it is a reserved word.
fn push_token(words: &mut Words, token: &Token<'_>) -> Result<(), AllocError> {
    words.push_str("at \"")?;
    push_shown(words, token.text)?;
    words.push('"')?;
    if token.is_reserved() {
        words.push_str(" (a reserved word)")?;
    }
    Ok(())
}

/// Adds the first character of a text to the words, or that the text has ended.
fn push_character(words: &mut Words, text: &str) -> Result<(), AllocError> {
    let Some(character) = text.chars().next() else {
        return words.push_str("at the end");
    };
    words.push_str("at \"")?;
    push_shown(words, front_of(text, character.len_utf8()))?;
    words.push('"')?;
    match character {
        '\'' => words.push_str(" (the quote is not closed)"),
        '"' => words.push_str(" (the quote is not closed, or empty)"),
        _ => Ok(()),
    }
}

/// Returns the words for the place where reading stopped: at the first of these tokens or, without any, at this rest of
/// the text. The only error is a refused allocation.
fn words_of(memory: Memory, behind: &[Token<'_>], rest: &str) -> Result<Words, AllocError> {
    let mut words = String::new(memory);
    match behind {
        [token, ..] => push_token(&mut words, token)?,
        [] => push_character(&mut words, rest)?,
    }
    Ok(words)
}

/// Sets the hint that a parenthesis among these tokens is not closed, if one is open.
fn advise_close(detail: &mut Detail, tokens: &[Token<'_>]) -> Result<(), AllocError> {
    let Some(token) = first_inside(tokens) else {
        return Ok(());
    };
    let mut says = String::from_str(*detail.words.allocator(), "the parenthesis before \"")?;
    push_shown(&mut says, token.text)?;
    says.push_str("\" is not closed")?;
    detail.hint = Some(says);
    Ok(())
}

/// Sets the hint of a detail, if one is known: by the tokens before the place where reading stopped, those from there
/// on, and the text from there on.
fn advise(
    detail: &mut Detail,
    before: &[Token<'_>],
    behind: &[Token<'_>],
    rest: &str,
) -> Result<(), AllocError> {
    let memory = *detail.words.allocator();
    match hint_for(before, behind, rest) {
        Some(says) => match literal_hint(memory, says, behind, rest)? {
            Some(exact) => {
                detail.hint = Some(exact);
                Ok(())
            }
            None => detail.advise(says),
        },
        None if rest.is_empty() => advise_close(detail, before),
        None => Ok(()),
    }
}

/// Returns the detail for a text at which reading stopped, at the token with this index.
fn detail_at(memory: Memory, text: &str, stopped: &Stopped<'_>, place: usize) -> Option<Detail> {
    let tokens = stopped.front.tokens.as_slice();
    let before = tokens.get(..place).unwrap_or(&[]);
    let behind = tokens.get(place..).unwrap_or(&[]);
    let start = match behind {
        [token, ..] => token.start,
        [] => stopped.front.broken.unwrap_or(text.len()),
    };
    let rest = text.get(start..).unwrap_or("");
    let mut detail = Detail::of(words_of(memory, behind, rest).ok()?);
    detail.place = Some(Place::behind(front_of(text, start).as_bytes()));
    if stopped.is_deep && place == stopped.read {
        detail.advise(DEEP).ok()?;
    } else {
        advise(&mut detail, before, behind, rest).ok()?;
    }
    Some(detail)
}

/// Returns the detail of a complete text that is refused as not a statement: where reading stopped, and for habits from
/// other systems what to write instead. None if an allocation is refused.
pub fn syntax_detail(memory: Memory, text: &[u8]) -> Option<Detail> {
    let text = str::from_utf8(text).ok()?;
    let stopped = stop_of(memory, text)?;
    let place = shown_place(&stopped);
    detail_at(memory, text, &stopped, place)
}

/// Returns the detail of a complete text that is refused as nested too deep: the 65th parenthesis that is open at once.
/// None if there is none, or if an allocation is refused.
pub fn depth_detail(memory: Memory, text: &[u8]) -> Option<Detail> {
    let text = str::from_utf8(text).ok()?;
    let stopped = depth_stop_of(memory, text)?;
    detail_at(memory, text, &stopped, stopped.read)
}
