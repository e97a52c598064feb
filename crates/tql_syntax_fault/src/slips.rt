//! Slips that are found by more than a few tokens: parentheses, commas and semicolons that are missing or too many.
use crate::matching::{begin_with, is_name, is_plain};
use crate::places::{LITERALS, are_create, ends_operand, is_one_of, is_type};
use tql_lex::token::{Symbol, Token, TokenKind};

/// Hints for a symbol that is missing or too many.
const NOT_OPEN: &str = "no parenthesis is open";

const COMMA: &str = "a comma is missing before it";

const COMPARED_TWICE: &str = "write two comparisons with AND";

const SEMICOLON: &str = "is a ; missing before it?";

const TWICE: &str = "write a quote inside a text twice";

/// Returns the number of parentheses that are open after these tokens.
fn open_count(tokens: &[Token<'_>]) -> usize {
    let mut count = 0usize;
    for token in tokens {
        if token.is_sign(Symbol::Open) {
            count = count.saturating_add(1);
        } else if token.is_sign(Symbol::Close) {
            count = count.saturating_sub(1);
        }
    }
    count
}

/// The tokens with which a statement begins. Words that are no reserved words may be names too, so those have a second
/// token, except for COMMIT and ROLLBACK.
static BEGINNINGS: &[&str] = &[
    "SELECT",
    "INSERT INTO",
    "UPDATE _",
    "DELETE FROM",
    "CREATE TABLE",
    "DROP TABLE",
    "START TRANSACTION",
    "COMMIT",
    "ROLLBACK",
    "AT TIMESTAMP",
    "PRUNE HISTORY",
    "OPEN READER",
    "CLOSE READER",
    "READ _ SELECT",
];

/// Whether a statement begins with these tokens.
fn begin_statement(tokens: &[Token<'_>]) -> bool {
    for beginning in BEGINNINGS {
        if begin_with(tokens, beginning) {
            return true;
        }
    }
    false
}

/// Whether these are the tokens of a query without FROM, with READ before it or not.
pub(crate) fn lacks_from(tokens: &[Token<'_>]) -> bool {
    let is_query = match tokens {
        [read, _, select, ..] if read.is_word("READ") => select.is_word("SELECT"),
        [first, ..] => first.is_word("SELECT"),
        [] => false,
    };
    is_query && !tokens.iter().any(|token| token.is_word("FROM"))
}

/// Whether these are the tokens of a COMMIT or a ROLLBACK.
fn are_end(tokens: &[Token<'_>]) -> bool {
    match tokens {
        [first] => is_one_of(first, "COMMIT ROLLBACK"),
        [first, second] => is_one_of(first, "COMMIT ROLLBACK") && second.is_word("WORK"),
        _ => false,
    }
}

/// Whether a statement may end with these tokens. CREATE TABLE ends with a parenthesis or VERSIONING.
fn may_end(tokens: &[Token<'_>]) -> bool {
    let Some(last) = tokens.last() else {
        return false;
    };
    if open_count(tokens) != 0 || lacks_from(tokens) {
        return false;
    }
    if are_create(tokens) {
        last.is_sign(Symbol::Close) || last.is_word("VERSIONING")
    } else {
        ends_operand(last) || last.is_word("NULL")
    }
}

/// Whether a word follows a text in quotes at once, as in `'O'Neil`.
fn is_touching(before: &[Token<'_>], behind: &[Token<'_>]) -> bool {
    match (before, behind) {
        ([.., text], [word, ..]) => {
            matches!(text.kind, TokenKind::Quote)
                && is_plain(word)
                && text.start.saturating_add(text.text.len()) == word.start
        }
        _ => false,
    }
}

/// Whether a value of a row begins with these tokens.
fn begin_value(tokens: &[Token<'_>]) -> bool {
    match tokens {
        [word, text, ..] if is_one_of(word, LITERALS) => matches!(text.kind, TokenKind::Quote),
        [token, ..] => {
            is_plain(token)
                || token.is_word("NULL")
                || matches!(token.kind, TokenKind::Number | TokenKind::Quote)
        }
        [] => false,
    }
}

/// Whether a comma is missing between two values of a row.
fn lacks_value_comma(before: &[Token<'_>], behind: &[Token<'_>]) -> bool {
    let ends_value = match before.last() {
        Some(last) => ends_operand(last) || last.is_word("NULL"),
        None => false,
    };
    ends_value
        && before.iter().any(|token| token.is_word("VALUES"))
        && open_count(before) != 0
        && begin_value(behind)
}

/// Whether a comma is missing between two columns of CREATE TABLE.
fn lacks_column_comma(before: &[Token<'_>], behind: &[Token<'_>]) -> bool {
    let ends_column = match before.last() {
        Some(last) => is_type(last) || last.is_sign(Symbol::Close) || last.is_word("NULL"),
        None => false,
    };
    let is_column = match behind {
        [name, kind, ..] => is_name(name) && is_type(kind),
        _ => false,
    };
    ends_column && is_column && are_create(before) && open_count(before) != 0
}

/// Whether a token compares two operands.
fn is_comparison(token: &Token<'_>) -> bool {
    match token.kind {
        TokenKind::Sign(symbol) => matches!(
            symbol,
            Symbol::EqualSign
                | Symbol::UnequalSign
                | Symbol::LessSign
                | Symbol::AtMostSign
                | Symbol::MoreSign
                | Symbol::AtLeastSign
        ),
        _ => false,
    }
}

/// Whether a comparison is compared again.
fn is_compared_twice(before: &[Token<'_>], behind: &[Token<'_>]) -> bool {
    match (before, behind) {
        ([.., sign, operand], [next, ..]) => {
            is_comparison(sign) && ends_operand(operand) && is_comparison(next)
        }
        _ => false,
    }
}

/// Returns the token after the last parenthesis that is not closed, if there is one.
pub(crate) fn first_inside<'a>(tokens: &'a [Token<'a>]) -> Option<&'a Token<'a>> {
    let mut closed = 0usize;
    let mut following: Option<&Token<'_>> = None;
    for token in tokens.iter().rev() {
        if token.is_sign(Symbol::Close) {
            closed = closed.saturating_add(1);
        } else if token.is_sign(Symbol::Open) {
            if closed == 0 {
                return following;
            }
            closed = closed.saturating_sub(1);
        }
        following = Some(token);
    }
    None
}

/// Returns the question for a missing semicolon, if a statement begins after a COMMIT or a ROLLBACK.
pub(crate) fn end_hint(before: &[Token<'_>], behind: &[Token<'_>]) -> Option<&'static str> {
    if are_end(before) && begin_statement(behind) {
        Some(SEMICOLON)
    } else {
        None
    }
}

/// Returns what is missing or too many at the place where reading stopped, if known: by the tokens before the place and
/// those from there on.
pub(crate) fn slip_hint(before: &[Token<'_>], behind: &[Token<'_>]) -> Option<&'static str> {
    let is_close = behind
        .first()
        .is_some_and(|token| token.is_sign(Symbol::Close));
    if is_close && open_count(before) == 0 {
        Some(NOT_OPEN)
    } else if is_touching(before, behind) {
        Some(TWICE)
    } else if lacks_value_comma(before, behind) || lacks_column_comma(before, behind) {
        Some(COMMA)
    } else if is_compared_twice(before, behind) {
        Some(COMPARED_TWICE)
    } else if may_end(before) && begin_statement(behind) {
        Some(SEMICOLON)
    } else {
        None
    }
}
