//! The token of a refused text that is shown: usually the one at which reading stopped, or the one before it.
use crate::matching::{is_name, is_near, is_plain};
use tql_lex::token::{Symbol, Token, TokenKind};
use tql_syntax::stop::Stopped;

/// Whether an operand may end with this token.
pub(crate) fn ends_operand(token: &Token<'_>) -> bool {
    match token.kind {
        TokenKind::Word => !token.is_reserved() && !token.is_word("OF"),
        TokenKind::QuotedName | TokenKind::Number | TokenKind::Quote => true,
        TokenKind::Sign(symbol) => matches!(symbol, Symbol::Close | Symbol::Star),
    }
}

/// Whether an operand may begin with this token.
fn begins_operand(token: &Token<'_>) -> bool {
    match token.kind {
        TokenKind::Word => !token.is_reserved(),
        TokenKind::QuotedName | TokenKind::Number | TokenKind::Quote => true,
        TokenKind::Sign(symbol) => matches!(symbol, Symbol::Open),
    }
}

/// Whether a token is one of these words.
pub(crate) fn is_one_of(token: &Token<'_>, words: &str) -> bool {
    for word in words.split(' ') {
        if token.is_word(word) {
            return true;
        }
    }
    false
}

/// The column types of this system, and those of other systems.
const TYPES: &str = "INTEGER INT BIGINT VARCHAR DATE TIMESTAMP";

const OTHER_TYPES: &str =
    "SMALLINT TINYINT TEXT CHAR CHARACTER DECIMAL NUMERIC FLOAT REAL DOUBLE BOOLEAN BOOL DATETIME SERIAL";

/// Whether a token is a type, here or in other systems.
pub(crate) fn is_type(token: &Token<'_>) -> bool {
    is_one_of(token, TYPES) || is_one_of(token, OTHER_TYPES)
}

/// The reserved words with which literals begin.
pub(crate) const LITERALS: &str = "DATE TIMESTAMP";

/// The reserved words with which aggregates begin.
const AGGREGATES: &str = "COUNT SUM MIN MAX";

/// Words that begin other elements of CREATE TABLE in other systems. Here they are read as a column's name.
const ELEMENTS: &str = "INDEX KEY LIKE FULLTEXT SPATIAL";

/// Whether these are the tokens of a CREATE statement.
pub(crate) fn are_create(tokens: &[Token<'_>]) -> bool {
    tokens.first().is_some_and(|first| first.is_word("CREATE"))
}

/// Whether an element of CREATE TABLE, or a member of one of its lists, may begin after these tokens.
fn begins_element(before: &[Token<'_>]) -> bool {
    let is_behind = match before.last() {
        Some(last) => last.is_sign(Symbol::Open) || last.is_sign(Symbol::Comma),
        None => false,
    };
    is_behind && are_create(before)
}

/// Whether a column of CREATE TABLE begins here with a reserved word and a type.
fn is_reserved_column(before: &[Token<'_>], behind: &[Token<'_>]) -> bool {
    match behind {
        [word, kind, ..] => { word.is_reserved() && is_type(kind) && begins_element(before) }
        _ => false,
    }
}

/// Whether the token with which an operand begins is continued: a literal by its text, which may lack its quotes or
/// have double ones; an aggregate or a period by a parenthesis.
fn goes_on(word: &Token<'_>, next: Option<&Token<'_>>) -> bool {
    let Some(next) = next else {
        return false;
    };
    if is_one_of(word, LITERALS) {
        matches!(
            next.kind,
            TokenKind::Quote | TokenKind::Number | TokenKind::QuotedName
        )
    } else {
        next.is_sign(Symbol::Open)
    }
}

/// Whether a reserved word with which an operand begins is not continued. In CREATE TABLE, DATE and TIMESTAMP after a
/// column's name are types, MAX may be a length, and PERIOD begins an element.
fn is_bare_beginning(before: &[Token<'_>], behind: &[Token<'_>]) -> bool {
    let [word, rest @ ..] = behind else {
        return false;
    };
    let is_created = are_create(before);
    let is_kind = is_created && before.last().is_some_and(|last| is_name(last));
    let is_length = matches!(before, [.., kind, _] if kind.is_word("VARCHAR"));
    let is_beginning = is_one_of(word, LITERALS) && !is_kind
        || is_one_of(word, AGGREGATES) && !is_length
        || word.is_word("PERIOD") && !is_created;
    is_beginning && !before.is_empty() && !goes_on(word, rest.first())
}

/// Whether the reserved word that follows the tokens `before` was meant as a name.
pub(crate) fn is_name_meant(before: &[Token<'_>], behind: &[Token<'_>]) -> bool {
    is_reserved_column(before, behind) || is_bare_beginning(before, behind)
}

/// Whether a word was read as a column's name of CREATE TABLE, but begins another element in other systems.
fn is_element(before: &[Token<'_>], behind: &[Token<'_>]) -> bool {
    match behind {
        [word, next, ..] => {
            is_one_of(word, ELEMENTS) && !is_type(next) && begins_element(before)
        }
        _ => false,
    }
}

/// Whether a word before a text was probably meant as TIMESTAMP.
fn is_literal_meant(word: &Token<'_>, next: &Token<'_>) -> bool {
    matches!(next.kind, TokenKind::Quote) && is_plain(word) && is_near(word.text, "TIMESTAMP")
}

/// Whether a statement that sets the clock begins with these words.
fn is_clock(word: &Token<'_>, next: &Token<'_>) -> bool {
    word.is_word("AT") && next.is_word("TIMESTAMP")
}

/// Whether a word before a `(` was read as a name, or a word between two operands as an alias of the first. BY is like
/// the second operand.
fn is_alias(last: &Token<'_>, behind: &[Token<'_>]) -> bool {
    match behind {
        [word, next, ..] if is_literal_meant(word, next) => true,
        [word, next, ..] if is_clock(word, next) => ends_operand(last),
        [word, open, ..] if is_plain(word) && open.is_sign(Symbol::Open) => !last.is_word("OF"),
        [word, next, ..] => {
            ends_operand(last)
                && is_plain(word)
                && !is_one_of(word, "ASC DESC")
                && (begins_operand(next) || next.is_word("BY"))
        }
        _ => false,
    }
}

/// Whether an operand may be at the end of these tokens or after them. Statements about transactions, the clock, the
/// horizon and readers begin with words that are not reserved, and have no operand before a reserved one.
fn may_have_operands(tokens: &[Token<'_>]) -> bool {
    tokens.iter().any(|token| token.is_reserved())
}

/// Whether reading stopped one token late, after the first token of `behind`.
fn is_late(before: &[Token<'_>], behind: &[Token<'_>]) -> bool {
    let Some(last) = before.last() else {
        return false;
    };
    if are_create(before) {
        return is_element(before, behind)
            || matches!(behind, [word, open, ..] if is_plain(word) && open.is_sign(Symbol::Open));
    }
    may_have_operands(before) && is_alias(last, behind)
}

/// Returns the index of the token that is shown, among those of the text.
///
/// A word may have been read as an alias of what precedes it, as `FRM` in `SELECT x FRM t`. Then the word is shown
/// instead of the token after it. So is a reserved word where a name was meant. If no token begins at the place, as at
/// `@`, the name before it is not blamed.
pub(crate) fn shown_place(stopped: &Stopped<'_>) -> usize {
    let tokens = stopped.front.tokens.as_slice();
    let Some(place) = stopped.read.checked_sub(1) else {
        return stopped.read;
    };
    let before = tokens.get(..place).unwrap_or(&[]);
    let behind = tokens.get(place..).unwrap_or(&[]);
    let is_broken = stopped.front.broken.is_some() && stopped.read == tokens.len();
    let is_meant = !is_broken && is_name_meant(before, behind);
    if is_meant || is_late(before, behind) {
        place
    } else {
        stopped.read
    }
}
