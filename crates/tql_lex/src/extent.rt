//! Finding the first token of some bytes.
ghost use Rattle.std.specs.Prelude.{◌≡◌, ◌≤◌, ◌<◌, ◌+◌, ◌^◌, ◌==◌, false, length, IfSome};
ghost use Rattle.std.specs.List.{prefix_len};
ghost use Rattle.tql_spec.specs.Calendar as calendar;
ghost use Rattle.tql_spec.specs.Token as token;
ghost use Rattle.tql_spec.specs.FirstToken as spec;
ghost use Rattle.tql_lex.specs.Reading.{reading_of, start_view};
ghost use Rattle.tql_lex.specs.Tokens.{symbol_of};

use crate::token::{Symbol, TokenKind};

/// Whether a byte is an ASCII letter or `_`.
pub(crate) fn is_letter(byte: u8) -> bool
    ensures { result ≡ token.is_letter byte }
{
    (65 <= byte && byte <= 90) || (97 <= byte && byte <= 122) || byte == 95
}

/// Whether a byte is an ASCII digit.
pub(crate) fn is_digit(byte: u8) -> bool
    ensures { result ≡ calendar.is_digit byte }
{
    b'0' <= byte && byte <= b'9'
}

/// Whether a byte is a letter, a digit or `_`.
pub(crate) fn is_word_byte(byte: u8) -> bool
    ensures { result ≡ token.is_word_byte byte }
{
    is_letter(byte) || is_digit(byte)
}

/// The kind of token that a byte may begin.
#[derive(Clone, Copy)]
pub(crate) enum Start {
    Letter,
    Digit,
    Quote,
    Name,
    Less,
    More,
    Minus,
    Single(Symbol),
    Nothing,
}

/// Classifies a byte that is a symbol by itself, whatever follows it; `Nothing` for any other byte.
fn single_start(byte: u8) -> Start
    ensures { start_view result ≡ spec.symbol_start byte }
{
    match byte {
        b'(' => Start::Single(Symbol::Open),
        b')' => Start::Single(Symbol::Close),
        b',' => Start::Single(Symbol::Comma),
        b'.' => Start::Single(Symbol::Dot),
        b'+' => Start::Single(Symbol::PlusSign),
        b'*' => Start::Single(Symbol::Star),
        b'=' => Start::Single(Symbol::EqualSign),
        _ => Start::Nothing,
    }
}

/// Classifies a byte by the kind of token that it may begin.
fn start_of(byte: u8) -> Start
    ensures { start_view result ≡ spec.start_of byte }
{
    if is_letter(byte) {
        return Start::Letter;
    }
    if is_digit(byte) {
        return Start::Digit;
    }
    match byte {
        b'\'' => Start::Quote,
        b'"' => Start::Name,
        b'<' => Start::Less,
        b'>' => Start::More,
        b'-' => Start::Minus,
        _ => single_start(byte),
    }
}

/// A token's kind, and its length in bytes.
#[derive(Clone, Copy)]
pub(crate) struct Extent {
    pub(crate) kind: TokenKind,
    pub(crate) length: usize,
}

/// Whether there is a first byte, and it is `wanted`.
fn begins_with(wanted: u8, bytes: &[u8]) -> bool
    ensures { result ≡ spec.begins (λ b. b == wanted) bytes.now }
{
    match bytes {
        [first, ..] => *first == wanted,
        [] => false,
    }
}

/// Whether there is a first byte, and it is a letter or `_`.
fn begins_with_letter(bytes: &[u8]) -> bool
    ensures { result ≡ spec.begins token.is_letter bytes.now }
{
    match bytes {
        [first, ..] => is_letter(*first),
        [] => false,
    }
}

/// Counts the letters, digits and `_` at the front.
fn word_length(bytes: &[u8]) -> usize
    ensures value { result ≡ prefix_len token.is_word_byte bytes.now }
    ensures within { result ≤ length bytes.now }
{
    bytes.iter().take_while(|byte| is_word_byte(**byte)).count()
}

/// Counts the digits at the front.
fn digits_length(bytes: &[u8]) -> usize
    ensures value { result ≡ prefix_len calendar.is_digit bytes.now }
    ensures within { result ≤ length bytes.now }
{
    bytes.iter().take_while(|byte| is_digit(**byte)).count()
}

/// Counts the bytes after an opening quote, up to and including the closing one; None where the quote is not closed.
fn quote_end(quote: u8, bytes: &[u8]) -> Option<usize>
    ensures value { result ≡ spec.quote_end quote false bytes.now }
    ensures within { IfSome result (λ n. n ≤ length bytes.now) }
{
    let mut again = false;
    for (index, byte) in bytes.iter().enumerate() {
        if !again {
            again = *byte == quote;
        } else if *byte == quote {
            again = false;
        } else {
            return Some(index);
        }
    }
    if again { Some(bytes.len()) } else { None }
}

fn sign(symbol: Symbol, length: usize) -> Option<Extent>
    ensures { reading_of result ≡ Some (spec.SignSort (symbol_of symbol), length) }
{
    Some(Extent {
        kind: TokenKind::Sign(symbol),
        length,
    })
}

fn number(behind: &[u8]) -> Option<Extent>
    ensures { reading_of result ≡ spec.read_from spec.DigitStart behind.now }
{
    let digits = digits_length(behind);
    let (_, rest) = behind.split_at(digits);
    if begins_with_letter(rest) {
        return None;
    }
    Some(Extent {
        kind: TokenKind::Number,
        length: digits + 1,
    })
}

fn quote(behind: &[u8]) -> Option<Extent>
    ensures { reading_of result ≡ spec.read_from spec.QuoteStart behind.now }
{
    let end = quote_end(b'\'', behind)?;
    Some(Extent {
        kind: TokenKind::Quote,
        length: end + 1,
    })
}

fn quoted_name(behind: &[u8]) -> Option<Extent>
    ensures { reading_of result ≡ spec.read_from spec.NameStart behind.now }
{
    let end = quote_end(b'"', behind)?;
    if end == 1 {
        return None;
    }
    Some(Extent {
        kind: TokenKind::QuotedName,
        length: end + 1,
    })
}

fn less(behind: &[u8]) -> Option<Extent>
    ensures { reading_of result ≡ spec.read_less behind.now }
{
    if begins_with(b'=', behind) {
        sign(Symbol::AtMostSign, 2)
    } else if begins_with(b'>', behind) {
        sign(Symbol::UnequalSign, 2)
    } else {
        sign(Symbol::LessSign, 1)
    }
}

fn more(behind: &[u8]) -> Option<Extent>
    ensures { reading_of result ≡ spec.read_more behind.now }
{
    if begins_with(b'=', behind) {
        sign(Symbol::AtLeastSign, 2)
    } else {
        sign(Symbol::MoreSign, 1)
    }
}

fn minus(behind: &[u8]) -> Option<Extent>
    ensures { reading_of result ≡ spec.read_minus behind.now }
{
    if begins_with(b'-', behind) {
        None
    } else {
        sign(Symbol::MinusSign, 1)
    }
}

/// Returns the first token of these bytes; None where they do not begin with a token.
pub(crate) fn first_token(bytes: &[u8]) -> Option<Extent>
    ensures { reading_of result ≡ spec.first_token bytes.now }
{
    let [first, behind @ ..] = bytes else {
        return None;
    };
    match start_of(*first) {
        Start::Letter => Some(Extent {
            kind: TokenKind::Word,
            length: word_length(behind) + 1,
        }),
        Start::Digit => number(behind),
        Start::Quote => quote(behind),
        Start::Name => quoted_name(behind),
        Start::Less => less(behind),
        Start::More => more(behind),
        Start::Minus => minus(behind),
        Start::Single(symbol) => sign(symbol, 1),
        Start::Nothing => None,
    }
}
