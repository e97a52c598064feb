//! Lines about the tokens of a text, and the pieces of a script.
ghost use Rattle.std.specs.Prelude.{◌≡◌, ◌<◌, ◌≤◌, [], OnOk};

use crate::line::Line;
use crate::parts::{count, mark, sides, two};
use crate::stop::Stop;
use std::alloc::AllocError;
use tql_lex::token::{Symbol, Token, TokenKind};
use tql_lex::tokenizer::tokens;
use tql_memory::Memory;
use tql_splitter::piece::Piece;
use tql_splitter::splitter::{LONGEST_PART, Splitter};

static SYMBOLS: [Symbol; 13] = [
    Symbol::Open,
    Symbol::Close,
    Symbol::Comma,
    Symbol::Dot,
    Symbol::PlusSign,
    Symbol::MinusSign,
    Symbol::Star,
    Symbol::EqualSign,
    Symbol::UnequalSign,
    Symbol::LessSign,
    Symbol::AtMostSign,
    Symbol::MoreSign,
    Symbol::AtLeastSign,
];

/// Returns the letter of a kind of token.
fn letter(kind: TokenKind) -> char {
    match kind {
        TokenKind::Word => 'w',
        TokenKind::QuotedName => 'n',
        TokenKind::Number => 'd',
        TokenKind::Quote => 't',
        TokenKind::Sign(_) => 's',
    }
}

/// Writes which of the symbols a token is.
fn write_symbols(out: &mut String, token: &Token<'_>) -> Result<(), AllocError> {
    for (place, symbol) in SYMBOLS.iter().enumerate() {
        if token.is_sign(*symbol) {
            write!(out, "{place} ")?;
        }
    }
    Ok(())
}

/// Writes the letter of a token's kind, and the token's content.
fn write_content(out: &mut String, memory: Memory, token: &Token<'_>) -> Result<(), Stop> {
    let content = token.content(memory)?;
    write!(out, "{}{content} ", letter(token.kind))?;
    Ok(())
}

/// Writes what a command asks of a token: its content, its start and its text as it is written, whether it is reserved,
/// which of the symbols it is, or whether it is a word.
fn write_token(
    out: &mut String,
    memory: Memory,
    command: &str,
    word: &str,
    token: &Token<'_>,
) -> Result<(), Stop> {
    Ok(match command {
        "tokens" => return write_content(out, memory, token),
        "places" => write!(out, "{}:{} ", token.start, token.text)?,
        "reserved" => out.push(mark(token.is_reserved()))?,
        "symbols" => write_symbols(out, token)?,
        "word" => out.push(mark(token.is_word(word)))?,
        _ => return Err(Stop::Form),
    })
}

/// Writes what a command asks of each token of a text. With `word` the word is behind the text.
fn write_tokens(out: &mut String, memory: Memory, command: &str, input: &str) -> Result<(), Stop> {
    let (text, word) = if command == "word" {
        sides(input)?
    } else {
        (input, "")
    };
    let found = tokens(memory, text)?;
    for token in &found {
        write_token(out, memory, command, word, token)?;
    }
    Ok(())
}

/// Writes a text, or its length if it is not UTF-8, and a mark after it.
fn write_text(out: &mut String, text: &[u8], mark: char) -> Result<(), AllocError> {
    match str::from_utf8(text) {
        Ok(text) => write!(out, "{text}{mark}"),
        Err(_) => write!(out, "{} bytes{mark}", text.len()),
    }
}

/// Writes a piece. A piece that could not be read for lack of memory ends the answer, as any failed allocation does.
fn write_piece(out: &mut String, piece: Piece<'_>) -> Result<(), AllocError> {
    match piece {
        Piece::Text(text) => write_text(out, text, '|'),
        Piece::Unfinished(text) => write_text(out, text, '?'),
        Piece::TooLong => out.push('!'),
        Piece::NoMemory => Err(AllocError),
    }
}

/// Writes all pieces that are complete.
fn drain(out: &mut String, splitter: &mut Splitter) -> Result<(), AllocError>
    ensures ended { splitter.new.ended ≡ splitter.old.ended }
    ensures drained { OnOk result (splitter.new.ready ≡ []) }
{
    while let Some(piece) = splitter.next_statement() {
        write_piece(out, piece)?;
    }
    Ok(())
}

/// Returns the bytes of a text, with the byte 0xff, which is never valid UTF-8, for each replacement character.
fn bytes_of(memory: Memory, text: &str) -> Result<Vec<u8, Memory>, AllocError> {
    let mut bytes = Vec::new(memory);
    for (place, part) in text.split('\u{fffd}').enumerate() {
        if place > 0 {
            bytes.push(0xff)?;
        }
        bytes.extend_from_slice(part.as_bytes())?;
    }
    Ok(bytes)
}

/// Writes the pieces of a script that is fed in parts of this size.
fn write_pieces(out: &mut String, memory: Memory, size: usize, script: &[u8]) -> Result<(), Stop>
    requires some { 0 < size }
    requires small { size ≤ 65_536 }
{
    let mut splitter = Splitter::new(memory)?;
    for part in script.chunks(size) {
        splitter.feed(part);
        drain(out, &mut splitter)?;
    }
    splitter.finish();
    drain(out, &mut splitter)?;
    Ok(())
}

/// Writes the pieces of a script. The input is the size of the parts in which it is fed, and the script.
fn cut(out: &mut String, memory: Memory, input: &str) -> Result<(), Stop> {
    let (size, script) = two(input)?;
    let size = count(size)?;
    if size == 0 || size > LONGEST_PART {
        return Err(Stop::Form);
    }
    let bytes = bytes_of(memory, script)?;
    write_pieces(out, memory, size, &bytes)
}

/// Answers a line about tokens or pieces.
pub fn answer(memory: Memory, line: &Line<'_>, out: &mut String) -> Result<(), Stop> {
    match line.command {
        "cut" => cut(out, memory, line.input),
        command => write_tokens(out, memory, command, line.input),
    }
}
