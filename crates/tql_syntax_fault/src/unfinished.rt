//! Where an unfinished statement was left open.
use std::alloc::AllocError;
use tql_detail::detail::Detail;
use tql_detail::place::Place;
use tql_detail::shown::{Words, push_shown};
use tql_memory::Memory;

/// What the bytes so far have opened and not closed. A quote has its mark and its byte offset.
#[derive(Clone, Copy)]
enum Open {
    Nothing,
    /// A `-`, which may begin a comment.
    Dash,
    Comment,
    Quote(u8, usize),
    /// A quote that is closed, unless the same mark follows.
    Closed(u8, usize),
}

impl Open {
    /// Returns what is open after the byte at this offset.
    fn next(self, byte: u8, offset: usize) -> Open {
        match (self, byte) {
            (Open::Quote(mark, start), _) if byte == mark => Open::Closed(mark, start),
            (Open::Closed(mark, start), _) if byte == mark => Open::Quote(mark, start),
            (Open::Comment, b'\n') => Open::Nothing,
            (Open::Quote(_, _) | Open::Comment, _) => self,
            (Open::Dash, b'-') => Open::Comment,
            (_, b'\'' | b'"') => Open::Quote(byte, offset),
            (_, b'-') => Open::Dash,
            _ => Open::Nothing,
        }
    }
}

/// A text in quotes that a word follows at once, as `'O'Neil`: the offset of the text, and that of the word.
#[derive(Clone, Copy)]
struct Touching {
    start: usize,
    word: usize,
}

/// What the bytes of an unfinished statement show.
#[derive(Clone, Copy)]
struct Scan {
    /// The first text in single quotes that a word follows at once.
    touching: Option<Touching>,
    /// The offset of the quote that is left open.
    left_open: Option<usize>,
    /// The number of semicolons in quotes.
    inside: u64,
}

/// Returns what the bytes of an unfinished statement show.
fn scanned(text: &[u8]) -> Scan {
    let mut open = Open::Nothing;
    let mut touching: Option<Touching> = None;
    let mut inside = 0u64;
    for (offset, byte) in text.iter().enumerate() {
        if let Open::Closed(b'\'', start) = open {
            if touching.is_none() && byte.is_ascii_alphabetic() {
                touching = Some(Touching {
                    start,
                    word: offset,
                });
            }
        }
        open = open.next(*byte, offset);
        if *byte == b';' && matches!(open, Open::Quote(_, _)) {
            inside = inside.saturating_add(1);
        }
    }
    let left_open = match open {
        Open::Quote(_, start) => Some(start),
        _ => None,
    };
    Scan {
        touching,
        left_open,
        inside,
    }
}

/// Returns the length of the word at the start of these bytes.
fn word_length(text: &[u8]) -> usize {
    let mut length = 0usize;
    for byte in text {
        if !byte.is_ascii_alphanumeric() {
            return length;
        }
        length = length.saturating_add(1);
    }
    length
}

/// Adds the number of semicolons that are in quotes, unless it is 0. So many statements may have been read as texts.
fn push_inside(words: &mut Words, inside: u64) -> Result<(), AllocError> {
    match inside {
        0 => Ok(()),
        1 => words.push_str(", and a ; is in quotes"),
        _ => write!(words, ", and {inside} ; are in quotes"),
    }
}

/// Returns the words for a quote that is left open. The only error is a refused allocation.
fn open_words(memory: Memory, inside: u64) -> Result<Words, AllocError> {
    let mut words = String::from_str(memory, "the quote is not closed")?;
    push_inside(&mut words, inside)?;
    Ok(words)
}

/// Returns the words for a text in quotes that a word follows at once. The only error is a refused allocation.
fn touching_words(
    memory: Memory,
    before: &str,
    word: &str,
    inside: u64,
) -> Result<Words, AllocError> {
    let mut words = String::from_str(memory, "the quote is not closed: ")?;
    push_shown(&mut words, word)?;
    words.push_str(" follows the text ")?;
    push_shown(&mut words, before)?;
    push_inside(&mut words, inside)?;
    Ok(words)
}

/// The maximum number of bytes of a text with a doubled quote that is shown.
const MOST_DOUBLED: usize = 40;

/// Whether a text in quotes ends like the part of a statement before another text, as `'Ada), (2, '` does.
fn ends_before_text(quoted: &str) -> bool {
    let inside = quoted.strip_suffix('\'').unwrap_or(quoted).trim_end();
    inside.ends_with(',')
        || inside.ends_with('(')
        || inside.ends_with('=')
        || inside.ends_with('<')
        || inside.ends_with('>')
}

/// Returns what to write for a text in quotes that a word follows at once. The only error is a refused allocation.
fn touching_hint(memory: Memory, before: &str, word: &str) -> Result<Words, AllocError> {
    if ends_before_text(before) {
        return String::from_str(memory, "is a quote missing inside that text?");
    }
    let mut says = String::from_str(memory, "write a quote inside a text twice")?;
    if before.len().saturating_add(word.len()) <= MOST_DOUBLED {
        says.push_str(", as in ")?;
        push_shown(&mut says, before)?;
        says.push('\'')?;
        push_shown(&mut says, word)?;
        says.push('\'')?;
    }
    Ok(says)
}

/// Returns the detail for a quote that is left open after a text that a word follows at once: there a quote was
/// probably not written twice. None if the text is not UTF-8, or if an allocation is refused.
fn touching_detail(memory: Memory, text: &[u8], found: Touching, inside: u64) -> Option<Detail> {
    let quoted = str::from_utf8(text.get(found.start..found.word)?).ok()?;
    let rest = text.get(found.word..)?;
    let word = str::from_utf8(rest.get(..word_length(rest))?).ok()?;
    let mut detail = Detail::of(touching_words(memory, quoted, word, inside).ok()?);
    detail.place = Some(Place::behind(text.get(..found.start)?));
    detail.hint = Some(touching_hint(memory, quoted, word).ok()?);
    Some(detail)
}

/// Returns the detail of the text at the end of a script without a final `;`: the quote that is not closed, or that the
/// `;` is missing. None if an allocation is refused.
pub fn unfinished_detail(memory: Memory, text: &[u8]) -> Option<Detail> {
    let scan = scanned(text);
    let Some(start) = scan.left_open else {
        return Some(Detail::of(String::from_str(memory, "no ; ends it").ok()?));
    };
    if let Some(found) = scan.touching
        && let Some(detail) = touching_detail(memory, text, found, scan.inside)
    {
        return Some(detail);
    }
    let mut detail = Detail::of(open_words(memory, scan.inside).ok()?);
    detail.place = Some(Place::behind(text.get(..start)?));
    Some(detail)
}
