//! The short form of scripts and expected outputs. `{N text}` means N copies of the text, and a `#` in the text is the
//! number of the copy, from 1. Groups may be nested, two deep at most, and the inner ones are expanded first.
use std::alloc::{AllocError, Global};

/// A group `{N text}`, and the text before it.
#[derive(Clone, Copy, Debug)]
struct Group<'a> {
    before: &'a [u8],
    count: u32,
    text: &'a [u8],
}

/// Returns the innermost group at the end of a part of a text; None if there is none.
fn group_at_end(part: &[u8]) -> Option<Group<'_>> {
    let open = part.strip_suffix(b"}")?;
    let start = open.iter().rposition(|byte| *byte == b'{')?;
    let group = open.get(start.checked_add(1)?..)?;
    let blank = group.iter().position(|byte| *byte == b' ')?;
    Some(Group {
        before: open.get(..start)?,
        count: str::from_utf8(group.get(..blank)?).ok()?.parse().ok()?,
        text: group.get(blank.checked_add(1)?..)?,
    })
}

/// Appends a text to another one, with a number in place of each `#`.
fn push_numbered(whole: &mut Vec<u8>, text: &[u8], number: &str) -> Result<(), AllocError> {
    for part in text.split_inclusive(|byte| *byte == b'#') {
        match part.strip_suffix(b"#") {
            Some(before) => {
                whole.extend_from_slice(before)?;
                whole.extend_from_slice(number.as_bytes())?;
            }
            None => whole.extend_from_slice(part)?,
        }
    }
    Ok(())
}

/// Appends `count` copies of a text to another one, each with its number.
fn push_times(
    alloc: Global,
    whole: &mut Vec<u8>,
    text: &[u8],
    count: u32,
) -> Result<(), AllocError> {
    for before in 0..count {
        let number = format!(in alloc; "{}", before.saturating_add(1))?;
        push_numbered(whole, text, number.as_str())?;
    }
    Ok(())
}

/// Returns a text with the innermost groups expanded.
fn written_once(alloc: Global, short: &[u8]) -> Result<Vec<u8>, AllocError> {
    let mut whole = Vec::new(alloc);
    for part in short.split_inclusive(|byte| *byte == b'}') {
        match group_at_end(part) {
            Some(
                Group {
                    before,
                    count,
                    text,
                },
            ) => {
                whole.extend_from_slice(before)?;
                push_times(alloc, &mut whole, text, count)?;
            }
            None => whole.extend_from_slice(part)?,
        }
    }
    Ok(whole)
}

/// Expands a text in the short form. Everything outside groups stays as it is.
pub fn written_out(alloc: Global, short: &[u8]) -> Result<Vec<u8>, AllocError> {
    let inner = written_once(alloc, short)?;
    written_once(alloc, &inner)
}
