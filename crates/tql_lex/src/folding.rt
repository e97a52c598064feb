//! Folding words to upper case, and removing quotes.
ghost use Rattle.std.specs.Prelude.{◌≡◌, ◌<◌, map, false, IfOk, string_bytes};
ghost use Rattle.tql_spec.specs.Token as token;
ghost use Rattle.tql_spec.specs.FirstToken as spec;
ghost use Rattle.tql_spec.specs.Words.{same_text};

use std::alloc::AllocError;
use tql_memory::Memory;

/// Returns an ASCII letter in upper case, and any other byte unchanged.
pub(crate) fn upper(byte: u8) -> u8
    ensures { result ≡ token.upper byte }
{
    if b'a' <= byte && byte <= b'z' {
        byte - 32
    } else {
        byte
    }
}

/// Whether `bytes`, folded to upper case, equal `wanted`.
#[tactic(auto, using(crate::proofs::WordLemmas::same_bytes))]
pub fn is_folded(bytes: &[u8], wanted: &[u8]) -> bool
    ensures { result ≡ same_text (map token.upper bytes.now) wanted.now }
{
    if bytes.len() != wanted.len() {
        return false;
    }
    let mut left = bytes;
    let mut others = wanted;
    while let [byte, behind @ ..] = left {
        match others {
            [other, more @ ..] if upper(*byte) == *other => others = more,
            _ => return false,
        }
        left = behind;
    }
    others.is_empty()
}

/// Returns a word folded to upper case. The only error is a failed allocation.
pub fn folded(memory: Memory, word: &str) -> Result<String<Memory>, AllocError>
    ensures { IfOk result (λ s. string_bytes s ≡ map token.upper word.now) }
{
    let mut folded = String::from_str(memory, word)?;
    folded.make_ascii_uppercase();
    Ok(folded)
}

/// Returns a text without the quote at its front, if one is there.
fn without_quote(quote: char, text: &str) -> &str
    requires { quote < 128 }
    ensures { result.now ≡ spec.without_quote quote text.now }
{
    match text.strip_prefix(quote) {
        Some(rest) => rest,
        None => text,
    }
}

/// Returns the content of a quoted text, with each doubled quote once. The only error is a failed allocation.
pub fn unquoted(memory: Memory, quote: char, text: &str) -> Result<String<Memory>, AllocError>
    requires { quote < 128 }
    ensures { IfOk result (λ s. string_bytes s ≡ spec.content quote text.now) }
{
    let mut content = String::new(memory);
    let mut rest = without_quote(quote, text);
    while let Some((before, behind)) = rest.split_once(quote) {
        content.push_str(before)?;
        rest = without_quote(quote, behind);
        if rest.len() < behind.len() {
            content.push(quote)?;
        }
    }
    content.push_str(rest)?;
    Ok(content)
}
