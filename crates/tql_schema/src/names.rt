//! Names as a statement writes them.
ghost use Rattle.std.specs.Prelude.{◌≡◌, ◌++◌, IfOk, IfErr, string_bytes};
ghost use Rattle.tql_spec.specs.Text.{doubled, quoted};

use std::alloc::AllocError;
use tql_lex::front::front_tokens;
use tql_lex::token::TokenKind;
use tql_memory::Memory;

/// A text that is built.
pub(crate) type Text = String<Memory>;

/// Whether a name can be written without quotes: as a word it is read back as this name.
fn is_plain(memory: Memory, name: &str) -> Result<bool, AllocError> {
    let front = front_tokens(memory, name)?;
    Ok(match front.tokens.as_slice() {
        [token] => {
            matches!(token.kind, TokenKind::Word)
                && !token.is_reserved()
                && token.text.len() == name.len()
                && !has_lower_case(name)
        }
        _ => false,
    })
}

/// Whether a name has a lower-case letter, which a word without quotes would lose.
fn has_lower_case(name: &str) -> bool {
    for byte in name.as_bytes() {
        if byte.is_ascii_lowercase() {
            return true;
        }
    }
    false
}

/// Appends a name with each `"` doubled.
fn push_doubled(text: &mut Text, name: &str) -> Result<(), AllocError>
    ensures { IfOk result (λ _. string_bytes text.new ≡ string_bytes text.old ++ doubled 34 name.now) }
{
    let mut rest = name;
    while let Some((before, behind)) = rest.split_once('"') {
        text.push_str(before)?;
        text.push_str("\"\"")?;
        rest = behind;
    }
    text.push_str(rest)?;
    Ok(())
}

/// Appends a name in double quotes.
fn push_quoted(text: &mut Text, name: &str) -> Result<(), AllocError>
    ensures { IfOk result (λ _. string_bytes text.new ≡ string_bytes text.old ++ quoted 34 name.now) }
{
    text.push_str("\"")?;
    push_doubled(text, name)?;
    text.push_str("\"")
}

/// Appends a name: in double quotes where a word would be read as another name or is reserved.
pub fn push_name(text: &mut Text, name: &str) -> Result<(), AllocError> {
    if is_plain(*text.allocator(), name)? {
        text.push_str(name)
    } else {
        push_quoted(text, name)
    }
}
