//! Texts in quotes, with each quote in them doubled.
ghost use Rattle.std.specs.Prelude.{◌≡◌, ◌++◌, IfOk, string_bytes};
ghost use Rattle.tql_spec.specs.Text.{doubled, quoted};

use std::alloc::AllocError;
use tql_memory::Memory;

/// Appends a text to a literal, with each `'` doubled.
fn push_doubled(literal: &mut String<Memory>, text: &str) -> Result<(), AllocError>
    ensures { IfOk result (λ _. string_bytes literal.new ≡ string_bytes literal.old ++ doubled 39 text.now) }
{
    let mut rest = text;
    while let Some((before, behind)) = rest.split_once('\'') {
        literal.push_str(before)?;
        literal.push_str("''")?;
        rest = behind;
    }
    literal.push_str(rest)?;
    Ok(())
}

/// Appends a text in quotes to a literal, with each `'` doubled.
pub(crate) fn push_quoted(literal: &mut String<Memory>, text: &str) -> Result<(), AllocError>
    ensures { IfOk result (λ _. string_bytes literal.new ≡ string_bytes literal.old ++ quoted 39 text.now) }
{
    literal.push('\'')?;
    push_doubled(literal, text)?;
    literal.push('\'')
}
