//! Names and quoted texts, decoded.
ghost use Rattle.std.specs.Prelude.{◌≡◌, IfOk, string_bytes};
ghost use Rattle.tql_spec.specs.FirstToken.{content};
ghost use Rattle.tql_spec.specs.Words.{same_text};
ghost use Rattle.tql_syntax_tree.specs.Expressions.{name_of};
ghost use Rattle.tql_bind_expr.specs.Scopes.{word_of};

use std::alloc::AllocError;
use tql_memory::Memory;
use tql_syntax_tree::expression::Name;
use tql_syntax_tree::name::quoted_text;

/// A decoded name and its byte offset in the statement's text.
#[derive(Drop)]
pub struct Word {
    pub text: String<Memory>,
    pub start: u32,
}

/// Whether two texts are equal.
pub fn is_same_text(name: &str, other: &str) -> bool
    ensures { result ≡ same_text name.now other.now }
{
    name == other
}

/// Returns the decoded name. The only error is a refused allocation.
pub fn meant(memory: Memory, name: Name<'_>) -> Result<String<Memory>, AllocError>
    ensures { IfOk result (λ text. string_bytes text ≡ name_of name.entry) }
{
    name.meant(memory)
}

/// Returns the decoded name with its byte offset. The only error is a refused allocation.
pub fn meant_word(memory: Memory, name: Name<'_>) -> Result<Word, AllocError>
    ensures { IfOk result (λ word. word_of word ≡ name_of name.entry) }
{
    Ok(Word {
        text: meant(memory, name)?,
        start: name.start,
    })
}

/// Returns the content of a quoted literal. The only error is a refused allocation.
pub fn unquoted(memory: Memory, quoted: &str) -> Result<String<Memory>, AllocError>
    ensures { IfOk result (λ text. string_bytes text ≡ content 39 quoted.now) }
{
    quoted_text(memory, quoted)
}
