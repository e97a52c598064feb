//! Parsing the text of a statement.
ghost use Rattle.std.specs.Prelude.{◌≡◌, ◌≤◌, length};
ghost use Rattle.tql_syntax.specs.Texts.{ReadsText, SpellsText};

use crate::parse::spelled;
use tql_lex::tokenizer::tokens;
use tql_memory::Memory;
use tql_splitter::splitter::LONGEST;
use tql_syntax_tree::tree::Tree;
use tql_value::refusal::Refusal;

/// Parses a text whose length is already checked.
fn spelled_text(memory: Memory, text: &str) -> Result<Tree<'_>, Refusal>
    ensures { SpellsText text.now result }
{
    let tokens = tokens(memory, text)?;
    spelled(memory, &tokens)
}

/// Parses the text of a finished statement, without its `;`, without limits on its width. It reports the first of these
/// faults: over 1,048,576 bytes, not UTF-8, over 64 parentheses open at once, not a statement. If memory runs out, the
/// refusal is `OutOfMemory`.
pub fn read_text(memory: Memory, text: &[u8]) -> Result<Tree<'_>, Refusal>
    ensures { ReadsText text.now result }
{
    if text.len() > LONGEST {
        return Err(Refusal::StatementTooLong);
    }
    match str::from_utf8(text) {
        Ok(text) => spelled_text(memory, text),
        Err(_) => Err(Refusal::NotUtf8),
    }
}
