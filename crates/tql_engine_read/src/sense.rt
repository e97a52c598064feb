//! From the text of a statement to its tree.
ghost use Rattle.tql_engine_read.specs.Sense.{ReadsAs};

use tql_memory::Memory;
use tql_syntax::text::read_text;
use tql_syntax_tree::tree::Tree;
use tql_syntax_tree::width::is_too_wide;
use tql_value::refusal::Refusal;

/// Parses the text of a statement. Refused for the first of these that applies: over 1,048,576 bytes, bytes that are
/// not UTF-8, over 64 parentheses open at once, a text that is no statement, over 64 columns or 8 table references.
pub fn read_statement(memory: Memory, text: &[u8]) -> Result<Tree<'_>, Refusal>
    ensures { ReadsAs text.now result }
{
    let tree = match read_text(memory, text) {
        Ok(tree) => tree,
        Err(refusal) => return Err(refusal),
    };
    if is_too_wide(&tree.statement) {
        return Err(Refusal::TooManyColumnsOrTables);
    }
    Ok(tree)
}
