//! Locating where parsing stopped in a text that is not a statement or is nested too deep.
ghost use Rattle.std.specs.Prelude.{◌≤◌, length, IfSome};
ghost use Rattle.tql_syntax.specs.Stops.{IsStopIn};

use crate::parse::shallow_count;
use tql_lex::front::{FrontTokens, front_tokens};
use tql_lex::token::Token;
use tql_memory::Memory;
use tql_syntax_expr::cursor::{Cursor, ParseError};
use tql_syntax_statement::statements::statement_tree;

/// The tokens of a text up to the first byte at which none begins, and the number of them before the stop. `is_deep`
/// says whether the next one is the `(` that makes 65 parentheses open at once.
#[derive(Drop)]
pub struct Stopped<'a> {
    pub front: FrontTokens<'a>,
    pub read: usize,
    pub is_deep: bool,
}

/// Returns the number of tokens that are left where parsing them as a statement stops; None if an allocation fails.
fn left_behind(memory: Memory, tokens: &[Token<'_>]) -> Option<usize> {
    let mut cursor = Cursor::new(tokens);
    match statement_tree(memory, &mut cursor) {
        Err(ParseError::OutOfMemory) => None,
        _ => Some(cursor.left()),
    }
}

/// Returns the number of tokens that are consumed where parsing them as a statement stops; None if an allocation fails.
///
/// The parser recurses for each open parenthesis, and `read_text` refuses a text that does not consist of tokens before
/// it checks the nesting. So this function cuts the tokens before the `(` that makes 65 parentheses open at once.
fn read_count(memory: Memory, tokens: &[Token<'_>]) -> Option<usize>
    ensures { IfSome result (λ n. n ≤ length tokens.now) }
{
    let count = shallow_count(tokens);
    let left = left_behind(memory, tokens.get(..count).unwrap_or(&[]))?;
    count.checked_sub(left)
}

/// Finds where parsing stops in a text that `read_text` refuses as `NotAStatement`; None if an allocation fails.
///
/// It parses the text again, up to the first byte at which no token begins, or the `(` that makes 65 parentheses open
/// at once. The position is used only in the error message: after which token parsing a wrong text stops is this
/// project's choice.
pub fn stop_of(memory: Memory, text: &str) -> Option<Stopped<'_>>
    ensures { IfSome result (λ stop. IsStopIn text.now stop) }
{
    let front = front_tokens(memory, text).ok()?;
    let read = read_count(memory, &front.tokens)?;
    let is_deep = read < front.tokens.len() && read == shallow_count(&front.tokens);
    Some(Stopped {
        front,
        read,
        is_deep,
    })
}

/// Finds the `(` that makes 65 parentheses open at once in a text that `read_text` refuses as `NestedTooDeep`. Returns
/// None if there is none, or if an allocation fails.
pub fn depth_stop_of(memory: Memory, text: &str) -> Option<Stopped<'_>>
    ensures { IfSome result (λ stop. IsStopIn text.now stop) }
{
    let front = front_tokens(memory, text).ok()?;
    let read = shallow_count(&front.tokens);
    if read < front.tokens.len() {
        Some(Stopped {
            front,
            read,
            is_deep: true,
        })
    } else {
        None
    }
}
