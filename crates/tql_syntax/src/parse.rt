//! Parsing the whole token list of a statement.
ghost use Rattle.std.specs.Prelude.{◌≡◌, ◌+◌, ◌^◌, ◌<◌, ◌≤◌, map, take, length};
ghost use Rattle.tql_spec.specs.Token.{depth};
ghost use Rattle.tql_lex.specs.Tokens.{token_of};
ghost use Rattle.tql_syntax.specs.Nesting.{open_behind};
ghost use Rattle.tql_syntax.specs.Parses.{Parses, Spells};

use tql_lex::token::{Symbol, Token, TokenKind};
use tql_memory::Memory;
use tql_syntax_expr::cursor::Cursor;
use tql_syntax_statement::statements::statement_tree;
use tql_syntax_tree::tree::Tree;
use tql_syntax_tree::width::is_too_wide;
use tql_value::refusal::Refusal;

/// The maximum number of parentheses that may be open at once.
const MOST_OPEN: usize = 64;

/// Returns the number of open parentheses after the token, given the number before it.
fn open_behind(count: usize, token: &Token<'_>) -> usize
    requires { count + 1 < 2 ^ 64 }
    ensures { result ≡ open_behind count (token_of token.now) }
{
    match token.kind {
        TokenKind::Sign(Symbol::Open) => count + 1,
        TokenKind::Sign(Symbol::Close) => count.saturating_sub(1),
        _ => count,
    }
}

/// Returns the largest number of parentheses that are open at once. A `)` where none is open closes nothing.
fn most_open(tokens: &[Token<'_>]) -> usize
    ensures { result ≡ depth (map token_of tokens.now) }
{
    let mut count = 0;
    let mut most = 0;
    for token in tokens {
        count = open_behind(count, token);
        most = count.max(most);
    }
    most
}

/// Returns the number of tokens before the first `(` that makes 65 parentheses open at once; of all tokens if there is
/// none.
pub(crate) fn shallow_count(tokens: &[Token<'_>]) -> usize
    ensures fits { result ≤ length tokens.now }
    ensures shallow { depth (map token_of (take result tokens.now)) ≤ 64 }
{
    let mut count = 0;
    for (index, token) in tokens.iter().enumerate() {
        count = open_behind(count, token);
        if count > MOST_OPEN {
            return index;
        }
    }
    tokens.len()
}

/// Parses the whole token list of one statement, without limits on its width.
///
/// More than 64 parentheses open at once are refused first, as `NestedTooDeep`; then tokens that are not a statement,
/// as `NotAStatement`. If memory runs out, the refusal is `OutOfMemory`. The grammar is a part of the SQL of
/// ISO/IEC 9075-2:2011; the limit, and `AT` with a moment, are this project's choice.
pub fn spelled<'a>(memory: Memory, tokens: &[Token<'a>]) -> Result<Tree<'a>, Refusal>
    ensures { Spells (map token_of tokens.now) result }
{
    if most_open(tokens) > MOST_OPEN {
        return Err(Refusal::NestedTooDeep);
    }
    let mut cursor = Cursor::new(tokens);
    let tree = statement_tree(memory, &mut cursor)?;
    if cursor.left() > 0 {
        return Err(Refusal::NotAStatement);
    }
    Ok(tree)
}

/// Parses the whole token list of one statement.
///
/// It refuses what `spelled` refuses; then more than 64 columns in a table, or more than 8 table references in a FROM
/// clause, as `TooManyColumnsOrTables`.
pub fn parse<'a>(memory: Memory, tokens: &[Token<'a>]) -> Result<Tree<'a>, Refusal>
    ensures { Parses (map token_of tokens.now) result }
{
    match spelled(memory, tokens) {
        Ok(tree) if is_too_wide(&tree.statement) => Err(Refusal::TooManyColumnsOrTables),
        other => other,
    }
}
