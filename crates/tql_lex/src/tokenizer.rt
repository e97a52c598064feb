//! Splitting a text into tokens.
ghost use Rattle.std.specs.Prelude.{◌≡◌, ◌⊎◌, ◌≤◌, List, IfOk, IfErr, length, map};
ghost use Rattle.tql_spec.specs.Token as token;
ghost use Rattle.tql_spec.specs.Token.{AreTokens};
ghost use Rattle.tql_lex.specs.Tokens.{AreInPlace, token_of};
ghost use Rattle.tql_lex.specs.Reading.{IsNextStart, IsTokenAt};

use crate::extent::first_token;
use crate::scan::without_lead;
use crate::token::Token;
use tql_memory::Memory;
use tql_value::refusal::Refusal;

/// The number of tokens for which there is room from the start: that of a short statement.
const USUAL_TOKENS: usize = 16;

/// Returns the offset of the first byte, from `from` on, that is neither a blank nor in a comment, if there is one.
pub(crate) fn next_start(text: &str, from: usize) -> Option<usize>
    requires { from ≤ length text.now }
    ensures { IsNextStart text.now from result }
{
    let bytes = text.as_bytes();
    let (_, left) = bytes.split_at(from);
    let rest = without_lead(left);
    if rest.is_empty() {
        return None;
    }
    Some(bytes.len() - rest.len())
}

/// Returns the token that starts at `start`; None where no token does.
pub(crate) fn token_at(text: &str, start: usize) -> Option<Token<'_>>
    requires { start ≤ length text.now }
    ensures { IsTokenAt text.now start result }
{
    let (_, left) = text.as_bytes().split_at(start);
    let extent = first_token(left)?;
    let end = start + extent.length;
    Some(Token {
        kind: extent.kind,
        text: &text[start..end],
        start,
    })
}

/// Returns the tokens of a statement's text: words, quoted names, numbers, texts and symbols, each as long as possible.
/// Blanks and comments separate tokens (ISO/IEC 9075-2:2011, 5.2; the symbols are this project's choice).
/// A text that does not consist of tokens is refused as `NotAStatement`.
pub fn tokens(memory: Memory, text: &str) -> Result<Vec<Token<'_>, Memory>, Refusal>
    ensures tokens { IfOk result (λ ts. AreTokens (map token_of ts.items) text.now) }
    ensures places { IfOk result (λ ts. AreInPlace 0 ts.items text.now) }

    // Errors: the text does not consist of tokens, or memory ran out.
    ensures refused { IfErr result (λ e. e ≡ Refusal.NotAStatement
        → (ts : List token.Token) → AreTokens ts text.now → ⊥) }
    ensures reasons { IfErr result (λ e. (e ≡ Refusal.NotAStatement) ⊎ (e ≡ Refusal.OutOfMemory)) }
{
    let mut found = Vec::with_capacity(memory, USUAL_TOKENS)?;
    let mut end = 0;
    while let Some(start) = next_start(text, end) {
        let Some(token) = token_at(text, start) else {
            return Err(Refusal::NotAStatement);
        };
        end = start + token.text.len();
        found.push(token)?;
    }
    Ok(found)
}
