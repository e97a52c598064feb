//! The tokens at the front of a text, for messages that report where reading stopped.
ghost use Rattle.std.specs.Prelude.{◌<◌, length, IfOk, IfSome};
ghost use Rattle.tql_lex.specs.Tokens.{AreInPlace};

use crate::token::Token;
use crate::tokenizer::{next_start, token_at};
use std::alloc::AllocError;
use tql_memory::Memory;

/// The tokens at the front of a text, and the offset of the first byte at which no token begins.
#[derive(Drop)]
pub struct FrontTokens<'a> {
    pub tokens: Vec<Token<'a>, Memory>,
    /// None where the whole text consists of tokens.
    pub broken: Option<usize>,
}

/// Returns the tokens of a text up to the first byte at which none begins. They are the tokens that `tokens` returns,
/// where that succeeds. The only error is a failed allocation.
pub fn front_tokens(memory: Memory, text: &str) -> Result<FrontTokens<'_>, AllocError>
    ensures places { IfOk result (λ f. AreInPlace 0 f.tokens.items text.now) }
    ensures broken { IfOk result (λ f. IfSome f.broken (λ n. n < length text.now)) }
{
    let mut tokens = Vec::new(memory);
    let mut end = 0;
    while let Some(start) = next_start(text, end) {
        let Some(token) = token_at(text, start) else {
            return Ok(FrontTokens {
                tokens,
                broken: Some(start),
            });
        };
        end = start + token.text.len();
        tokens.push(token)?;
    }
    Ok(FrontTokens {
        tokens,
        broken: None,
    })
}
