//! Texts of one or two words.
ghost use Rattle.std.specs.Prelude.{◌≤◌, List, IfSome, IsNone, IsFalse, length, option_map};
ghost use Rattle.tql_spec.specs.Token as token;
ghost use Rattle.tql_spec.specs.Token.{AreTokens};
ghost use Rattle.tql_lex.specs.SoleWords.{IsWordAt, are_words, word_tokens};

use crate::token::{Token, TokenKind};
use crate::tokenizer::{next_start, token_at};

/// Returns the word that starts at `start`; None where no word does.
fn word_at(text: &str, start: usize) -> Option<Token<'_>>
    requires { start ≤ length text.now }
    ensures { IsWordAt text.now start result }
{
    let token = token_at(text, start)?;
    match token.kind {
        TokenKind::Word => Some(token),
        _ => None,
    }
}

/// Returns the words, as written, of a text whose tokens are one word or two words; None for any other text. A quoted
/// name is not a word. It allocates nothing.
pub fn two_words(text: &str) -> Option<(&str, Option<&str>)>
    ensures words { IfSome result (λ w. AreTokens (word_tokens w.0.now (option_map (λ v. v.now) w.1)) text.now) }
    ensures others { IsNone result → (ts : List token.Token) → AreTokens ts text.now → IsFalse (are_words ts) }
{
    let start = next_start(text, 0)?;
    let first = word_at(text, start)?;
    let Some(next) = next_start(text, first.start + first.text.len()) else {
        return Some((first.text, None));
    };
    let second = word_at(text, next)?;
    match next_start(text, second.start + second.text.len()) {
        Some(_) => None,
        None => Some((first.text, Some(second.text))),
    }
}
