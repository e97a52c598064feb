//! Tokens.
ghost use Rattle.std.specs.Prelude.{◌≡◌, ◌↔◌, IsTrue, IfOk, string_bytes};
ghost use Rattle.tql_spec.specs.Token as token;
ghost use Rattle.tql_lex.specs.Tests as tests_of;
ghost use Rattle.tql_lex.specs.Tokens.{symbol_of, token_of};

use crate::folding::{folded, is_folded, unquoted};
use crate::reserved;
use std::alloc::AllocError;
use tql_memory::Memory;

/// A symbol.
#[derive(Clone, Copy, Debug)]
pub enum Symbol {
    /// `(`
    Open,
    /// `)`
    Close,
    /// `,`
    Comma,
    /// `.`
    Dot,
    /// `+`
    PlusSign,
    /// `-`
    MinusSign,
    /// `*`
    Star,
    /// `=`
    EqualSign,
    /// `<>`
    UnequalSign,
    /// `<`
    LessSign,
    /// `<=`
    AtMostSign,
    /// `>`
    MoreSign,
    /// `>=`
    AtLeastSign,
}

/// The kind of a token.
#[derive(Clone, Copy, Debug)]
pub enum TokenKind {
    /// A letter or `_`, followed by letters, digits and `_`.
    Word,
    /// A name in double quotes.
    QuotedName,
    /// Digits.
    Number,
    /// A text in single quotes.
    Quote,
    /// A symbol.
    Sign(Symbol),
}

/// A token: its kind, its text as written, and its byte offset in the statement's text.
#[derive(Clone, Copy, Debug)]
pub struct Token<'a> {
    pub kind: TokenKind,
    pub text: &'a str,
    pub start: usize,
}

/// Whether two symbols are the same.
fn is_same(symbol: Symbol, other: Symbol) -> bool
    ensures { result ≡ tests_of.same_symbol (symbol_of symbol) (symbol_of other) }
{
    match (symbol, other) {
        (Symbol::Open, Symbol::Open)
        | (Symbol::Close, Symbol::Close)
        | (Symbol::Comma, Symbol::Comma)
        | (Symbol::Dot, Symbol::Dot)
        | (Symbol::PlusSign, Symbol::PlusSign)
        | (Symbol::MinusSign, Symbol::MinusSign)
        | (Symbol::Star, Symbol::Star)
        | (Symbol::EqualSign, Symbol::EqualSign)
        | (Symbol::UnequalSign, Symbol::UnequalSign)
        | (Symbol::LessSign, Symbol::LessSign)
        | (Symbol::AtMostSign, Symbol::AtMostSign)
        | (Symbol::MoreSign, Symbol::MoreSign)
        | (Symbol::AtLeastSign, Symbol::AtLeastSign) => true,
        _ => false,
    }
}

impl<'a> Token<'a> {
    /// Whether this is the word `word`, which is given in upper case.
    #[tactic(auto, using(crate::proofs::WordLemmas::is_word_tells))]
    pub fn is_word(&self, word: &str) -> bool
        ensures value { result ≡ tests_of.is_word word.now (token_of self.now) }
        ensures test { IsTrue result ↔ (token_of self.now ≡ token.Word word.now) }
    {
        match self.kind {
            TokenKind::Word => is_folded(self.text.as_bytes(), word.as_bytes()),
            _ => false,
        }
    }

    /// Whether this is the symbol `symbol`.
    #[tactic(auto, using(crate::proofs::WordLemmas::is_sign_tells))]
    pub fn is_sign(&self, symbol: Symbol) -> bool
        ensures value { result ≡ tests_of.is_sign (symbol_of symbol) (token_of self.now) }
        ensures test { IsTrue result ↔ (token_of self.now ≡ token.Sign (symbol_of symbol)) }
    {
        match self.kind {
            TokenKind::Sign(sign) => is_same(sign, symbol),
            _ => false,
        }
    }

    /// Whether this is a reserved word, which is never a name.
    pub fn is_reserved(&self) -> bool
        ensures { result ≡ tests_of.is_reserved_word (token_of self.now) }
    {
        match self.kind {
            TokenKind::Word => reserved::is_reserved(self.text.as_bytes()),
            _ => false,
        }
    }

    /// Returns the content: a word in upper case, a name or a text without its quotes, the digits of a number, or a
    /// symbol. Each doubled quote appears once. The only error is a failed allocation.
    pub fn content(&self, memory: Memory) -> Result<String<Memory>, AllocError>
        ensures { IfOk result (λ s. string_bytes s ≡ tests_of.content_of (token_of self.now)) }
    {
        match self.kind {
            TokenKind::Word => folded(memory, self.text),
            TokenKind::QuotedName => unquoted(memory, '"', self.text),
            TokenKind::Quote => unquoted(memory, '\'', self.text),
            TokenKind::Number => Ok(String::from_str(memory, self.text)?),
            TokenKind::Sign(symbol) => Ok(String::from_str(memory, symbol_text(symbol))?),
        }
    }
}

/// Returns the spelling of a symbol.
fn symbol_text(symbol: Symbol) -> &'static str
    ensures { result.now ≡ token.symbol_text (symbol_of symbol) }
{
    match symbol {
        Symbol::Open => "(",
        Symbol::Close => ")",
        Symbol::Comma => ",",
        Symbol::Dot => ".",
        Symbol::PlusSign => "+",
        Symbol::MinusSign => "-",
        Symbol::Star => "*",
        Symbol::EqualSign => "=",
        Symbol::UnequalSign => "<>",
        Symbol::LessSign => "<",
        Symbol::AtMostSign => "<=",
        Symbol::MoreSign => ">",
        Symbol::AtLeastSign => ">=",
    }
}
