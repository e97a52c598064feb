//! The token cursor: reading tokens from the front of a list.
ghost use Rattle.std.specs.Prelude.{◌≡◌, map, length, option_map};
ghost use Rattle.tql_spec.specs.Token as spec;
ghost use Rattle.tql_lex.specs.Tokens.{token_of, symbol_of};
ghost use Rattle.tql_syntax_grammar.specs.Outcome.{eat, expect, name_at, number_at, quote_at, eat_number, eat_quote};
ghost use Rattle.tql_syntax_expr.specs.Alone.{goes_on, goes_on_second, goes_on_third};
ghost use Rattle.tql_syntax_expr.specs.Parsing.{Reads, Eats, nothing};
ghost use Rattle.tql_syntax_tree.specs.Expressions.{name_of, digits_of, content_of};
ghost use Rattle.tql_syntax_grammar.specs.Outcome as spec_of;

use std::alloc::{AllocError, AllocFailed};
use std::marker::Model;
use tql_lex::token::{Symbol, Token, TokenKind};
use tql_syntax_tree::expression::Name;
use tql_value::refusal::Refusal;

/// Why a rule failed.
#[derive(Debug, Drop)]
pub enum ParseError {
    OutOfMemory,
    NotInGrammar,
}

impl From<AllocError> for ParseError {
    ghost use Rattle.std.specs.Prelude.{◌≡◌};
    ghost use Rattle.tql_syntax_expr.specs.declared.cursor.ParseError.TheVariants.{OutOfMemory};

    ghost from_gives = { λ _ e. e ≡ OutOfMemory };

    fn from(_error: AllocError) -> ParseError {
        ParseError::OutOfMemory
    }
}

impl<T: Drop> From<AllocFailed<T>> for ParseError {
    ghost use Rattle.std.specs.Prelude.{◌≡◌};
    ghost use Rattle.tql_syntax_expr.specs.declared.cursor.ParseError.TheVariants.{OutOfMemory};

    ghost from_gives = { λ _ e. e ≡ OutOfMemory };

    fn from(_failed: AllocFailed<T>) -> ParseError {
        ParseError::OutOfMemory
    }
}

impl From<ParseError> for Refusal {
    ghost use Rattle.std.specs.Prelude.{◌≡◌};
    ghost use Rattle.tql_syntax_expr.specs.Parsing.{refusal_for};

    ghost from_gives = { λ e r. r ≡ refusal_for e };

    fn from(error: ParseError) -> Refusal {
        match error {
            ParseError::OutOfMemory => Refusal::OutOfMemory,
            ParseError::NotInGrammar => Refusal::NotAStatement,
        }
    }
}

/// Whether a token is a name: a word that is not reserved, or a quoted name.
fn is_name(token: &Token<'_>) -> bool
    ensures { result ≡ spec_of.is_name (token_of token.now) }
{
    match token.kind {
        TokenKind::Word => !token.is_reserved(),
        TokenKind::QuotedName => true,
        _ => false,
    }
}

/// Whether an expression does not end before the token: it is `.`, `*`, `+` or `-`.
fn goes_on(token: &Token<'_>) -> bool
    ensures { result ≡ goes_on (token_of token.now) }
{
    matches!(
        token.kind,
        TokenKind::Sign(Symbol::Dot | Symbol::Star | Symbol::PlusSign | Symbol::MinusSign)
    )
}

/// Returns the byte offset of a token in the statement's text. A statement has at most 2^20 bytes, so the offset fits;
/// a larger offset would be returned as `u32::MAX`.
fn offset_of(token: &Token<'_>) -> u32 {
    match u32::try_from(token.start) {
        Ok(offset) => offset,
        Err(_) => u32::MAX,
    }
}

/// The tokens that are not parsed yet.
#[derive(Drop)]
pub struct Cursor<'t, 'a> {
    rest: &'t [Token<'a>],
}

impl<'t, 'a> Model for Cursor<'t, 'a> {
    ghost use Rattle.std.specs.Prelude.{List, map};
    ghost use Rattle.tql_spec.specs.Token.{Token};
    ghost use Rattle.tql_lex.specs.Tokens.{token_of};

    ghost Value = { List Token };

    ghost view = { λ c. map token_of c.rest.now };
}

impl<'t, 'a> Cursor<'t, 'a> {
    /// Creates a cursor at the first of these tokens.
    pub fn new(rest: &'t [Token<'a>]) -> Cursor<'t, 'a>
        ensures { result ≡ map token_of rest.now }
    {
        Cursor { rest }
    }

    /// Returns the number of tokens that are left.
    pub fn left(&self) -> usize
        ensures { result ≡ length self.now }
    {
        self.rest.len()
    }

    /// Returns the byte offset of the next token in the statement's text, or 0 at the end of the text.
    pub fn start(&self) -> u32 {
        match self.rest {
            [first, ..] => offset_of(first),
            [] => 0,
        }
    }

    /// Consumes the word, given in upper case, if it is next. Returns whether it was.
    pub fn eat_word(&mut self, word: &str) -> bool
        ensures { eat (spec.Word word.now) self.old ≡ (result, self.new) }
    {
        match self.rest {
            [first, rest @ ..] if first.is_word(word) => {
                self.rest = rest;
                true
            }
            _ => false,
        }
    }

    /// Consumes the symbol if it is next. Returns whether it was.
    pub fn eat_symbol(&mut self, symbol: Symbol) -> bool
        ensures { eat (spec.Sign (symbol_of symbol)) self.old ≡ (result, self.new) }
    {
        match self.rest {
            [first, rest @ ..] if first.is_sign(symbol) => {
                self.rest = rest;
                true
            }
            _ => false,
        }
    }

    /// Consumes the word, given in upper case. Fails if it is not next.
    #[tactic(auto, unfolding(tql_syntax_grammar::specs::Outcome::expect))]
    pub fn expect_word(&mut self, word: &str) -> Result<(), ParseError>
        ensures { Reads nothing (expect (spec.Word word.now) self.old) result self.new }
    {
        if self.eat_word(word) {
            Ok(())
        } else {
            Err(ParseError::NotInGrammar)
        }
    }

    /// Consumes the symbol. Fails if it is not next.
    #[tactic(auto, unfolding(tql_syntax_grammar::specs::Outcome::expect))]
    pub fn expect_symbol(&mut self, symbol: Symbol) -> Result<(), ParseError>
        ensures { Reads nothing (expect (spec.Sign (symbol_of symbol)) self.old) result self.new }
    {
        if self.eat_symbol(symbol) {
            Ok(())
        } else {
            Err(ParseError::NotInGrammar)
        }
    }

    /// Consumes a name if one is next, and returns it: a word that is not reserved, or a quoted name.
    #[tactic(auto, unfolding(tql_syntax_grammar::specs::Outcome::name_at))]
    pub fn eat_name(&mut self) -> Option<Name<'a>>
        ensures { Eats name_of name_at self.old result self.new }
    {
        match self.rest {
            [first, rest @ ..] if matches!(first.kind, TokenKind::Word) && !first.is_reserved() => {
                self.rest = rest;
                Some(Name {
                    text: first.text,
                    is_quoted: false,
                    start: offset_of(first),
                })
            }
            [first, rest @ ..] if matches!(first.kind, TokenKind::QuotedName) => {
                self.rest = rest;
                Some(Name {
                    text: first.text,
                    is_quoted: true,
                    start: offset_of(first),
                })
            }
            _ => None,
        }
    }

    /// Consumes a name and returns it: a word that is not reserved, or a quoted name. Fails if none is next.
    pub fn name(&mut self) -> Result<Name<'a>, ParseError>
        ensures { Reads name_of (name_at self.old) result self.new }
    {
        match self.eat_name() {
            Some(name) => Ok(name),
            None => Err(ParseError::NotInGrammar),
        }
    }

    /// Consumes a number and returns its digits. Fails if none is next.
    #[tactic(auto, unfolding(tql_syntax_grammar::specs::Outcome::number_at))]
    pub fn number(&mut self) -> Result<&'a str, ParseError>
        ensures { Reads digits_of (number_at self.old) result self.new }
    {
        match self.rest {
            [first, rest @ ..] if matches!(first.kind, TokenKind::Number) => {
                self.rest = rest;
                Ok(first.text)
            }
            _ => Err(ParseError::NotInGrammar),
        }
    }

    /// Consumes a text and returns it with its quotes. Fails if none is next.
    #[tactic(auto, unfolding(tql_syntax_grammar::specs::Outcome::quote_at))]
    pub fn quote(&mut self) -> Result<&'a str, ParseError>
        ensures { Reads content_of (quote_at self.old) result self.new }
    {
        match self.rest {
            [first, rest @ ..] if matches!(first.kind, TokenKind::Quote) => {
                self.rest = rest;
                Ok(first.text)
            }
            _ => Err(ParseError::NotInGrammar),
        }
    }

    /// Whether the word, given in upper case, is next.
    pub fn begins_word(&self, word: &str) -> bool
        ensures { result ≡ spec_of.begins (spec.Word word.now) self.now }
    {
        match self.rest {
            [first, ..] => first.is_word(word),
            [] => false,
        }
    }

    /// Whether the symbol is next.
    pub fn begins_symbol(&self, symbol: Symbol) -> bool
        ensures { result ≡ spec_of.begins (spec.Sign (symbol_of symbol)) self.now }
    {
        match self.rest {
            [first, ..] => first.is_sign(symbol),
            [] => false,
        }
    }

    /// Whether the word, given in upper case, is the second token from here.
    pub fn second_is_word(&self, word: &str) -> bool
        ensures { result ≡ spec_of.begins_second (spec.Word word.now) self.now }
    {
        match self.rest {
            [_, second, ..] => second.is_word(word),
            _ => false,
        }
    }

    /// Whether the symbol is the second token from here.
    pub fn second_is_symbol(&self, symbol: Symbol) -> bool
        ensures { result ≡ spec_of.begins_second (spec.Sign (symbol_of symbol)) self.now }
    {
        match self.rest {
            [_, second, ..] => second.is_sign(symbol),
            _ => false,
        }
    }

    /// Whether the word, given in upper case, is the third token from here.
    pub fn third_is_word(&self, word: &str) -> bool
        ensures { result ≡ spec_of.begins_third (spec.Word word.now) self.now }
    {
        match self.rest {
            [_, _, third, ..] => third.is_word(word),
            _ => false,
        }
    }

    /// Whether an expression does not end before the second token from here: it is `.`, `*`, `+` or `-`.
    pub fn goes_on_second(&self) -> bool
        ensures { result ≡ goes_on_second self.now }
    {
        match self.rest {
            [_, second, ..] => goes_on(second),
            _ => false,
        }
    }

    /// Whether an expression does not end before the third token from here.
    pub fn goes_on_third(&self) -> bool
        ensures { result ≡ goes_on_third self.now }
    {
        match self.rest {
            [_, _, third, ..] => goes_on(third),
            _ => false,
        }
    }

    /// Whether a name is next.
    pub fn begins_name(&self) -> bool
        ensures { result ≡ spec_of.begins_name self.now }
    {
        match self.rest {
            [first, ..] => is_name(first),
            [] => false,
        }
    }

    /// Consumes a number if one is next, and returns its digits.
    pub fn eat_number(&mut self) -> Option<&'a str>
        ensures { eat_number self.old ≡ (option_map digits_of result, self.new) }
    {
        match self.rest {
            [first, rest @ ..] if matches!(first.kind, TokenKind::Number) => {
                self.rest = rest;
                Some(first.text)
            }
            _ => None,
        }
    }

    /// Consumes a text if one is next, and returns it with its quotes.
    pub fn eat_quote(&mut self) -> Option<&'a str>
        ensures { eat_quote self.old ≡ (option_map content_of result, self.new) }
    {
        match self.rest {
            [first, rest @ ..] if matches!(first.kind, TokenKind::Quote) => {
                self.rest = rest;
                Some(first.text)
            }
            _ => None,
        }
    }
}
