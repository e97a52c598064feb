//! Parsing lists: items repeated as long as a step finds one, or items with commas between.
//!
//! The allocator of a list is a parameter. The reason is that a bound names the lifetime of the text, and no
//! signature may name `'static` together with such a bound.
ghost use Rattle.std.specs.Prelude.{List, map, Option, option_map, []};
ghost use Rattle.tql_spec.specs.Token.{Token};
ghost use Rattle.tql_syntax_grammar.specs.Outcome.{Outcome, more, next, separated};
ghost use Rattle.tql_syntax_expr.specs.Parsing.{Reads};

use crate::cursor::{Cursor, ParseError};
use std::alloc::Allocator;
use tql_lex::token::Symbol;

/// A rule that parses an optional item, as specified by `step`; `view` is the tree of an item.
///
/// It fails where the next tokens are not in the grammar, or where an allocation fails.
pub trait Step<'a, A> {
    type Item: Drop;

    ghost Tree: { Type 0 };

    ghost view: { Self.Item → Tree };

    ghost step: { Self → List Token → Outcome (Option Tree) };

    fn next(&self, memory: A, tokens: &mut Cursor<'_, 'a>) -> Result<Option<Self::Item>, ParseError>
        ensures { Reads (option_map view) (step self.now tokens.old) result tokens.new };
}

/// A rule that parses an item, as specified by `rule`; `view` is the tree of an item.
///
/// It fails where the next tokens are not in the grammar, or where an allocation fails.
pub trait Rule<'a, A> {
    type Item: Drop;

    ghost Tree: { Type 0 };

    ghost view: { Self.Item → Tree };

    ghost rule: { Self → List Token → Outcome Tree };

    fn read(&self, memory: A, tokens: &mut Cursor<'_, 'a>) -> Result<Self::Item, ParseError>
        ensures { Reads view (rule self.now tokens.old) result tokens.new };
}

/// The step that parses a comma and an item, if a comma is next.
#[derive(Drop)]
struct Next<'r, R> {
    rule: &'r R,
}

impl<'r, 'a, A: Copy, R: Rule<'a, A>> Step<'a, A> for Next<'r, R> {
    type Item = R::Item;

    ghost Tree = { R.Tree };

    ghost view = { R.view };

    ghost step = { λ it. next (R.rule it.rule.now) };

    fn next(&self, memory: A, tokens: &mut Cursor<'_, 'a>) -> Result<Option<R::Item>, ParseError> {
        if tokens.eat_symbol(Symbol::Comma) {
            let item = self.rule.read(memory, tokens)?;
            return Ok(Some(item));
        }
        Ok(None)
    }
}

/// Parses items as long as the step finds one, and appends them to `found`.
fn extended<'a, A: Allocator + Copy, S: Step<'a, A>>(
    memory: A,
    tokens: &mut Cursor<'_, 'a>,
    step: &S,
    mut found: Vec<S::Item, A>,
) -> Result<Vec<S::Item, A>, ParseError>
    ensures { Reads (λ v. map S.view v.items) (more (S.step step.now) (map S.view found.items) tokens.old)
        result tokens.new }
{
    for _turn in 0..tokens.left() {
        match step.next(memory, tokens)? {
            Some(item) => found.push(item)?,
            None => return Ok(found),
        }
    }
    Ok(found)
}

/// Parses items as long as the step finds one. It fails where the step does, or where an allocation fails.
pub fn repeated<'a, A: Allocator + Copy, S: Step<'a, A>>(
    memory: A,
    tokens: &mut Cursor<'_, 'a>,
    step: &S,
) -> Result<Vec<S::Item, A>, ParseError>
    ensures { Reads (λ v. map S.view v.items) (more (S.step step.now) [] tokens.old) result tokens.new }
{
    extended(memory, tokens, step, Vec::new(memory))
}

/// Parses items as long as a comma is next. It fails where the rule does, or where an allocation fails.
pub fn behind_commas<'a, A: Allocator + Copy, R: Rule<'a, A>>(
    memory: A,
    tokens: &mut Cursor<'_, 'a>,
    rule: &R,
) -> Result<Vec<R::Item, A>, ParseError>
    ensures { Reads (λ v. map R.view v.items) (more (next (R.rule rule.now)) [] tokens.old) result tokens.new }
{
    repeated(memory, tokens, &Next { rule })
}

/// Parses one or more items with commas between. It fails where the rule does, or where an allocation fails.
pub fn separated<'a, A: Allocator + Copy, R: Rule<'a, A>>(
    memory: A,
    tokens: &mut Cursor<'_, 'a>,
    rule: &R,
) -> Result<Vec<R::Item, A>, ParseError>
    ensures { Reads (λ v. map R.view v.items) (separated (R.rule rule.now) tokens.old) result tokens.new }
{
    let first = rule.read(memory, tokens)?;
    let mut found = Vec::new(memory);
    found.push(first)?;
    extended(memory, tokens, &Next { rule }, found)
}
