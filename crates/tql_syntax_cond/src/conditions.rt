//! Parsing conditions. `depth` bounds how deep parentheses may nest; the number of tokens is always enough.
//!
//! A `(` may open a condition or an expression, and only later tokens decide which. One rule parses both, so no token
//! is parsed twice.
ghost use Rattle.std.specs.Prelude.{◌≡◌, []};
ghost use Rattle.tql_syntax_grammar.specs.Outcome.{into, more};
ghost use Rattle.tql_syntax_grammar.specs.ReadingExpressions as reading;
ghost use Rattle.tql_syntax_grammar.specs.ReadingExpressions.{expr_at, mixed_at};
ghost use Rattle.tql_syntax_expr.specs.Parsing.{Reads};
ghost use Rattle.tql_syntax_tree.specs.Conditions.{boxed_test_of, factor_by, factor_of, conj_of, boxed_cond_of};
ghost use Rattle.tql_syntax_tree.specs.Conditions.{factor_list, conj_list};
ghost use Rattle.tql_syntax_test.specs.Predicates.{tested_of};
ghost use Rattle.tql_syntax_cond.specs.Mixtures.{mixed_of};

use tql_lex::token::Symbol;
use tql_memory::Memory;
use tql_syntax_expr::cursor::{Cursor, ParseError};
use tql_syntax_expr::expressions::sum;
use tql_syntax_operand::operands::begins_marked;
use tql_syntax_test::predicates::{Tested, enclosed, grouped, marked_test, test_behind};
use tql_syntax_tree::condition::{Cond, Conj, Factor, Test, boxed_cond};
use tql_syntax_tree::expression::Expr;

/// A condition, or an expression.
enum Mixed<'a> {
    Cond(Box<Cond<'a>, Memory>),
    Expr(Box<Expr<'a>, Memory>),
}

impl<'a> Drop for Mixed<'a> {
    fn drop(self) {
        match self {
            Mixed::Cond(condition) => drop(condition),
            Mixed::Expr(value) => drop(value),
        }
    }
}

impl<'a> Mixed<'a> {
    /// Parses the rest, after the `)`, of a test or an expression that begins with this condition or expression.
    fn closed(
        self,
        memory: Memory,
        tokens: &mut Cursor<'_, 'a>,
        depth: usize,
    ) -> Result<Tested<'a>, ParseError>
        ensures { Reads tested_of
            (reading.closed_over (expr_at depth) (mixed_at depth) (mixed_of self.entry) tokens.old)
            result tokens.new }
    {
        match self {
            Mixed::Cond(condition) => Ok(grouped(memory, condition)?),
            Mixed::Expr(inner) => enclosed(memory, tokens, depth, inner),
        }
    }
}

/// Parses the rest of `(`: a condition and its `)`, or a test or an expression that begins with an expression in
/// parentheses.
#[cycle(conditions)]
#[tactic(auto, unfolding(tql_syntax_grammar::specs::ReadingExpressions::opened_over))]
fn opened<'a>(
    memory: Memory,
    tokens: &mut Cursor<'_, 'a>,
    depth: usize,
) -> Result<Tested<'a>, ParseError>
    ensures { Reads tested_of (reading.opened_over (expr_at depth) (mixed_at depth) tokens.old) result tokens.new }
{
    let inner = condition_or_expr(memory, tokens, depth)?;
    tokens.expect_symbol(Symbol::Close)?;
    inner.closed(memory, tokens, depth)
}

/// A test, or an expression that does not continue as a test.
#[cycle(conditions)]
#[tactic(auto, unfolding(tql_syntax_grammar::specs::ReadingExpressions::tested_over))]
fn test_or_expr<'a>(
    memory: Memory,
    tokens: &mut Cursor<'_, 'a>,
    depth: usize,
) -> Result<Tested<'a>, ParseError>
    ensures { Reads tested_of (reading.tested_over (expr_at depth) (mixed_at depth) tokens.old) result tokens.new }
{
    if begins_marked(tokens) {
        return marked_test(memory, tokens, depth);
    }
    if tokens.eat_symbol(Symbol::Open) {
        return opened(memory, tokens, depth);
    }
    let value = sum(memory, tokens, depth)?;
    test_behind(memory, tokens, depth, value)
}

/// Parses a test.
#[cycle(conditions)]
#[tactic(auto, unfolding(tql_syntax_grammar::specs::ReadingExpressions::test_over))]
fn test<'a>(
    memory: Memory,
    tokens: &mut Cursor<'_, 'a>,
    depth: usize,
) -> Result<Box<Test<'a>, Memory>, ParseError>
    ensures { Reads boxed_test_of (reading.test_over (expr_at depth) (mixed_at depth) tokens.old) result tokens.new }
{
    match test_or_expr(memory, tokens, depth)? {
        Tested::Test(test) => Ok(test),
        Tested::Expr(value) => {
            drop(value);
            Err(ParseError::NotInGrammar)
        }
    }
}

/// Parses a test, optionally preceded by NOT.
#[cycle(conditions)]
#[tactic(auto, unfolding(tql_syntax_grammar::specs::ReadingExpressions::factor_over))]
fn factor<'a>(
    memory: Memory,
    tokens: &mut Cursor<'_, 'a>,
    depth: usize,
) -> Result<Factor<'a>, ParseError>
    ensures { Reads factor_of (reading.factor_over (expr_at depth) (mixed_at depth) tokens.old) result tokens.new }
{
    let is_negated = tokens.eat_word("NOT");
    let test = test(memory, tokens, depth)?;
    Ok(Factor { is_negated, test })
}

/// Parses the factors after the first one.
#[cycle(conditions)]
fn factors<'a>(
    memory: Memory,
    tokens: &mut Cursor<'_, 'a>,
    depth: usize,
) -> Result<Vec<Factor<'a>, Memory>, ParseError>
    ensures { Reads factor_list
        (more (reading.next_test (expr_at depth) (mixed_at depth)) [] tokens.old) result tokens.new }
{
    let mut found = Vec::new(memory);
    for _turn in 0..tokens.left() {
        if !tokens.eat_word("AND") {
            return Ok(found);
        }
        found.push(factor(memory, tokens, depth)?)?;
    }
    Ok(found)
}

/// Parses the rest of the conjunction that begins with this factor.
#[cycle(conditions)]
#[tactic(auto, unfolding(tql_syntax_grammar::specs::ReadingExpressions::conj_behind))]
fn conj_behind<'a>(
    memory: Memory,
    tokens: &mut Cursor<'_, 'a>,
    depth: usize,
    first: Factor<'a>,
) -> Result<Conj<'a>, ParseError>
    ensures { Reads conj_of
        (reading.conj_behind (expr_at depth) (mixed_at depth) (factor_of first.entry) tokens.old) result tokens.new }
{
    let more = factors(memory, tokens, depth)?;
    Ok(Conj { first, more })
}

/// Parses factors joined by AND.
#[cycle(conditions)]
#[tactic(auto, unfolding(tql_syntax_grammar::specs::ReadingExpressions::conj_over))]
fn conj<'a>(
    memory: Memory,
    tokens: &mut Cursor<'_, 'a>,
    depth: usize,
) -> Result<Conj<'a>, ParseError>
    ensures { Reads conj_of (reading.conj_over (expr_at depth) (mixed_at depth) tokens.old) result tokens.new }
{
    let first = factor(memory, tokens, depth)?;
    conj_behind(memory, tokens, depth, first)
}

/// Parses the conjunctions after the first one.
#[cycle(conditions)]
fn conjs<'a>(
    memory: Memory,
    tokens: &mut Cursor<'_, 'a>,
    depth: usize,
) -> Result<Vec<Conj<'a>, Memory>, ParseError>
    ensures { Reads conj_list
        (more (reading.next_conj (expr_at depth) (mixed_at depth)) [] tokens.old) result tokens.new }
{
    let mut found = Vec::new(memory);
    for _turn in 0..tokens.left() {
        if !tokens.eat_word("OR") {
            return Ok(found);
        }
        found.push(conj(memory, tokens, depth)?)?;
    }
    Ok(found)
}

/// Parses the rest of the condition that begins with this factor.
#[cycle(conditions)]
#[tactic(auto, unfolding(tql_syntax_grammar::specs::ReadingExpressions::condition_behind))]
fn condition_behind<'a>(
    memory: Memory,
    tokens: &mut Cursor<'_, 'a>,
    depth: usize,
    first: Factor<'a>,
) -> Result<Box<Cond<'a>, Memory>, ParseError>
    ensures { Reads boxed_cond_of
        (reading.condition_behind (expr_at depth) (mixed_at depth) (factor_of first.entry) tokens.old)
        result tokens.new }
{
    let first = conj_behind(memory, tokens, depth, first)?;
    let more = conjs(memory, tokens, depth)?;
    let condition = boxed_cond(memory, Cond { first, more })?;
    Ok(condition)
}

/// Parses the rest of the condition that begins with `test`, negated if `is_negated`.
#[cycle(conditions)]
fn condition_from<'a>(
    memory: Memory,
    tokens: &mut Cursor<'_, 'a>,
    depth: usize,
    is_negated: bool,
    test: Box<Test<'a>, Memory>,
) -> Result<Mixed<'a>, ParseError>
    ensures { Reads mixed_of
        (into reading.WholeCondition
        (reading.condition_behind (expr_at depth) (mixed_at depth) (factor_by is_negated (boxed_test_of test.entry))
        tokens.old)) result tokens.new }
{
    let first = Factor { is_negated, test };
    let condition = condition_behind(memory, tokens, depth, first)?;
    Ok(Mixed::Cond(condition))
}

/// Parses a condition or an expression whose parentheses nest at most `depth` deep.
#[cycle(conditions)]
#[tactic(auto, unfolding(tql_syntax_grammar::specs::ReadingExpressions::mixed_over))]
fn condition_or_expr_over<'a>(
    memory: Memory,
    tokens: &mut Cursor<'_, 'a>,
    depth: usize,
) -> Result<Mixed<'a>, ParseError>
    ensures { Reads mixed_of (reading.mixed_over (expr_at depth) (mixed_at depth) tokens.old) result tokens.new }
{
    if tokens.eat_word("NOT") {
        let test = test(memory, tokens, depth)?;
        return condition_from(memory, tokens, depth, true, test);
    }
    match test_or_expr(memory, tokens, depth)? {
        Tested::Test(test) => condition_from(memory, tokens, depth, false, test),
        Tested::Expr(value) => Ok(Mixed::Expr(value)),
    }
}

/// Parses a condition or an expression of at most `depth` levels, itself included. Fails if `depth` is 0.
#[cycle(conditions)]
#[tactic(auto, unfolding(tql_syntax_grammar::specs::ReadingExpressions::mixed_at), using(tql_syntax_grammar::proofs::Levels::mixed_level))]
fn condition_or_expr<'a>(
    memory: Memory,
    tokens: &mut Cursor<'_, 'a>,
    depth: usize,
) -> Result<Mixed<'a>, ParseError>
    ensures { Reads mixed_of (mixed_at depth tokens.old) result tokens.new }
{
    if depth == 0 {
        return Err(ParseError::NotInGrammar);
    }
    condition_or_expr_over(memory, tokens, depth - 1)
}

/// Parses a condition whose parentheses nest at most `depth` deep.
#[tactic(auto, unfolding(tql_syntax_grammar::specs::ReadingExpressions::condition_over))]
fn condition_over<'a>(
    memory: Memory,
    tokens: &mut Cursor<'_, 'a>,
    depth: usize,
) -> Result<Box<Cond<'a>, Memory>, ParseError>
    ensures { Reads boxed_cond_of
        (reading.condition_over (expr_at depth) (mixed_at depth) tokens.old) result tokens.new }
{
    let first = factor(memory, tokens, depth)?;
    condition_behind(memory, tokens, depth, first)
}

/// Parses a condition, with the number of tokens as the bound on its levels.
#[tactic(auto, unfolding(tql_syntax_grammar::specs::ReadingExpressions::condition_at), using(tql_syntax_grammar::proofs::Levels::condition_level))]
pub fn condition_here<'a>(
    memory: Memory,
    tokens: &mut Cursor<'_, 'a>,
) -> Result<Box<Cond<'a>, Memory>, ParseError>
    ensures { Reads boxed_cond_of (reading.condition_here tokens.old) result tokens.new }
{
    let depth = tokens.left();
    if depth == 0 {
        return Err(ParseError::NotInGrammar);
    }
    condition_over(memory, tokens, depth - 1)
}
