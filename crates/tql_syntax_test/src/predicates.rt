//! Parsing predicates: one test, or an expression that does not continue as a test. `depth` bounds how deep parentheses
//! may nest.
ghost use Rattle.std.specs.Prelude.{◌≡◌, IfOk};
ghost use Rattle.tql_syntax_grammar.specs.Outcome.{Read, into};
ghost use Rattle.tql_spec.specs.Syntax as tree;
ghost use Rattle.tql_syntax_grammar.specs.ReadingExpressions as reading;
ghost use Rattle.tql_syntax_grammar.specs.ReadingExpressions.{expr_at, mixed_at, as_named, test_or};
ghost use Rattle.tql_syntax_expr.specs.Parsing.{Reads};
ghost use Rattle.tql_syntax_operand.specs.Tails.{tail_test};
ghost use Rattle.tql_syntax_tree.specs.Expressions.{named_of, expr_of, boxed_expr_of, primary_of};
ghost use Rattle.tql_syntax_tree.specs.Conditions.{operand_of, boxed_test_of, boxed_cond_of};
ghost use Rattle.tql_syntax_test.specs.Predicates.{tested_of, is_lone};
ghost use Rattle.tql_syntax_test.specs.TestEnds.{operand_end};
ghost use Rattle.tql_syntax_test.specs.TestWords.{test_word_at, worded_over};

use std::alloc::AllocError;
use tql_memory::Memory;
use tql_syntax_expr::cursor::{Cursor, ParseError};
use tql_syntax_expr::expressions::{expr_behind, sum, term_behind};
use tql_syntax_operand::operands::{
    Tail, between, comparison, denied, in_list, marked, null_test, operand_test, read_tail,
};
use tql_syntax_tree::condition::{Cond, Operand, Test, boxed_test};
use tql_syntax_tree::expression::{Expr, Named, Primary, Sign, Signed};

/// A word that continues an expression as a test.
#[derive(Clone, Copy)]
enum TestWord {
    Is,
    Not,
    Between,
    In,
}

/// A test, or an expression that does not continue as a test.
#[derive(Drop)]
pub enum Tested<'a> {
    Test(Box<Test<'a>, Memory>),
    Expr(Box<Expr<'a>, Memory>),
}

/// Whether an expression is one primary without a sign.
#[tactic(auto, using(crate::proofs::Names::lone_expr))]
fn is_lone(value: &Expr<'_>) -> bool
    ensures { result ≡ is_lone (expr_of value.now) }
{
    if !value.more.is_empty() || !value.first.more.is_empty() {
        return false;
    }
    match value.first.first.sign {
        Sign::None => true,
        Sign::Plus | Sign::Minus => false,
    }
}

/// Builds the test of an operand and the part after it. The only error is a failed allocation.
fn related<'a>(memory: Memory, left: Operand<'a>, tail: Tail<'a>) -> Result<Tested<'a>, AllocError>
    ensures { IfOk result
        (λ tested. tested_of tested ≡ reading.WholeTest (tail_test (operand_of left.entry) tail.entry)) }
{
    let test = operand_test(memory, left, tail)?;
    Ok(Tested::Test(test))
}

/// Parses what may follow `value`, which is the column reference `name`: a relation, CONTAINS or nothing.
fn named_test<'a>(
    memory: Memory,
    tokens: &mut Cursor<'_, 'a>,
    depth: usize,
    name: Named<'a>,
    value: Box<Expr<'a>, Memory>,
) -> Result<Tested<'a>, ParseError>
    ensures { Reads tested_of
        (into (test_or (boxed_expr_of value.entry))
        (reading.related_over (expr_at depth) (tree.ByName (named_of name.entry)) tokens.old)) result tokens.new }
{
    match read_tail(memory, tokens, depth)? {
        Some(tail) => {
            drop(value);
            Ok(related(memory, Operand::ByName(name), tail)?)
        }
        None => Ok(Tested::Expr(value)),
    }
}

/// Parses what may follow `value`: a relation or CONTAINS if `value` is one column reference, or nothing.
#[tactic(auto, using(crate::proofs::Names::lone_name, crate::proofs::Names::not_lone))]
fn period_test<'a>(
    memory: Memory,
    tokens: &mut Cursor<'_, 'a>,
    depth: usize,
    value: Box<Expr<'a>, Memory>,
) -> Result<Tested<'a>, ParseError>
    ensures { Reads tested_of
        (reading.period_test_over (expr_at depth) (boxed_expr_of value.entry) (as_named (boxed_expr_of value.entry))
        tokens.old) result tokens.new }
{
    if !is_lone(&value) {
        return Ok(Tested::Expr(value));
    }
    match &value.first.first.primary {
        Primary::Column(named) => {
            let name = *named;
            named_test(memory, tokens, depth, name, value)
        }
        Primary::Number(_)
        | Primary::Text(_)
        | Primary::Date(_)
        | Primary::Timestamp(_)
        | Primary::Enclosed(_)
        | Primary::CountStar
        | Primary::Over(_, _) => Ok(Tested::Expr(value)),
    }
}

/// Consumes a word that continues an expression as a test, if one is next.
fn test_word(tokens: &mut Cursor<'_, '_>) -> Option<TestWord>
    ensures { test_word_at tokens.old ≡ Read result tokens.new }
{
    if tokens.eat_word("IS") {
        return Some(TestWord::Is);
    }
    if tokens.eat_word("NOT") {
        return Some(TestWord::Not);
    }
    if tokens.eat_word("BETWEEN") {
        return Some(TestWord::Between);
    }
    if tokens.eat_word("IN") {
        return Some(TestWord::In);
    }
    None
}

/// Parses the rest of the test that begins with `value` and `word`.
fn worded<'a>(
    memory: Memory,
    tokens: &mut Cursor<'_, 'a>,
    depth: usize,
    word: TestWord,
    value: Box<Expr<'a>, Memory>,
) -> Result<Box<Test<'a>, Memory>, ParseError>
    ensures { Reads boxed_test_of
        (worded_over (expr_at depth) word (boxed_expr_of value.entry) tokens.old) result tokens.new }
{
    match word {
        TestWord::Is => null_test(memory, tokens, value),
        TestWord::Not => denied(memory, tokens, depth, value),
        TestWord::Between => between(memory, tokens, depth, false, value),
        TestWord::In => in_list(memory, tokens, depth, false, value),
    }
}

/// Parses what may follow `value`, other than a comparison: the rest of a test that continues with a word, or nothing.
#[tactic(auto, using(crate::proofs::TestWords::by_word))]
fn word_test<'a>(
    memory: Memory,
    tokens: &mut Cursor<'_, 'a>,
    depth: usize,
    value: Box<Expr<'a>, Memory>,
) -> Result<Tested<'a>, ParseError>
    ensures { Reads tested_of
        (reading.word_test_over (expr_at depth) (boxed_expr_of value.entry) tokens.old) result tokens.new }
{
    match test_word(tokens) {
        Some(word) => {
            let test = worded(memory, tokens, depth, word, value)?;
            Ok(Tested::Test(test))
        }
        None => period_test(memory, tokens, depth, value),
    }
}

/// Parses what may follow `value`: a comparison and its right side, the rest of another test, or nothing.
#[tactic(auto, unfolding(tql_syntax_grammar::specs::ReadingExpressions::test_behind))]
pub fn test_behind<'a>(
    memory: Memory,
    tokens: &mut Cursor<'_, 'a>,
    depth: usize,
    value: Box<Expr<'a>, Memory>,
) -> Result<Tested<'a>, ParseError>
    ensures { Reads tested_of
        (reading.test_behind (expr_at depth) (boxed_expr_of value.entry) tokens.old) result tokens.new }
{
    match comparison(tokens) {
        Some(comparison) => {
            let right = sum(memory, tokens, depth)?;
            let test = boxed_test(memory, Test::Compared(comparison, value, right))?;
            Ok(Tested::Test(test))
        }
        None => word_test(memory, tokens, depth, value),
    }
}

/// Parses the rest of the test that begins with `left`. Fails if neither a relation nor CONTAINS is next.
#[tactic(auto, unfolding(crate::specs::TestEnds::operand_end))]
fn operand_end<'a>(
    memory: Memory,
    tokens: &mut Cursor<'_, 'a>,
    depth: usize,
    left: Operand<'a>,
) -> Result<Tested<'a>, ParseError>
    ensures { Reads tested_of (operand_end (expr_at depth) (operand_of left.entry) tokens.old) result tokens.new }
{
    match read_tail(memory, tokens, depth)? {
        Some(tail) => Ok(related(memory, left, tail)?),
        None => Err(ParseError::NotInGrammar),
    }
}

/// Parses a test that begins with a marked period.
#[tactic(auto, unfolding(tql_syntax_grammar::specs::ReadingExpressions::marked_test_over, crate::specs::TestEnds::operand_end))]
pub fn marked_test<'a>(
    memory: Memory,
    tokens: &mut Cursor<'_, 'a>,
    depth: usize,
) -> Result<Tested<'a>, ParseError>
    ensures { Reads tested_of (reading.marked_test_over (expr_at depth) tokens.old) result tokens.new }
{
    let mark = marked(memory, tokens, depth)?;
    operand_end(memory, tokens, depth, Operand::ByMark(mark))
}

/// Parses the rest of the expression that begins with `primary`, whose byte offset in the text is `start`.
#[tactic(auto, unfolding(tql_syntax_grammar::specs::ReadingExpressions::sum_from))]
fn expr_from<'a>(
    memory: Memory,
    tokens: &mut Cursor<'_, 'a>,
    depth: usize,
    start: u32,
    primary: Primary<'a>,
) -> Result<Box<Expr<'a>, Memory>, ParseError>
    ensures { Reads boxed_expr_of
        (reading.sum_from (expr_at depth) (primary_of primary.entry) tokens.old) result tokens.new }
{
    let signed = Signed {
        sign: Sign::None,
        primary,
        start,
    };
    let term = term_behind(memory, tokens, depth, signed)?;
    expr_behind(memory, tokens, depth, term)
}

/// Parses the rest of a test or an expression that begins with `inner` in parentheses.
pub fn enclosed<'a>(
    memory: Memory,
    tokens: &mut Cursor<'_, 'a>,
    depth: usize,
    inner: Box<Expr<'a>, Memory>,
) -> Result<Tested<'a>, ParseError>
    ensures { Reads tested_of
        (reading.closed_over (expr_at depth) (mixed_at depth) (reading.WholeExpr (boxed_expr_of inner.entry))
        tokens.old) result tokens.new }
{
    let start = inner.first.first.start;
    let value = expr_from(memory, tokens, depth, start, Primary::Enclosed(inner))?;
    test_behind(memory, tokens, depth, value)
}

/// Builds the test that is this condition in parentheses. The only error is a failed allocation.
pub fn grouped<'a>(
    memory: Memory,
    condition: Box<Cond<'a>, Memory>,
) -> Result<Tested<'a>, AllocError>
    ensures { IfOk result
        (λ tested. tested_of tested ≡ reading.WholeTest (tree.Grouped (boxed_cond_of condition.entry))) }
{
    let test = boxed_test(memory, Test::Grouped(condition))?;
    Ok(Tested::Test(test))
}
