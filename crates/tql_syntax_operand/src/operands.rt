//! Parsing periods as operands, and the tests that may follow an expression or a period.
ghost use Rattle.std.specs.Prelude.{◌≡◌, IfOk, option_map};
ghost use Rattle.tql_syntax_grammar.specs.Outcome.{Read};
ghost use Rattle.tql_syntax_grammar.specs.ReadingExpressions as reading;
ghost use Rattle.tql_syntax_grammar.specs.ReadingExpressions.{expr_at, sum_over};
ghost use Rattle.tql_syntax_expr.specs.Parsing.{Reads};
ghost use Rattle.tql_syntax_tree.specs.Expressions.{named_of, boxed_expr_of};
ghost use Rattle.tql_spec.specs.Syntax as tree;
ghost use Rattle.tql_syntax_operand.specs.Tails.{tail_test};
ghost use Rattle.tql_syntax_tree.specs.Conditions.{comparison_of, relation_of, marked_of, operand_of, boxed_test_of};

use std::alloc::AllocError;
use tql_lex::token::Symbol;
use tql_memory::Memory;
use tql_syntax_expr::cursor::{Cursor, ParseError};
use tql_syntax_expr::expressions::{named, sum};
use tql_syntax_expr::lists::{Rule, behind_commas};
use tql_syntax_tree::condition::{Comparison, Marked, Operand, Relation, Test, boxed_test};
use tql_syntax_tree::expression::{Expr, Named};

/// Parses a comparison operator, if one is next.
#[tactic(auto, unfolding(tql_syntax_grammar::specs::ReadingExpressions::comparison_at))]
pub fn comparison(tokens: &mut Cursor<'_, '_>) -> Option<Comparison>
    ensures { reading.comparison_at tokens.old ≡ Read (option_map comparison_of result) tokens.new }
{
    if tokens.eat_symbol(Symbol::EqualSign) {
        return Some(Comparison::Equals);
    }
    if tokens.eat_symbol(Symbol::UnequalSign) {
        return Some(Comparison::Differs);
    }
    if tokens.eat_symbol(Symbol::LessSign) {
        return Some(Comparison::Below);
    }
    if tokens.eat_symbol(Symbol::AtMostSign) {
        return Some(Comparison::AtMost);
    }
    if tokens.eat_symbol(Symbol::MoreSign) {
        return Some(Comparison::Above);
    }
    if tokens.eat_symbol(Symbol::AtLeastSign) {
        return Some(Comparison::AtLeast);
    }
    None
}

/// Parses the rest of `IMMEDIATELY`: PRECEDES or SUCCEEDS.
#[tactic(auto, unfolding(tql_syntax_grammar::specs::ReadingExpressions::immediate_at))]
fn immediate(tokens: &mut Cursor<'_, '_>) -> Result<Relation, ParseError>
    ensures { Reads relation_of (reading.immediate_at tokens.old) result tokens.new }
{
    if tokens.eat_word("PRECEDES") {
        return Ok(Relation::ImmediatelyPrecedes);
    }
    tokens.expect_word("SUCCEEDS")?;
    Ok(Relation::ImmediatelySucceeds)
}

/// Parses a relation of periods that is written as words, if one is next.
#[tactic(auto, unfolding(tql_syntax_grammar::specs::ReadingExpressions::relation_at))]
fn relation(tokens: &mut Cursor<'_, '_>) -> Result<Option<Relation>, ParseError>
    ensures { Reads (option_map relation_of) (reading.relation_at tokens.old) result tokens.new }
{
    if tokens.eat_word("OVERLAPS") {
        return Ok(Some(Relation::Overlaps));
    }
    if tokens.eat_word("EQUALS") {
        return Ok(Some(Relation::Equals));
    }
    if tokens.eat_word("PRECEDES") {
        return Ok(Some(Relation::Precedes));
    }
    if tokens.eat_word("SUCCEEDS") {
        return Ok(Some(Relation::Succeeds));
    }
    if tokens.eat_word("IMMEDIATELY") {
        let relation = immediate(tokens)?;
        return Ok(Some(relation));
    }
    Ok(None)
}

/// Whether a marked period is next: PERIOD, SYSTEM_TIME, or a name, a dot and SYSTEM_TIME.
pub fn begins_marked(tokens: &Cursor<'_, '_>) -> bool
    ensures { result ≡ reading.begins_marked tokens.now }
{
    tokens.begins_word("PERIOD")
        || tokens.begins_word("SYSTEM_TIME")
        || (tokens.begins_name()
            && tokens.second_is_symbol(Symbol::Dot)
            && tokens.third_is_word("SYSTEM_TIME"))
}

/// Parses the rest of `PERIOD`: the start and the end in parentheses.
#[tactic(auto, unfolding(tql_syntax_grammar::specs::ReadingExpressions::ends_over))]
fn ends<'a>(
    memory: Memory,
    tokens: &mut Cursor<'_, 'a>,
    depth: usize,
) -> Result<Marked<'a>, ParseError>
    ensures { Reads marked_of (reading.ends_over (expr_at depth) tokens.old) result tokens.new }
{
    tokens.expect_symbol(Symbol::Open)?;
    let start = sum(memory, tokens, depth)?;
    tokens.expect_symbol(Symbol::Comma)?;
    let end = sum(memory, tokens, depth)?;
    tokens.expect_symbol(Symbol::Close)?;
    Ok(Marked::FromEnds(start, end))
}

/// Parses the system period of a named table reference: `name . SYSTEM_TIME`.
#[tactic(auto, unfolding(tql_syntax_grammar::specs::ReadingExpressions::qualified_system_at))]
fn qualified_system<'a>(tokens: &mut Cursor<'_, 'a>) -> Result<Marked<'a>, ParseError>
    ensures { Reads marked_of (reading.qualified_system_at tokens.old) result tokens.new }
{
    let name = tokens.name()?;
    tokens.expect_symbol(Symbol::Dot)?;
    tokens.expect_word("SYSTEM_TIME")?;
    Ok(Marked::SystemTime(Some(name)))
}

/// Parses a marked period.
#[tactic(auto, unfolding(tql_syntax_grammar::specs::ReadingExpressions::marked_over))]
pub fn marked<'a>(
    memory: Memory,
    tokens: &mut Cursor<'_, 'a>,
    depth: usize,
) -> Result<Marked<'a>, ParseError>
    ensures { Reads marked_of (reading.marked_over (expr_at depth) tokens.old) result tokens.new }
{
    if tokens.eat_word("PERIOD") {
        return ends(memory, tokens, depth);
    }
    if tokens.eat_word("SYSTEM_TIME") {
        return Ok(Marked::SystemTime(None));
    }
    qualified_system(tokens)
}

/// Parses a period as an operand.
#[tactic(auto, unfolding(tql_syntax_grammar::specs::ReadingExpressions::operand_over))]
fn operand<'a>(
    memory: Memory,
    tokens: &mut Cursor<'_, 'a>,
    depth: usize,
) -> Result<Operand<'a>, ParseError>
    ensures { Reads operand_of (reading.operand_over (expr_at depth) tokens.old) result tokens.new }
{
    if begins_marked(tokens) {
        let mark = marked(memory, tokens, depth)?;
        return Ok(Operand::ByMark(mark));
    }
    let name = named(tokens)?;
    Ok(Operand::ByName(name))
}

/// The part of a test after its period.
#[derive(Drop)]
pub enum Tail<'a> {
    Related(Relation, Operand<'a>),
    ContainsPeriod(Marked<'a>),
    ContainsPoint(Box<Expr<'a>, Memory>),
}

/// Builds the test of an operand and the part after it. The only error is a failed allocation.
pub fn operand_test<'a>(
    memory: Memory,
    left: Operand<'a>,
    tail: Tail<'a>,
) -> Result<Box<Test<'a>, Memory>, AllocError>
    ensures { IfOk result (λ test. boxed_test_of test ≡ tail_test (operand_of left.entry) tail.entry) }
{
    let test = match tail {
        Tail::Related(relation, right) => Test::Related(left, relation, right),
        Tail::ContainsPeriod(mark) => Test::ContainsPeriod(left, mark),
        Tail::ContainsPoint(point) => Test::ContainsPoint(left, point),
    };
    boxed_test(memory, test)
}

/// Parses the rest of `CONTAINS`: a marked period, or an expression.
#[tactic(auto, unfolding(tql_syntax_grammar::specs::ReadingExpressions::contained_over))]
fn contained<'a>(
    memory: Memory,
    tokens: &mut Cursor<'_, 'a>,
    depth: usize,
) -> Result<Tail<'a>, ParseError>
    ensures { (left : tree.Operand)
        → Reads (tail_test left) (reading.contained_over (expr_at depth) left tokens.old) result tokens.new }
{
    if begins_marked(tokens) {
        let mark = marked(memory, tokens, depth)?;
        return Ok(Tail::ContainsPeriod(mark));
    }
    let point = sum(memory, tokens, depth)?;
    Ok(Tail::ContainsPoint(point))
}

/// Parses the part of a test after an operand, if it is next: a relation and an operand, or CONTAINS and its argument.
#[tactic(auto, unfolding(tql_syntax_grammar::specs::ReadingExpressions::related_over))]
pub fn read_tail<'a>(
    memory: Memory,
    tokens: &mut Cursor<'_, 'a>,
    depth: usize,
) -> Result<Option<Tail<'a>>, ParseError>
    ensures { (left : tree.Operand)
        → Reads (option_map (tail_test left))
        (reading.related_over (expr_at depth) left tokens.old) result tokens.new }
{
    if let Some(relation) = relation(tokens)? {
        let right = operand(memory, tokens, depth)?;
        return Ok(Some(Tail::Related(relation, right)));
    }
    if tokens.eat_word("CONTAINS") {
        let tail = contained(memory, tokens, depth)?;
        return Ok(Some(tail));
    }
    Ok(None)
}

/// Parses the rest of `value IS`: `[NOT] NULL`.
#[tactic(auto, unfolding(tql_syntax_grammar::specs::ReadingExpressions::null_test_at))]
pub fn null_test<'a>(
    memory: Memory,
    tokens: &mut Cursor<'_, 'a>,
    value: Box<Expr<'a>, Memory>,
) -> Result<Box<Test<'a>, Memory>, ParseError>
    ensures { Reads boxed_test_of (reading.null_test_at (boxed_expr_of value.entry) tokens.old) result tokens.new }
{
    let is_negated = tokens.eat_word("NOT");
    tokens.expect_word("NULL")?;
    let test = boxed_test(memory, Test::Null(is_negated, value))?;
    Ok(test)
}

/// Parses the rest of `value [NOT] BETWEEN`: `low AND high`.
#[tactic(auto, unfolding(tql_syntax_grammar::specs::ReadingExpressions::between_over))]
pub fn between<'a>(
    memory: Memory,
    tokens: &mut Cursor<'_, 'a>,
    depth: usize,
    is_negated: bool,
    value: Box<Expr<'a>, Memory>,
) -> Result<Box<Test<'a>, Memory>, ParseError>
    ensures { Reads boxed_test_of
        (reading.between_over (expr_at depth) is_negated (boxed_expr_of value.entry) tokens.old) result tokens.new }
{
    let low = sum(memory, tokens, depth)?;
    tokens.expect_word("AND")?;
    let high = sum(memory, tokens, depth)?;
    let test = boxed_test(memory, Test::Between(is_negated, value, low, high))?;
    Ok(test)
}

/// The rule for an expression whose parentheses nest at most `depth` deep.
#[derive(Drop)]
struct SumRule {
    depth: usize,
}

impl<'a> Rule<'a, Memory> for SumRule {
    type Item = Box<Expr<'a>, Memory>;

    ghost Tree = { tree.Sum };

    ghost view = { boxed_expr_of };

    ghost rule = { λ it. sum_over (expr_at it.depth) };

    fn read(
        &self,
        memory: Memory,
        tokens: &mut Cursor<'_, 'a>,
    ) -> Result<Box<Expr<'a>, Memory>, ParseError> {
        sum(memory, tokens, self.depth)
    }
}

/// Parses the rest of `value [NOT] IN`: a list of expressions in parentheses.
#[tactic(auto, unfolding(tql_syntax_grammar::specs::ReadingExpressions::in_over))]
pub fn in_list<'a>(
    memory: Memory,
    tokens: &mut Cursor<'_, 'a>,
    depth: usize,
    is_negated: bool,
    value: Box<Expr<'a>, Memory>,
) -> Result<Box<Test<'a>, Memory>, ParseError>
    ensures { Reads boxed_test_of
        (reading.in_over (expr_at depth) is_negated (boxed_expr_of value.entry) tokens.old) result tokens.new }
{
    tokens.expect_symbol(Symbol::Open)?;
    let first = sum(memory, tokens, depth)?;
    let more = behind_commas(memory, tokens, &SumRule { depth })?;
    tokens.expect_symbol(Symbol::Close)?;
    let test = boxed_test(memory, Test::In(is_negated, value, first, more))?;
    Ok(test)
}

/// Parses the rest of `value NOT`: a BETWEEN or an IN test.
#[tactic(auto, unfolding(tql_syntax_grammar::specs::ReadingExpressions::denied_over))]
pub fn denied<'a>(
    memory: Memory,
    tokens: &mut Cursor<'_, 'a>,
    depth: usize,
    value: Box<Expr<'a>, Memory>,
) -> Result<Box<Test<'a>, Memory>, ParseError>
    ensures { Reads boxed_test_of
        (reading.denied_over (expr_at depth) (boxed_expr_of value.entry) tokens.old) result tokens.new }
{
    if tokens.eat_word("BETWEEN") {
        return between(memory, tokens, depth, true, value);
    }
    tokens.expect_word("IN")?;
    in_list(memory, tokens, depth, true, value)
}
