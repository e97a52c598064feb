//! Parsing queries.
ghost use Rattle.std.specs.Prelude.{◌≡◌, Bool, List, option_map};
ghost use Rattle.tql_spec.specs.Syntax as tree;
ghost use Rattle.tql_syntax_grammar.specs.Outcome.{Read};
ghost use Rattle.tql_syntax_grammar.specs.ReadingExpressions.{named_at};
ghost use Rattle.tql_syntax_grammar.specs.ReadingStatements as reading;
ghost use Rattle.tql_syntax_expr.specs.Parsing.{Reads};
ghost use Rattle.tql_syntax_query.specs.SelectEnds.{ended_by, select_from};
ghost use Rattle.tql_syntax_tree.specs.Expressions.{name_of, named_of};
ghost use Rattle.tql_syntax_tree.specs.Statements.{span_of, ref_of, joined_by, crossed_of, join_of, chain_of, item_of};
ghost use Rattle.tql_syntax_tree.specs.Statements.{items_of, filter_of, nameds_of, boxed_select_of, key_name_of};
ghost use Rattle.tql_syntax_tree.specs.Statements.{order_of};
ghost use Rattle.tql_syntax_tree.specs.Statements.{orders_of, statement_of};

use crate::clauses::{moment, where_clause};
use tql_lex::token::Symbol;
use tql_memory::Memory;
use tql_syntax_cond::conditions::condition_here;
use tql_syntax_expr::cursor::{Cursor, ParseError};
use tql_syntax_expr::expressions::{expr_here, named};
use tql_syntax_expr::lists::{Rule, Step, behind_commas, repeated, separated};
use tql_syntax_tree::condition::Cond;
use tql_syntax_tree::expression::{Name, Named};
use tql_syntax_tree::statement::{
    ChainTree, Item, Items, JoinTree, Joined, KeyName, OrderTree, Query, RefTree, SelectTree,
    SpanTree, Statement, boxed_joined, boxed_query, boxed_reference, boxed_select,
};

/// Parses the rest of `FROM` in a FOR SYSTEM_TIME clause: `moment TO moment`.
#[tactic(auto, unfolding(tql_syntax_grammar::specs::ReadingStatements::from_to_at))]
fn from_to<'a>(tokens: &mut Cursor<'_, 'a>) -> Result<SpanTree<'a>, ParseError>
    ensures { Reads span_of (reading.from_to_at tokens.old) result tokens.new }
{
    let from = moment(tokens)?;
    tokens.expect_word("TO")?;
    let to = moment(tokens)?;
    Ok(SpanTree::FromTo(from, to))
}

/// Parses the rest of `BETWEEN` in a FOR SYSTEM_TIME clause: `moment AND moment`.
#[tactic(auto, unfolding(tql_syntax_grammar::specs::ReadingStatements::between_at))]
fn between<'a>(tokens: &mut Cursor<'_, 'a>) -> Result<SpanTree<'a>, ParseError>
    ensures { Reads span_of (reading.between_at tokens.old) result tokens.new }
{
    let from = moment(tokens)?;
    tokens.expect_word("AND")?;
    let to = moment(tokens)?;
    Ok(SpanTree::Between(from, to))
}

/// Parses the rest of `FOR` in a table reference.
#[tactic(auto, unfolding(tql_syntax_grammar::specs::ReadingStatements::span_behind))]
fn span_behind<'a>(tokens: &mut Cursor<'_, 'a>) -> Result<SpanTree<'a>, ParseError>
    ensures { Reads span_of (reading.span_behind tokens.old) result tokens.new }
{
    tokens.expect_word("SYSTEM_TIME")?;
    if tokens.eat_word("AS") {
        tokens.expect_word("OF")?;
        let at = moment(tokens)?;
        return Ok(SpanTree::AsOf(at));
    }
    if tokens.eat_word("FROM") {
        return from_to(tokens);
    }
    tokens.expect_word("BETWEEN")?;
    between(tokens)
}

/// Parses the FOR SYSTEM_TIME clause of a table reference, if one is next.
#[tactic(auto, unfolding(tql_syntax_grammar::specs::ReadingStatements::span_at))]
fn span<'a>(tokens: &mut Cursor<'_, 'a>) -> Result<SpanTree<'a>, ParseError>
    ensures { Reads span_of (reading.span_at tokens.old) result tokens.new }
{
    if tokens.eat_word("FOR") {
        return span_behind(tokens);
    }
    Ok(SpanTree::None)
}

/// Parses the alias of a table reference or an item, with or without AS, if one is next.
#[tactic(auto, unfolding(tql_syntax_grammar::specs::ReadingStatements::alias_at))]
fn alias<'a>(tokens: &mut Cursor<'_, 'a>) -> Result<Option<Name<'a>>, ParseError>
    ensures { Reads (option_map name_of) (reading.alias_at tokens.old) result tokens.new }
{
    if tokens.eat_word("AS") {
        let name = tokens.name()?;
        return Ok(Some(name));
    }
    if tokens.begins_name() {
        let name = tokens.name()?;
        return Ok(Some(name));
    }
    Ok(None)
}

/// Parses a table reference.
#[tactic(auto, unfolding(tql_syntax_grammar::specs::ReadingStatements::ref_at))]
fn reference<'a>(tokens: &mut Cursor<'_, 'a>) -> Result<RefTree<'a>, ParseError>
    ensures { Reads ref_of (reading.ref_at tokens.old) result tokens.new }
{
    let table = tokens.name()?;
    let span = span(tokens)?;
    let alias = alias(tokens)?;
    Ok(RefTree { table, span, alias })
}

/// Parses the rest of `JOIN` in an inner or outer join: a table reference and its ON condition.
#[tactic(auto, unfolding(tql_syntax_grammar::specs::ReadingStatements::joined_on_at))]
fn joined_on<'a>(
    memory: Memory,
    tokens: &mut Cursor<'_, 'a>,
) -> Result<Box<Joined<'a>, Memory>, ParseError>
    ensures { (which : tree.RefTree → tree.Condition → tree.JoinTree)
        → Reads (joined_by which) (reading.joined_on_at which tokens.old) result tokens.new }
{
    let reference = reference(tokens)?;
    tokens.expect_word("ON")?;
    let condition = condition_here(memory, tokens)?;
    let joined = Joined {
        reference,
        condition,
    };
    Ok(boxed_joined(memory, joined)?)
}

/// Parses the rest of `INNER`.
#[tactic(auto, unfolding(tql_syntax_grammar::specs::ReadingStatements::inner_at))]
fn inner<'a>(
    memory: Memory,
    tokens: &mut Cursor<'_, 'a>,
) -> Result<Box<Joined<'a>, Memory>, ParseError>
    ensures { Reads (joined_by tree.InnerJoin) (reading.inner_at tokens.old) result tokens.new }
{
    tokens.expect_word("JOIN")?;
    joined_on(memory, tokens)
}

/// Parses the rest of `LEFT`.
#[tactic(auto, unfolding(tql_syntax_grammar::specs::ReadingStatements::left_at))]
fn left<'a>(
    memory: Memory,
    tokens: &mut Cursor<'_, 'a>,
) -> Result<Box<Joined<'a>, Memory>, ParseError>
    ensures { Reads (joined_by tree.LeftJoin) (reading.left_at tokens.old) result tokens.new }
{
    tokens.eat_word("OUTER");
    tokens.expect_word("JOIN")?;
    joined_on(memory, tokens)
}

/// Parses the rest of `CROSS`.
#[tactic(auto, unfolding(tql_syntax_grammar::specs::ReadingStatements::cross_at))]
fn cross<'a>(
    memory: Memory,
    tokens: &mut Cursor<'_, 'a>,
) -> Result<Box<RefTree<'a>, Memory>, ParseError>
    ensures { Reads crossed_of (reading.cross_at tokens.old) result tokens.new }
{
    tokens.expect_word("JOIN")?;
    let reference = reference(tokens)?;
    Ok(boxed_reference(memory, reference)?)
}

/// The step that parses a join, if one is next.
struct JoinStep;

impl<'a> Step<'a, Memory> for JoinStep {
    type Item = JoinTree<'a>;

    ghost Tree = { tree.JoinTree };

    ghost view = { join_of };

    ghost step = { λ _. reading.next_join };

    #[tactic(auto, unfolding(tql_syntax_grammar::specs::ReadingStatements::next_join))]
    fn next(
        &self,
        memory: Memory,
        tokens: &mut Cursor<'_, 'a>,
    ) -> Result<Option<JoinTree<'a>>, ParseError> {
        if tokens.eat_word("INNER") {
            let joined = inner(memory, tokens)?;
            return Ok(Some(JoinTree::Inner(joined)));
        }
        if tokens.eat_word("JOIN") {
            let joined = joined_on(memory, tokens)?;
            return Ok(Some(JoinTree::Inner(joined)));
        }
        if tokens.eat_word("LEFT") {
            let joined = left(memory, tokens)?;
            return Ok(Some(JoinTree::Left(joined)));
        }
        if tokens.eat_word("CROSS") {
            let reference = cross(memory, tokens)?;
            return Ok(Some(JoinTree::Cross(reference)));
        }
        Ok(None)
    }
}

/// The rule for a chain of joins in FROM.
struct ChainRule;

impl<'a> Rule<'a, Memory> for ChainRule {
    type Item = ChainTree<'a>;

    ghost Tree = { tree.ChainTree };

    ghost view = { chain_of };

    ghost rule = { λ _. reading.chain_at };

    #[tactic(auto, unfolding(tql_syntax_grammar::specs::ReadingStatements::chain_at))]
    fn read(
        &self,
        memory: Memory,
        tokens: &mut Cursor<'_, 'a>,
    ) -> Result<ChainTree<'a>, ParseError> {
        let first = reference(tokens)?;
        let joins = repeated(memory, tokens, &JoinStep)?;
        Ok(ChainTree { first, joins })
    }
}

/// The rule for an item of the select list.
struct ItemRule;

impl<'a> Rule<'a, Memory> for ItemRule {
    type Item = Item<'a>;

    ghost Tree = { tree.Item };

    ghost view = { item_of };

    ghost rule = { λ _. reading.item_at };

    #[tactic(auto, unfolding(tql_syntax_grammar::specs::ReadingStatements::item_at))]
    fn read(&self, memory: Memory, tokens: &mut Cursor<'_, 'a>) -> Result<Item<'a>, ParseError> {
        let value = expr_here(memory, tokens)?;
        let alias = alias(tokens)?;
        Ok(Item { value, alias })
    }
}

/// Parses the items of a select list.
#[tactic(auto, unfolding(tql_syntax_grammar::specs::ReadingStatements::items_behind))]
fn items_behind<'a>(memory: Memory, tokens: &mut Cursor<'_, 'a>) -> Result<Items<'a>, ParseError>
    ensures { Reads items_of (reading.items_behind tokens.old) result tokens.new }
{
    let first = ItemRule.read(memory, tokens)?;
    let more = behind_commas(memory, tokens, &ItemRule)?;
    Ok(Items::These(first, more))
}

/// Parses a select list: `*`, or items.
#[tactic(auto, unfolding(tql_syntax_grammar::specs::ReadingStatements::items_at))]
fn items<'a>(memory: Memory, tokens: &mut Cursor<'_, 'a>) -> Result<Items<'a>, ParseError>
    ensures { Reads items_of (reading.items_at tokens.old) result tokens.new }
{
    if tokens.eat_symbol(Symbol::Star) {
        return Ok(Items::All);
    }
    items_behind(memory, tokens)
}

/// Consumes DISTINCT or ALL, if one is next. Returns whether it was DISTINCT.
#[tactic(auto, unfolding(tql_syntax_grammar::specs::ReadingStatements::distinct_at))]
fn distinct(tokens: &mut Cursor<'_, '_>) -> bool
    ensures { reading.distinct_at tokens.old ≡ Read result tokens.new }
{
    if tokens.eat_word("DISTINCT") {
        return true;
    }
    tokens.eat_word("ALL");
    false
}

/// Parses a HAVING clause, if one is next.
#[tactic(auto, unfolding(tql_syntax_grammar::specs::ReadingStatements::having_at))]
fn having_clause<'a>(
    memory: Memory,
    tokens: &mut Cursor<'_, 'a>,
) -> Result<Option<Box<Cond<'a>, Memory>>, ParseError>
    ensures { Reads filter_of (reading.having_at tokens.old) result tokens.new }
{
    if tokens.eat_word("HAVING") {
        let condition = condition_here(memory, tokens)?;
        return Ok(Some(condition));
    }
    Ok(None)
}

/// The rule for a reference to a column or a period.
struct NamedRule;

impl<'a> Rule<'a, Memory> for NamedRule {
    type Item = Named<'a>;

    ghost Tree = { tree.Named };

    ghost view = { named_of };

    ghost rule = { λ _. named_at };

    fn read(&self, _memory: Memory, tokens: &mut Cursor<'_, 'a>) -> Result<Named<'a>, ParseError> {
        named(tokens)
    }
}

/// Parses a GROUP BY clause, and returns its columns; none if the clause is absent.
#[tactic(auto, unfolding(tql_syntax_grammar::specs::ReadingStatements::group_by_at))]
fn group_by<'a>(
    memory: Memory,
    tokens: &mut Cursor<'_, 'a>,
) -> Result<Vec<Named<'a>, Memory>, ParseError>
    ensures { Reads nameds_of (reading.group_by_at tokens.old) result tokens.new }
{
    if tokens.eat_word("GROUP") {
        tokens.expect_word("BY")?;
        return separated(memory, tokens, &NamedRule);
    }
    Ok(Vec::new(memory))
}

/// The clauses of a select after FROM.
#[derive(Drop)]
struct SelectEnd<'a> {
    filter: Option<Box<Cond<'a>, Memory>>,
    grouping: Vec<Named<'a>, Memory>,
    having: Option<Box<Cond<'a>, Memory>>,
}

/// Parses the clauses of a select after FROM: WHERE, GROUP BY and HAVING.
#[tactic(auto, unfolding(tql_syntax_grammar::specs::ReadingStatements::select_end))]
fn select_end<'a>(memory: Memory, tokens: &mut Cursor<'_, 'a>) -> Result<SelectEnd<'a>, ParseError>
    ensures { (d : Bool) → (is : tree.Items) → (c : tree.ChainTree) → (cs : List tree.ChainTree)
        → Reads (ended_by d is c cs) (reading.select_end d is c cs tokens.old) result tokens.new }
{
    let filter = where_clause(memory, tokens)?;
    let grouping = group_by(memory, tokens)?;
    let having = having_clause(memory, tokens)?;
    Ok(SelectEnd {
        filter,
        grouping,
        having,
    })
}

/// Parses the rest of `FROM` in a select.
#[tactic(auto, unfolding(crate::specs::SelectEnds::select_from))]
fn select_from<'a>(
    memory: Memory,
    tokens: &mut Cursor<'_, 'a>,
    is_distinct: bool,
    items: Items<'a>,
) -> Result<Box<SelectTree<'a>, Memory>, ParseError>
    ensures { Reads boxed_select_of (select_from is_distinct (items_of items.entry) tokens.old) result tokens.new }
{
    let first = ChainRule.read(memory, tokens)?;
    let more = behind_commas(memory, tokens, &ChainRule)?;
    let SelectEnd {
        filter,
        grouping,
        having,
    } = select_end(memory, tokens)?;
    let select = SelectTree {
        is_distinct,
        items,
        first,
        more,
        filter,
        grouping,
        having,
    };
    Ok(boxed_select(memory, select)?)
}

/// Parses the rest of `SELECT`, without ORDER BY.
#[tactic(auto, unfolding(tql_syntax_grammar::specs::ReadingStatements::select_at, crate::specs::SelectEnds::select_from))]
pub fn select<'a>(
    memory: Memory,
    tokens: &mut Cursor<'_, 'a>,
) -> Result<Box<SelectTree<'a>, Memory>, ParseError>
    ensures { Reads boxed_select_of (reading.select_at tokens.old) result tokens.new }
{
    let is_distinct = distinct(tokens);
    let items = items(memory, tokens)?;
    tokens.expect_word("FROM")?;
    select_from(memory, tokens, is_distinct, items)
}

/// Parses a position or a heading.
#[tactic(auto, unfolding(tql_syntax_grammar::specs::ReadingStatements::key_name_at))]
fn key_name<'a>(tokens: &mut Cursor<'_, 'a>) -> Result<KeyName<'a>, ParseError>
    ensures { Reads key_name_of (reading.key_name_at tokens.old) result tokens.new }
{
    if let Some(digits) = tokens.eat_number() {
        return Ok(KeyName::Position(digits));
    }
    let name = tokens.name()?;
    Ok(KeyName::Heading(name))
}

/// Consumes DESC or ASC, if one is next. Returns whether it was DESC.
#[tactic(auto, unfolding(tql_syntax_grammar::specs::ReadingStatements::direction_at))]
fn direction(tokens: &mut Cursor<'_, '_>) -> bool
    ensures { reading.direction_at tokens.old ≡ Read result tokens.new }
{
    if tokens.eat_word("DESC") {
        return true;
    }
    tokens.eat_word("ASC");
    false
}

/// The rule for a key of ORDER BY.
struct OrderKeyRule;

impl<'a> Rule<'a, Memory> for OrderKeyRule {
    type Item = OrderTree<'a>;

    ghost Tree = { tree.OrderTree };

    ghost view = { order_of };

    ghost rule = { λ _. reading.order_key_at };

    #[tactic(auto, unfolding(tql_syntax_grammar::specs::ReadingStatements::order_key_at))]
    fn read(
        &self,
        _memory: Memory,
        tokens: &mut Cursor<'_, 'a>,
    ) -> Result<OrderTree<'a>, ParseError> {
        let key = key_name(tokens)?;
        let falls = direction(tokens);
        Ok(OrderTree { key, falls })
    }
}

/// Parses an ORDER BY clause, and returns its keys; none if the clause is absent.
#[tactic(auto, unfolding(tql_syntax_grammar::specs::ReadingStatements::order_by_at))]
fn order_by<'a>(
    memory: Memory,
    tokens: &mut Cursor<'_, 'a>,
) -> Result<Vec<OrderTree<'a>, Memory>, ParseError>
    ensures { Reads orders_of (reading.order_by_at tokens.old) result tokens.new }
{
    if tokens.eat_word("ORDER") {
        tokens.expect_word("BY")?;
        return separated(memory, tokens, &OrderKeyRule);
    }
    Ok(Vec::new(memory))
}

/// Parses the rest of `SELECT` in a query, with ORDER BY.
#[tactic(auto, unfolding(tql_syntax_grammar::specs::ReadingStatements::query_at))]
pub fn query<'a>(memory: Memory, tokens: &mut Cursor<'_, 'a>) -> Result<Statement<'a>, ParseError>
    ensures { Reads statement_of (reading.query_at tokens.old) result tokens.new }
{
    let select = select(memory, tokens)?;
    let ordering = order_by(memory, tokens)?;
    let query = Query { select, ordering };
    let query = boxed_query(memory, query)?;
    Ok(Statement::Query(query))
}

/// Parses the rest of `READ`: a reader's name, and a query.
#[tactic(auto, unfolding(tql_syntax_grammar::specs::ReadingStatements::read_at))]
pub fn read_query<'a>(
    memory: Memory,
    tokens: &mut Cursor<'_, 'a>,
) -> Result<Statement<'a>, ParseError>
    ensures { Reads statement_of (reading.read_at tokens.old) result tokens.new }
{
    let reader = tokens.name()?;
    tokens.expect_word("SELECT")?;
    let select = select(memory, tokens)?;
    let ordering = order_by(memory, tokens)?;
    let query = Query { select, ordering };
    let query = boxed_query(memory, query)?;
    Ok(Statement::Read(reader, query))
}
