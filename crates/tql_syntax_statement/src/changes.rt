//! Parsing INSERT, UPDATE and DELETE.
ghost use Rattle.std.specs.Prelude.{◌≡◌, List, option_map};
ghost use Rattle.tql_syntax_grammar.specs.Outcome.{name_at};
ghost use Rattle.tql_syntax_grammar.specs.ReadingStatements as reading;
ghost use Rattle.tql_syntax_expr.specs.Parsing.{Reads, Takes};
ghost use Rattle.tql_syntax_statement.specs.Cells.{begins_date, date_cell};
ghost use Rattle.tql_syntax_statement.specs.ChangeEnds as ends;
ghost use Rattle.tql_spec.specs.Definition as definition;
ghost use Rattle.tql_spec.specs.Syntax as tree;
ghost use Rattle.tql_syntax_tree.specs.Expressions.{name_of};
ghost use Rattle.tql_syntax_tree.specs.Statements.{names_of, cell_of, tuple_of, insert_by, assignment_of};
ghost use Rattle.tql_syntax_tree.specs.Statements.{assignments_of};
ghost use Rattle.tql_syntax_tree.specs.Statements.{point_of, portion_of, statement_of};

use tql_lex::token::Symbol;
use tql_memory::Memory;
use tql_syntax_expr::cursor::{Cursor, ParseError};
use tql_syntax_expr::expressions::expr_here;
use tql_syntax_expr::lists::{Rule, behind_commas, separated};
use tql_syntax_query::clauses::{moment, period_name, where_clause};
use tql_syntax_query::queries::select;
use tql_syntax_tree::expression::Name;
use tql_syntax_tree::statement::{
    CellTree, Delete, Insert, PointTree, PortionTree, RowSource, SetTree, Statement, Tuple, Update,
    boxed_delete, boxed_insert, boxed_update,
};

/// Parses a number or a text that is a cell by itself, if one is next.
fn lone_literal<'a>(tokens: &mut Cursor<'_, 'a>) -> Option<CellTree<'a>>
    ensures { Takes cell_of reading.cell_at tokens.old result tokens.new }
{
    let start = tokens.start();
    if tokens.goes_on_second() {
        return None;
    }
    if let Some(digits) = tokens.eat_number() {
        return Some(CellTree::Number(digits, start));
    }
    match tokens.eat_quote() {
        Some(text) => Some(CellTree::Text(text, start)),
        None => None,
    }
}

/// Whether the next cell begins with DATE, and its expression does not go on behind the text after it.
fn begins_date(tokens: &Cursor<'_, '_>) -> bool
    ensures { result ≡ begins_date tokens.now }
{
    tokens.begins_word("DATE") && !tokens.goes_on_third()
}

/// Parses a DATE literal that is a cell by itself.
fn date<'a>(tokens: &mut Cursor<'_, 'a>) -> Result<CellTree<'a>, ParseError>
    ensures { Reads cell_of (date_cell tokens.old) result tokens.new }
{
    let start = tokens.start();
    tokens.expect_word("DATE")?;
    let text = tokens.quote()?;
    Ok(CellTree::Date(text, start))
}

/// The rule for a cell of VALUES or SET.
struct CellRule;

impl<'a> Rule<'a, Memory> for CellRule {
    type Item = CellTree<'a>;

    ghost Tree = { tree.CellTree };

    ghost view = { cell_of };

    ghost rule = { λ _. reading.cell_at };

    #[tactic(auto, unfolding(tql_syntax_grammar::specs::ReadingStatements::cell_at))]
    fn read(
        &self,
        memory: Memory,
        tokens: &mut Cursor<'_, 'a>,
    ) -> Result<CellTree<'a>, ParseError> {
        if let Some(literal) = lone_literal(tokens) {
            return Ok(literal);
        }
        if begins_date(tokens) {
            return date(tokens);
        }
        if tokens.eat_word("NULL") {
            return Ok(CellTree::Null);
        }
        let value = expr_here(memory, tokens)?;
        Ok(CellTree::Value(value))
    }
}

/// The rule for a tuple of VALUES.
struct TupleRule;

impl<'a> Rule<'a, Memory> for TupleRule {
    type Item = Tuple<'a>;

    ghost Tree = { tree.Tuple };

    ghost view = { tuple_of };

    ghost rule = { λ _. reading.tuple_at };

    #[tactic(auto, unfolding(tql_syntax_grammar::specs::ReadingStatements::tuple_at))]
    fn read(&self, memory: Memory, tokens: &mut Cursor<'_, 'a>) -> Result<Tuple<'a>, ParseError> {
        tokens.expect_symbol(Symbol::Open)?;
        let first = CellRule.read(memory, tokens)?;
        let more = behind_commas(memory, tokens, &CellRule)?;
        tokens.expect_symbol(Symbol::Close)?;
        Ok(Tuple { first, more })
    }
}

/// Parses a point of a portion: a DATE or a TIMESTAMP literal.
#[tactic(auto, unfolding(tql_syntax_grammar::specs::ReadingStatements::point_at))]
fn point<'a>(tokens: &mut Cursor<'_, 'a>) -> Result<PointTree<'a>, ParseError>
    ensures { Reads point_of (reading.point_at tokens.old) result tokens.new }
{
    if tokens.eat_word("DATE") {
        let text = tokens.quote()?;
        return Ok(PointTree::Date(text));
    }
    let text = moment(tokens)?;
    Ok(PointTree::Moment(text))
}

/// Parses the rest of `FOR` in an UPDATE or DELETE.
#[tactic(auto, unfolding(tql_syntax_grammar::specs::ReadingStatements::portion_behind))]
fn portion_behind<'a>(tokens: &mut Cursor<'_, 'a>) -> Result<PortionTree<'a>, ParseError>
    ensures { Reads portion_of (reading.portion_behind tokens.old) result tokens.new }
{
    tokens.expect_word("PORTION")?;
    tokens.expect_word("OF")?;
    let period = period_name(tokens)?;
    tokens.expect_word("FROM")?;
    let from = point(tokens)?;
    tokens.expect_word("TO")?;
    let to = point(tokens)?;
    Ok(PortionTree { period, from, to })
}

/// Parses a FOR PORTION OF clause, if one is next.
#[tactic(auto, unfolding(tql_syntax_grammar::specs::ReadingStatements::portion_at))]
fn portion<'a>(tokens: &mut Cursor<'_, 'a>) -> Result<Option<PortionTree<'a>>, ParseError>
    ensures { Reads (option_map portion_of) (reading.portion_at tokens.old) result tokens.new }
{
    if tokens.eat_word("FOR") {
        let portion = portion_behind(tokens)?;
        return Ok(Some(portion));
    }
    Ok(None)
}

/// The rule for an assignment of SET.
struct AssignmentRule;

impl<'a> Rule<'a, Memory> for AssignmentRule {
    type Item = SetTree<'a>;

    ghost Tree = { tree.SetTree };

    ghost view = { assignment_of };

    ghost rule = { λ _. reading.assignment_at };

    #[tactic(auto, unfolding(tql_syntax_grammar::specs::ReadingStatements::assignment_at))]
    fn read(&self, memory: Memory, tokens: &mut Cursor<'_, 'a>) -> Result<SetTree<'a>, ParseError> {
        let column = tokens.name()?;
        tokens.expect_symbol(Symbol::EqualSign)?;
        let value = CellRule.read(memory, tokens)?;
        Ok(SetTree { column, value })
    }
}

/// Parses the rest of UPDATE after its assignments.
#[tactic(auto, unfolding(crate::specs::ChangeEnds::update_end))]
fn update_end<'a>(
    memory: Memory,
    tokens: &mut Cursor<'_, 'a>,
    table: Name<'a>,
    portion: Option<PortionTree<'a>>,
    first: SetTree<'a>,
    more: Vec<SetTree<'a>, Memory>,
) -> Result<Statement<'a>, ParseError>
    ensures { Reads statement_of
        (ends.update_end (name_of table.entry) (option_map portion_of portion.entry) (assignment_of first.entry)
        (assignments_of more.entry) tokens.old) result tokens.new }
{
    let filter = where_clause(memory, tokens)?;
    let update = Update {
        table,
        portion,
        first,
        more,
        filter,
    };
    let update = boxed_update(memory, update)?;
    Ok(Statement::Update(update))
}

/// Parses the rest of UPDATE after its first assignment.
#[tactic(auto, unfolding(crate::specs::ChangeEnds::sets_end))]
fn sets_end<'a>(
    memory: Memory,
    tokens: &mut Cursor<'_, 'a>,
    table: Name<'a>,
    portion: Option<PortionTree<'a>>,
    first: SetTree<'a>,
) -> Result<Statement<'a>, ParseError>
    ensures { Reads statement_of
        (ends.sets_end (name_of table.entry) (option_map portion_of portion.entry) (assignment_of first.entry)
        tokens.old) result tokens.new }
{
    let more = behind_commas(memory, tokens, &AssignmentRule)?;
    update_end(memory, tokens, table, portion, first, more)
}

/// Parses the rest of `UPDATE`.
#[tactic(auto, unfolding(tql_syntax_grammar::specs::ReadingStatements::update_at, crate::specs::ChangeEnds::sets_end, crate::specs::ChangeEnds::update_end))]
pub fn update<'a>(memory: Memory, tokens: &mut Cursor<'_, 'a>) -> Result<Statement<'a>, ParseError>
    ensures { Reads statement_of (reading.update_at tokens.old) result tokens.new }
{
    let table = tokens.name()?;
    let portion = portion(tokens)?;
    tokens.expect_word("SET")?;
    let first = AssignmentRule.read(memory, tokens)?;
    sets_end(memory, tokens, table, portion, first)
}

/// Parses the rest of DELETE after its table and portion.
#[tactic(auto, unfolding(crate::specs::ChangeEnds::delete_end))]
fn delete_end<'a>(
    memory: Memory,
    tokens: &mut Cursor<'_, 'a>,
    table: Name<'a>,
    portion: Option<PortionTree<'a>>,
) -> Result<Statement<'a>, ParseError>
    ensures { Reads statement_of
        (ends.delete_end (name_of table.entry) (option_map portion_of portion.entry) tokens.old) result tokens.new }
{
    let filter = where_clause(memory, tokens)?;
    let delete = Delete {
        table,
        portion,
        filter,
    };
    let delete = boxed_delete(memory, delete)?;
    Ok(Statement::Delete(delete))
}

/// Parses the rest of `DELETE`.
#[tactic(auto, unfolding(tql_syntax_grammar::specs::ReadingStatements::delete_at, crate::specs::ChangeEnds::delete_end))]
pub fn delete<'a>(memory: Memory, tokens: &mut Cursor<'_, 'a>) -> Result<Statement<'a>, ParseError>
    ensures { Reads statement_of (reading.delete_at tokens.old) result tokens.new }
{
    tokens.expect_word("FROM")?;
    let table = tokens.name()?;
    let portion = portion(tokens)?;
    delete_end(memory, tokens, table, portion)
}

/// The rule for a name.
struct NameRule;

impl<'a> Rule<'a, Memory> for NameRule {
    type Item = Name<'a>;

    ghost Tree = { definition.Name };

    ghost view = { name_of };

    ghost rule = { λ _. name_at };

    fn read(&self, _memory: Memory, tokens: &mut Cursor<'_, 'a>) -> Result<Name<'a>, ParseError> {
        tokens.name()
    }
}

/// Parses the column list of INSERT, and returns its columns; none if the list is absent.
#[tactic(auto, unfolding(tql_syntax_grammar::specs::ReadingStatements::column_list_at))]
fn column_list<'a>(
    memory: Memory,
    tokens: &mut Cursor<'_, 'a>,
) -> Result<Vec<Name<'a>, Memory>, ParseError>
    ensures { Reads names_of (reading.column_list_at tokens.old) result tokens.new }
{
    if tokens.eat_symbol(Symbol::Open) {
        let columns = separated(memory, tokens, &NameRule)?;
        tokens.expect_symbol(Symbol::Close)?;
        return Ok(columns);
    }
    Ok(Vec::new(memory))
}

/// Parses the rest of `VALUES` in an INSERT.
#[tactic(auto, unfolding(tql_syntax_grammar::specs::ReadingStatements::values_at))]
fn values<'a>(memory: Memory, tokens: &mut Cursor<'_, 'a>) -> Result<RowSource<'a>, ParseError>
    ensures { (n : definition.Name) → (cs : List definition.Name)
        → Reads (insert_by n cs) (reading.values_at n cs tokens.old) result tokens.new }
{
    let first = TupleRule.read(memory, tokens)?;
    let more = behind_commas(memory, tokens, &TupleRule)?;
    Ok(RowSource::Values(first, more))
}

/// Parses the source of the rows of INSERT: VALUES, or a select.
#[tactic(auto, unfolding(crate::specs::ChangeEnds::rows_at))]
fn rows<'a>(memory: Memory, tokens: &mut Cursor<'_, 'a>) -> Result<RowSource<'a>, ParseError>
    ensures { (n : definition.Name) → (cs : List definition.Name)
        → Reads (insert_by n cs) (ends.rows_at n cs tokens.old) result tokens.new }
{
    if tokens.eat_word("VALUES") {
        return values(memory, tokens);
    }
    tokens.expect_word("SELECT")?;
    let select = select(memory, tokens)?;
    Ok(RowSource::Select(select))
}

/// Parses the rest of INSERT after its column list.
fn insert_end<'a>(
    memory: Memory,
    tokens: &mut Cursor<'_, 'a>,
    table: Name<'a>,
    columns: Vec<Name<'a>, Memory>,
) -> Result<Statement<'a>, ParseError>
    ensures { Reads statement_of
        (ends.rows_at (name_of table.entry) (names_of columns.entry) tokens.old) result tokens.new }
{
    let rows = rows(memory, tokens)?;
    let insert = Insert {
        table,
        columns,
        rows,
    };
    let insert = boxed_insert(memory, insert)?;
    Ok(Statement::Insert(insert))
}

/// Parses the rest of `INSERT`.
#[tactic(auto, unfolding(tql_syntax_grammar::specs::ReadingStatements::insert_at, crate::specs::ChangeEnds::rows_at))]
pub fn insert<'a>(memory: Memory, tokens: &mut Cursor<'_, 'a>) -> Result<Statement<'a>, ParseError>
    ensures { Reads statement_of (reading.insert_at tokens.old) result tokens.new }
{
    tokens.expect_word("INTO")?;
    let table = tokens.name()?;
    let columns = column_list(memory, tokens)?;
    insert_end(memory, tokens, table, columns)
}
