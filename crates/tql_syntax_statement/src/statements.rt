//! Parsing statements.
ghost use Rattle.tql_syntax_grammar.specs.ReadingStatements as reading;
ghost use Rattle.tql_syntax_expr.specs.Parsing.{Reads};
ghost use Rattle.tql_syntax_tree.specs.Statements.{statement_of};
ghost use Rattle.tql_syntax_tree.specs.Trees.{tree_of};

use crate::changes::{delete, insert, update};
use crate::creates::{create, drop_table};
use tql_memory::Memory;
use tql_syntax_expr::cursor::{Cursor, ParseError};
use tql_syntax_query::clauses::moment;
use tql_syntax_query::queries::{query, read_query};
use tql_syntax_tree::statement::Statement;
use tql_syntax_tree::tree::Tree;

/// Parses the rest of `PRUNE`: HISTORY BEFORE and a moment.
#[tactic(auto, unfolding(tql_syntax_grammar::specs::ReadingStatements::prune_at))]
fn prune<'a>(tokens: &mut Cursor<'_, 'a>) -> Result<Statement<'a>, ParseError>
    ensures { Reads statement_of (reading.prune_at tokens.old) result tokens.new }
{
    tokens.expect_word("HISTORY")?;
    tokens.expect_word("BEFORE")?;
    let text = moment(tokens)?;
    Ok(Statement::Prune(text))
}

/// Parses a statement for transactions, the clock or the horizon.
#[tactic(auto, unfolding(tql_syntax_grammar::specs::ReadingStatements::control_at))]
fn control<'a>(tokens: &mut Cursor<'_, 'a>) -> Result<Statement<'a>, ParseError>
    ensures { Reads statement_of (reading.control_at tokens.old) result tokens.new }
{
    if tokens.eat_word("START") {
        tokens.expect_word("TRANSACTION")?;
        return Ok(Statement::StartTransaction);
    }
    if tokens.eat_word("COMMIT") {
        tokens.eat_word("WORK");
        return Ok(Statement::Commit);
    }
    if tokens.eat_word("ROLLBACK") {
        tokens.eat_word("WORK");
        return Ok(Statement::Rollback);
    }
    if tokens.eat_word("PRUNE") {
        return prune(tokens);
    }
    tokens.expect_word("AT")?;
    let text = moment(tokens)?;
    Ok(Statement::At(text))
}

/// Parses the rest of `OPEN`: READER and a name.
#[tactic(auto, unfolding(tql_syntax_grammar::specs::ReadingStatements::open_at))]
fn open_reader<'a>(tokens: &mut Cursor<'_, 'a>) -> Result<Statement<'a>, ParseError>
    ensures { Reads statement_of (reading.open_at tokens.old) result tokens.new }
{
    tokens.expect_word("READER")?;
    let reader = tokens.name()?;
    Ok(Statement::OpenReader(reader))
}

/// Parses the rest of `CLOSE`: READER and a name.
#[tactic(auto, unfolding(tql_syntax_grammar::specs::ReadingStatements::close_at))]
fn close_reader<'a>(tokens: &mut Cursor<'_, 'a>) -> Result<Statement<'a>, ParseError>
    ensures { Reads statement_of (reading.close_at tokens.old) result tokens.new }
{
    tokens.expect_word("READER")?;
    let reader = tokens.name()?;
    Ok(Statement::CloseReader(reader))
}

/// Parses a statement for readers, transactions, the clock or the horizon.
#[tactic(auto, unfolding(tql_syntax_grammar::specs::ReadingStatements::reader_at))]
fn reader<'a>(memory: Memory, tokens: &mut Cursor<'_, 'a>) -> Result<Statement<'a>, ParseError>
    ensures { Reads statement_of (reading.reader_at tokens.old) result tokens.new }
{
    if tokens.eat_word("OPEN") {
        return open_reader(tokens);
    }
    if tokens.eat_word("READ") {
        return read_query(memory, tokens);
    }
    if tokens.eat_word("CLOSE") {
        return close_reader(tokens);
    }
    control(tokens)
}

/// Parses a statement that changes rows, or one for readers, transactions, the clock or the horizon.
#[tactic(auto, unfolding(tql_syntax_grammar::specs::ReadingStatements::change_at))]
fn change<'a>(memory: Memory, tokens: &mut Cursor<'_, 'a>) -> Result<Statement<'a>, ParseError>
    ensures { Reads statement_of (reading.change_at tokens.old) result tokens.new }
{
    if tokens.eat_word("INSERT") {
        return insert(memory, tokens);
    }
    if tokens.eat_word("UPDATE") {
        return update(memory, tokens);
    }
    if tokens.eat_word("DELETE") {
        return delete(memory, tokens);
    }
    reader(memory, tokens)
}

/// Parses a statement.
#[tactic(auto, unfolding(tql_syntax_grammar::specs::ReadingStatements::statement_at))]
fn statement<'a>(memory: Memory, tokens: &mut Cursor<'_, 'a>) -> Result<Statement<'a>, ParseError>
    ensures { Reads statement_of (reading.statement_at tokens.old) result tokens.new }
{
    if tokens.eat_word("SELECT") {
        return query(memory, tokens);
    }
    if tokens.eat_word("CREATE") {
        return create(memory, tokens);
    }
    if tokens.eat_word("DROP") {
        return drop_table(tokens);
    }
    change(memory, tokens)
}

/// Parses a statement, and returns its tree. Tokens may be left after it.
pub fn statement_tree<'a>(
    memory: Memory,
    tokens: &mut Cursor<'_, 'a>,
) -> Result<Tree<'a>, ParseError>
    ensures { Reads tree_of (reading.statement_at tokens.old) result tokens.new }
{
    let statement = statement(memory, tokens)?;
    Ok(Tree { statement })
}
