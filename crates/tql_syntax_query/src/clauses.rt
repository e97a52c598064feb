//! Parsing the clauses that several kinds of statements share.
ghost use Rattle.std.specs.Prelude.{option_map};
ghost use Rattle.tql_syntax_grammar.specs.ReadingStatements as reading;
ghost use Rattle.tql_syntax_expr.specs.Parsing.{Reads};
ghost use Rattle.tql_syntax_tree.specs.Expressions.{content_of, name_of};
ghost use Rattle.tql_syntax_tree.specs.Statements.{filter_of};

use tql_memory::Memory;
use tql_syntax_cond::conditions::condition_here;
use tql_syntax_expr::cursor::{Cursor, ParseError};
use tql_syntax_tree::condition::Cond;
use tql_syntax_tree::expression::Name;

/// Parses a TIMESTAMP literal, and returns its quoted text.
#[tactic(auto, unfolding(tql_syntax_grammar::specs::ReadingStatements::moment_at))]
pub fn moment<'a>(tokens: &mut Cursor<'_, 'a>) -> Result<&'a str, ParseError>
    ensures { Reads content_of (reading.moment_at tokens.old) result tokens.new }
{
    tokens.expect_word("TIMESTAMP")?;
    tokens.quote()
}

/// Parses a WHERE clause, if one is next.
#[tactic(auto, unfolding(tql_syntax_grammar::specs::ReadingStatements::where_at))]
pub fn where_clause<'a>(
    memory: Memory,
    tokens: &mut Cursor<'_, 'a>,
) -> Result<Option<Box<Cond<'a>, Memory>>, ParseError>
    ensures { Reads filter_of (reading.where_at tokens.old) result tokens.new }
{
    if tokens.eat_word("WHERE") {
        let condition = condition_here(memory, tokens)?;
        return Ok(Some(condition));
    }
    Ok(None)
}

/// Parses the name of a period; SYSTEM_TIME is returned as None.
#[tactic(auto, unfolding(tql_syntax_grammar::specs::ReadingStatements::period_name_at))]
pub fn period_name<'a>(tokens: &mut Cursor<'_, 'a>) -> Result<Option<Name<'a>>, ParseError>
    ensures { Reads (option_map name_of) (reading.period_name_at tokens.old) result tokens.new }
{
    if tokens.eat_word("SYSTEM_TIME") {
        return Ok(None);
    }
    let name = tokens.name()?;
    Ok(Some(name))
}
