//! Parsing CREATE TABLE and DROP TABLE.
ghost use Rattle.std.specs.Prelude.{◌≡◌, option_map};
ghost use Rattle.tql_syntax_grammar.specs.Outcome.{into, next};
ghost use Rattle.tql_syntax_grammar.specs.ReadingStatements as reading;
ghost use Rattle.tql_syntax_statement.specs.CreateEnds as ends;
ghost use Rattle.tql_syntax_expr.specs.Parsing.{Reads, nothing, itself};
ghost use Rattle.tql_spec.specs.Definition as definition;
ghost use Rattle.tql_spec.specs.Syntax as tree;
ghost use Rattle.tql_syntax_tree.specs.Expressions.{digits_of, name_of};
ghost use Rattle.tql_syntax_tree.specs.Statements.{type_of, generated_of, reflist_of, constraint_of};
ghost use Rattle.tql_syntax_tree.specs.Statements.{boxed_constraint_of};
ghost use Rattle.tql_syntax_tree.specs.Statements.{element_of, elements_of, statement_of};

use tql_lex::token::Symbol;
use tql_memory::Memory;
use tql_syntax_cond::conditions::condition_here;
use tql_syntax_expr::cursor::{Cursor, ParseError};
use tql_syntax_expr::lists::{Rule, Step, behind_commas, repeated};
use tql_syntax_query::clauses::period_name;
use tql_syntax_tree::expression::Name;
use tql_syntax_tree::statement::{
    ColumnTree, Constraint, CreateTree, Element, ForeignTree, Generated, KeyTree, PeriodTree,
    RefList, Statement, TypeName, boxed_constraint, boxed_create,
};

/// Parses `( number )`, and returns the digits.
#[tactic(auto, unfolding(tql_syntax_grammar::specs::ReadingStatements::size_at))]
fn size<'a>(tokens: &mut Cursor<'_, 'a>) -> Result<&'a str, ParseError>
    ensures { Reads digits_of (reading.size_at tokens.old) result tokens.new }
{
    tokens.expect_symbol(Symbol::Open)?;
    let digits = tokens.number()?;
    tokens.expect_symbol(Symbol::Close)?;
    Ok(digits)
}

/// Parses `( number )` if `(` is next, and returns the digits.
#[tactic(auto, unfolding(tql_syntax_grammar::specs::ReadingStatements::precision_at))]
fn precision<'a>(tokens: &mut Cursor<'_, 'a>) -> Result<Option<&'a str>, ParseError>
    ensures { Reads (option_map digits_of) (reading.precision_at tokens.old) result tokens.new }
{
    if tokens.begins_symbol(Symbol::Open) {
        let digits = size(tokens)?;
        return Ok(Some(digits));
    }
    Ok(None)
}

/// Parses WITHOUT TIME ZONE if WITHOUT is next.
#[tactic(auto, unfolding(tql_syntax_grammar::specs::ReadingStatements::zone_at))]
fn zone(tokens: &mut Cursor<'_, '_>) -> Result<(), ParseError>
    ensures { Reads nothing (reading.zone_at tokens.old) result tokens.new }
{
    if tokens.eat_word("WITHOUT") {
        tokens.expect_word("TIME")?;
        return tokens.expect_word("ZONE");
    }
    Ok(())
}

/// Parses the rest of `TIMESTAMP` in a type.
#[tactic(auto, unfolding(tql_syntax_grammar::specs::ReadingStatements::timestamp_type_at))]
fn timestamp_type<'a>(tokens: &mut Cursor<'_, 'a>) -> Result<TypeName<'a>, ParseError>
    ensures { Reads type_of (reading.timestamp_type_at tokens.old) result tokens.new }
{
    let precision = precision(tokens)?;
    zone(tokens)?;
    Ok(TypeName::Timestamp(precision))
}

/// Parses a type.
#[tactic(auto, unfolding(tql_syntax_grammar::specs::ReadingStatements::type_at))]
fn type_name<'a>(tokens: &mut Cursor<'_, 'a>) -> Result<TypeName<'a>, ParseError>
    ensures { Reads type_of (reading.type_at tokens.old) result tokens.new }
{
    if tokens.eat_word("INTEGER") {
        return Ok(TypeName::Integer);
    }
    if tokens.eat_word("INT") {
        return Ok(TypeName::Integer);
    }
    if tokens.eat_word("BIGINT") {
        return Ok(TypeName::Integer);
    }
    if tokens.eat_word("VARCHAR") {
        let digits = size(tokens)?;
        return Ok(TypeName::Varchar(digits));
    }
    if tokens.eat_word("DATE") {
        return Ok(TypeName::Date);
    }
    tokens.expect_word("TIMESTAMP")?;
    timestamp_type(tokens)
}

/// Parses NOT NULL if NOT is next. Returns whether it was.
#[tactic(auto, unfolding(tql_syntax_grammar::specs::ReadingStatements::not_null_at))]
fn not_null(tokens: &mut Cursor<'_, '_>) -> Result<bool, ParseError>
    ensures { Reads itself (reading.not_null_at tokens.old) result tokens.new }
{
    if tokens.eat_word("NOT") {
        tokens.expect_word("NULL")?;
        return Ok(true);
    }
    Ok(false)
}

/// Parses the rest of `GENERATED`: ALWAYS AS ROW, and START or END.
#[tactic(auto, unfolding(tql_syntax_grammar::specs::ReadingStatements::generated_at))]
fn generated(tokens: &mut Cursor<'_, '_>) -> Result<Generated, ParseError>
    ensures { Reads generated_of (reading.generated_at tokens.old) result tokens.new }
{
    tokens.expect_word("ALWAYS")?;
    tokens.expect_word("AS")?;
    tokens.expect_word("ROW")?;
    if tokens.eat_word("START") {
        return Ok(Generated::RowStart);
    }
    tokens.expect_word("END")?;
    Ok(Generated::RowEnd)
}

/// Parses a column. NOT NULL may come before or after GENERATED.
#[tactic(auto, unfolding(tql_syntax_grammar::specs::ReadingStatements::column_at))]
fn column<'a>(tokens: &mut Cursor<'_, 'a>) -> Result<Element<'a>, ParseError>
    ensures { Reads element_of (reading.column_at tokens.old) result tokens.new }
{
    let name = tokens.name()?;
    let type_name = type_name(tokens)?;
    let is_required_before = not_null(tokens)?;
    let (generated, is_required_behind) = if tokens.eat_word("GENERATED") {
        (Some(generated(tokens)?), not_null(tokens)?)
    } else {
        (None, false)
    };
    Ok(Element::Column(ColumnTree {
        name,
        type_name,
        is_required: is_required_before || is_required_behind,
        generated,
    }))
}

/// Parses the rest of `PERIOD`.
#[tactic(auto, unfolding(tql_syntax_grammar::specs::ReadingStatements::period_at))]
fn period<'a>(tokens: &mut Cursor<'_, 'a>) -> Result<Element<'a>, ParseError>
    ensures { Reads element_of (reading.period_at tokens.old) result tokens.new }
{
    tokens.expect_word("FOR")?;
    let name = period_name(tokens)?;
    tokens.expect_symbol(Symbol::Open)?;
    let start = tokens.name()?;
    tokens.expect_symbol(Symbol::Comma)?;
    let end = tokens.name()?;
    tokens.expect_symbol(Symbol::Close)?;
    Ok(Element::Period(PeriodTree { name, start, end }))
}

/// The step that parses a comma and a column of a key, if a comma is next and the key's period does not follow it.
struct KeyColumnStep;

impl<'a> Step<'a, Memory> for KeyColumnStep {
    type Item = Name<'a>;

    ghost Tree = { definition.Name };

    ghost view = { name_of };

    ghost step = { λ _. reading.next_key_column };

    #[tactic(auto, unfolding(tql_syntax_grammar::specs::ReadingStatements::next_key_column))]
    fn next(
        &self,
        _memory: Memory,
        tokens: &mut Cursor<'_, 'a>,
    ) -> Result<Option<Name<'a>>, ParseError> {
        if tokens.begins_symbol(Symbol::Comma) && tokens.third_is_word("WITHOUT") {
            return Ok(None);
        }
        if !tokens.eat_symbol(Symbol::Comma) {
            return Ok(None);
        }
        let name = tokens.name()?;
        Ok(Some(name))
    }
}

/// Parses a comma and `name WITHOUT OVERLAPS`, if a comma is next.
#[tactic(auto, unfolding(tql_syntax_grammar::specs::ReadingStatements::key_period_at))]
fn next_key_period<'a>(tokens: &mut Cursor<'_, 'a>) -> Result<Option<Name<'a>>, ParseError>
    ensures { Reads (option_map name_of) (next reading.key_period_at tokens.old) result tokens.new }
{
    if !tokens.eat_symbol(Symbol::Comma) {
        return Ok(None);
    }
    let name = tokens.name()?;
    tokens.expect_word("WITHOUT")?;
    tokens.expect_word("OVERLAPS")?;
    Ok(Some(name))
}

/// Parses the rest of `PRIMARY KEY` or `UNIQUE`.
#[tactic(auto, unfolding(tql_syntax_grammar::specs::ReadingStatements::key_at))]
fn key<'a>(
    memory: Memory,
    tokens: &mut Cursor<'_, 'a>,
    is_primary: bool,
) -> Result<Constraint<'a>, ParseError>
    ensures { Reads constraint_of (reading.key_at is_primary tokens.old) result tokens.new }
{
    tokens.expect_symbol(Symbol::Open)?;
    let first = tokens.name()?;
    let more = repeated(memory, tokens, &KeyColumnStep)?;
    let period = next_key_period(tokens)?;
    tokens.expect_symbol(Symbol::Close)?;
    Ok(Constraint::Key(KeyTree {
        is_primary,
        first,
        more,
        period,
    }))
}

/// The step that parses a comma and a column of a foreign key's list, if a comma is next and PERIOD does not follow it.
struct ReferenceColumnStep;

impl<'a> Step<'a, Memory> for ReferenceColumnStep {
    type Item = Name<'a>;

    ghost Tree = { definition.Name };

    ghost view = { name_of };

    ghost step = { λ _. reading.next_reference_column };

    #[tactic(auto, unfolding(tql_syntax_grammar::specs::ReadingStatements::next_reference_column))]
    fn next(
        &self,
        _memory: Memory,
        tokens: &mut Cursor<'_, 'a>,
    ) -> Result<Option<Name<'a>>, ParseError> {
        if tokens.begins_symbol(Symbol::Comma) && tokens.second_is_word("PERIOD") {
            return Ok(None);
        }
        if !tokens.eat_symbol(Symbol::Comma) {
            return Ok(None);
        }
        let name = tokens.name()?;
        Ok(Some(name))
    }
}

/// Parses a comma and `PERIOD name`, if a comma is next.
#[tactic(auto, unfolding(tql_syntax_grammar::specs::ReadingStatements::reference_period_at))]
fn next_reference_period<'a>(tokens: &mut Cursor<'_, 'a>) -> Result<Option<Name<'a>>, ParseError>
    ensures { Reads (option_map name_of) (next reading.reference_period_at tokens.old) result tokens.new }
{
    if !tokens.eat_symbol(Symbol::Comma) {
        return Ok(None);
    }
    tokens.expect_word("PERIOD")?;
    let name = tokens.name()?;
    Ok(Some(name))
}

/// Parses a column list of a foreign key, in parentheses.
#[tactic(auto, unfolding(tql_syntax_grammar::specs::ReadingStatements::reflist_at))]
fn reflist<'a>(memory: Memory, tokens: &mut Cursor<'_, 'a>) -> Result<RefList<'a>, ParseError>
    ensures { Reads reflist_of (reading.reflist_at tokens.old) result tokens.new }
{
    tokens.expect_symbol(Symbol::Open)?;
    let first = tokens.name()?;
    let more = repeated(memory, tokens, &ReferenceColumnStep)?;
    let period = next_reference_period(tokens)?;
    tokens.expect_symbol(Symbol::Close)?;
    Ok(RefList {
        first,
        more,
        period,
    })
}

/// Parses the rest of `ON` in a foreign key: DELETE or UPDATE, and NO ACTION.
#[tactic(auto, unfolding(tql_syntax_grammar::specs::ReadingStatements::no_action_at))]
fn no_action(tokens: &mut Cursor<'_, '_>) -> Result<(), ParseError>
    ensures { Reads nothing (reading.no_action_at tokens.old) result tokens.new }
{
    if !tokens.eat_word("DELETE") {
        tokens.expect_word("UPDATE")?;
    }
    tokens.expect_word("NO")?;
    tokens.expect_word("ACTION")
}

/// Parses any number of ON .. NO ACTION.
fn no_actions(tokens: &mut Cursor<'_, '_>) -> Result<(), ParseError>
    ensures { Reads nothing (reading.no_actions tokens.old) result tokens.new }
{
    for _turn in 0..tokens.left() {
        if !tokens.eat_word("ON") {
            return Ok(());
        }
        no_action(tokens)?;
    }
    Ok(())
}

/// Parses the rest of `FOREIGN`.
#[tactic(auto, unfolding(tql_syntax_grammar::specs::ReadingStatements::foreign_at))]
fn foreign<'a>(memory: Memory, tokens: &mut Cursor<'_, 'a>) -> Result<Constraint<'a>, ParseError>
    ensures { Reads constraint_of (reading.foreign_at tokens.old) result tokens.new }
{
    tokens.expect_word("KEY")?;
    let child = reflist(memory, tokens)?;
    tokens.expect_word("REFERENCES")?;
    let table = tokens.name()?;
    let parent = reflist(memory, tokens)?;
    no_actions(tokens)?;
    Ok(Constraint::Foreign(ForeignTree {
        child,
        table,
        parent,
    }))
}

/// Parses the rest of `CHECK`.
#[tactic(auto, unfolding(tql_syntax_grammar::specs::ReadingStatements::check_at))]
fn check<'a>(memory: Memory, tokens: &mut Cursor<'_, 'a>) -> Result<Constraint<'a>, ParseError>
    ensures { Reads constraint_of (reading.check_at tokens.old) result tokens.new }
{
    tokens.expect_symbol(Symbol::Open)?;
    let condition = condition_here(memory, tokens)?;
    let check = Constraint::Check(condition);
    tokens.expect_symbol(Symbol::Close)?;
    Ok(check)
}

/// Parses a constraint without its name.
#[tactic(auto, unfolding(tql_syntax_grammar::specs::ReadingStatements::constraint_at))]
fn constraint<'a>(memory: Memory, tokens: &mut Cursor<'_, 'a>) -> Result<Constraint<'a>, ParseError>
    ensures { Reads constraint_of (reading.constraint_at tokens.old) result tokens.new }
{
    if tokens.eat_word("PRIMARY") {
        tokens.expect_word("KEY")?;
        return key(memory, tokens, true);
    }
    if tokens.eat_word("UNIQUE") {
        return key(memory, tokens, false);
    }
    if tokens.eat_word("FOREIGN") {
        return foreign(memory, tokens);
    }
    tokens.expect_word("CHECK")?;
    check(memory, tokens)
}

/// Parses a constraint without its name, and boxes it.
fn unnamed_constraint<'a>(
    memory: Memory,
    tokens: &mut Cursor<'_, 'a>,
) -> Result<Box<Constraint<'a>, Memory>, ParseError>
    ensures { Reads boxed_constraint_of (reading.constraint_at tokens.old) result tokens.new }
{
    let constraint = constraint(memory, tokens)?;
    Ok(boxed_constraint(memory, constraint)?)
}

/// Parses the rest of `CONSTRAINT`: a name and the constraint.
#[tactic(auto, unfolding(tql_syntax_grammar::specs::ReadingStatements::named_constraint_at))]
fn named_constraint<'a>(
    memory: Memory,
    tokens: &mut Cursor<'_, 'a>,
) -> Result<Element<'a>, ParseError>
    ensures { Reads element_of (into tree.ConstraintElement (reading.named_constraint_at tokens.old)) result
        tokens.new }
{
    let name = tokens.name()?;
    let constraint = unnamed_constraint(memory, tokens)?;
    Ok(Element::Constraint(Some(name), constraint))
}

/// Whether a constraint without a name is next.
fn begins_constraint(tokens: &Cursor<'_, '_>) -> bool
    ensures { result ≡ reading.begins_constraint tokens.now }
{
    tokens.begins_word("PRIMARY")
        || tokens.begins_word("UNIQUE")
        || tokens.begins_word("FOREIGN")
        || tokens.begins_word("CHECK")
}

/// Parses a constraint without a name, or a column.
fn constraint_or_column<'a>(
    memory: Memory,
    tokens: &mut Cursor<'_, 'a>,
) -> Result<Element<'a>, ParseError>
    ensures { Reads element_of (reading.constraint_or_column_at tokens.old) result tokens.new }
{
    if begins_constraint(tokens) {
        let constraint = unnamed_constraint(memory, tokens)?;
        return Ok(Element::Constraint(None, constraint));
    }
    column(tokens)
}

/// The rule for an element of CREATE.
struct ElementRule;

impl<'a> Rule<'a, Memory> for ElementRule {
    type Item = Element<'a>;

    ghost Tree = { tree.Element };

    ghost view = { element_of };

    ghost rule = { λ _. reading.element_at };

    #[tactic(auto, unfolding(tql_syntax_grammar::specs::ReadingStatements::element_at))]
    fn read(&self, memory: Memory, tokens: &mut Cursor<'_, 'a>) -> Result<Element<'a>, ParseError> {
        if tokens.eat_word("PERIOD") {
            return period(tokens);
        }
        if tokens.eat_word("CONSTRAINT") {
            return named_constraint(memory, tokens);
        }
        constraint_or_column(memory, tokens)
    }
}

/// Parses WITH SYSTEM VERSIONING if WITH is next. Returns whether it was.
#[tactic(auto, unfolding(tql_syntax_grammar::specs::ReadingStatements::versioning_at))]
fn versioning(tokens: &mut Cursor<'_, '_>) -> Result<bool, ParseError>
    ensures { Reads itself (reading.versioning_at tokens.old) result tokens.new }
{
    if tokens.eat_word("WITH") {
        tokens.expect_word("SYSTEM")?;
        tokens.expect_word("VERSIONING")?;
        return Ok(true);
    }
    Ok(false)
}

/// Parses the rest of CREATE after its elements.
#[tactic(auto, unfolding(crate::specs::CreateEnds::create_end))]
fn create_end<'a>(
    memory: Memory,
    tokens: &mut Cursor<'_, 'a>,
    table: Name<'a>,
    first: Element<'a>,
    more: Vec<Element<'a>, Memory>,
) -> Result<Statement<'a>, ParseError>
    ensures { Reads statement_of
        (ends.create_end (name_of table.entry) (element_of first.entry) (elements_of more.entry) tokens.old)
        result tokens.new }
{
    let is_versioned = versioning(tokens)?;
    let create = CreateTree {
        table,
        first,
        more,
        is_versioned,
    };
    let create = boxed_create(memory, create)?;
    Ok(Statement::Create(create))
}

/// Parses the rest of CREATE after its first element.
#[tactic(auto, unfolding(crate::specs::CreateEnds::elements_end))]
fn elements_end<'a>(
    memory: Memory,
    tokens: &mut Cursor<'_, 'a>,
    table: Name<'a>,
    first: Element<'a>,
) -> Result<Statement<'a>, ParseError>
    ensures { Reads statement_of
        (ends.elements_end (name_of table.entry) (element_of first.entry) tokens.old) result tokens.new }
{
    let more = behind_commas(memory, tokens, &ElementRule)?;
    tokens.expect_symbol(Symbol::Close)?;
    create_end(memory, tokens, table, first, more)
}

/// Parses the rest of `CREATE`.
#[tactic(auto, unfolding(tql_syntax_grammar::specs::ReadingStatements::create_at, crate::specs::CreateEnds::elements_end, crate::specs::CreateEnds::create_end))]
pub fn create<'a>(memory: Memory, tokens: &mut Cursor<'_, 'a>) -> Result<Statement<'a>, ParseError>
    ensures { Reads statement_of (reading.create_at tokens.old) result tokens.new }
{
    tokens.expect_word("TABLE")?;
    let table = tokens.name()?;
    tokens.expect_symbol(Symbol::Open)?;
    let first = ElementRule.read(memory, tokens)?;
    elements_end(memory, tokens, table, first)
}

/// Parses the rest of `DROP`.
#[tactic(auto, unfolding(tql_syntax_grammar::specs::ReadingStatements::drop_at))]
pub fn drop_table<'a>(tokens: &mut Cursor<'_, 'a>) -> Result<Statement<'a>, ParseError>
    ensures { Reads statement_of (reading.drop_at tokens.old) result tokens.new }
{
    tokens.expect_word("TABLE")?;
    let table = tokens.name()?;
    tokens.eat_word("RESTRICT");
    Ok(Statement::DropTable(table))
}
