//! The plan of a query, and the access path of a change, in words.
use crate::held::Held;
use crate::sense::read_statement;
use std::alloc::AllocError;
use tql_bound::bound::Bound;
use tql_bound::change::Modification;
use tql_bound::query::BoundQuery;
use tql_exec_read::changing::few_of;
use tql_index::index::IntervalIndex;
use tql_memory::Memory;
use tql_plan_access::choices::alternatives;
use tql_plan_access::choosing::change_access;
use tql_plan_told::changes::change_words;
use tql_plan_told::told::plan_words;
use tql_planner::planner::plan;
use tql_syntax_tree::statement::{RowSource, SelectTree, Statement};

/// Returns the SELECT of a query, of a READ, or of an INSERT from a query.
fn select_in<'s, 'a>(statement: &'s Statement<'a>) -> Option<&'s SelectTree<'a>> {
    match statement {
        Statement::Query(query) => Some(&query.select),
        Statement::Read(_, query) => Some(&query.select),
        Statement::Insert(insert) => match &insert.rows {
            RowSource::Select(select) => Some(select),
            RowSource::Values(_, _) => None,
        },
        _ => None,
    }
}

/// Whether a statement has a plan that is described: it has a SELECT, or it is an UPDATE or DELETE.
fn has_plan(statement: &Statement<'_>) -> bool {
    match statement {
        Statement::Update(_) | Statement::Delete(_) => true,
        _ => select_in(statement).is_some(),
    }
}

impl<I: IntervalIndex> Held<'_, I> {
    ghost use Rattle.std.specs.Prelude.{◌<◌, IsFalse, length};
    ghost use Rattle.tql_spec.specs.Syntax.{is_too_wide};
    ghost use Rattle.tql_bound.specs.Bounds.{IsSound};
    ghost use Rattle.tql_bound.specs.Placed.{IsPlacedQuery};
    ghost use Rattle.tql_bound.specs.Queries.{bound_query_of};
    ghost use Rattle.tql_catalog.specs.Tables.{definitions_of};
    ghost use Rattle.tql_syntax_tree.specs.Statements.{statement_of};

    /// Returns the plan of a query in words. The only error is a refused allocation.
    fn query_told(
        &self,
        select: &SelectTree<'_>,
        query: &BoundQuery,
    ) -> Result<String<Memory>, AllocError>
        requires placed { IsPlacedQuery (definitions_of self.now.tables) (bound_query_of query.now) }
    {
        let plan = plan(self.memory, self.tables, query)?;
        plan_words(self.memory, self.tables, select, &plan)
    }

    /// Returns the plan of the query of a statement, in words. None if the statement has none.
    fn select_told(&self, statement: &Statement<'_>, query: &BoundQuery) -> Option<String<Memory>>
        requires placed { IsPlacedQuery (definitions_of self.now.tables) (bound_query_of query.now) }
    {
        let select = select_in(statement)?;
        self.query_told(select, query).ok()
    }

    /// Returns the access path of an UPDATE or DELETE in words. The only error is a refused allocation.
    fn change_told(&self, modification: &Modification) -> Result<String<Memory>, AllocError>
        requires { modification.now.table < length self.now.tables }
    {
        let table = self.table_at(modification.table);
        let current = self.store.current(table.id).len();
        let access = change_access(
            self.memory,
            &table.definition,
            &modification.terms,
            &modification.conjuncts,
            modification.portion,
        )?;
        let found = alternatives(
            self.memory,
            &table.definition,
            &modification.terms,
            &modification.conjuncts,
        )?;
        let values = few_of(current, &found);
        change_words(self.memory, &table.definition, access.sought(), values)
    }

    /// Returns the plan of the query in a bound statement, or the access path of a change, in words.
    fn bound_told(&self, statement: &Statement<'_>, bound: &Bound) -> Option<String<Memory>>
        requires sound { IsSound (definitions_of self.now.tables) bound.now }
    {
        match bound {
            Bound::AnswerQuery(query) => self.select_told(statement, query),
            Bound::Read(read) => self.select_told(statement, &read.query),
            Bound::InsertFrom(insertion) => self.select_told(statement, &insertion.query),
            Bound::Modify(modification) => self.change_told(modification).ok(),
            _ => None,
        }
    }

    /// Returns the plan of a statement in words. None if it has none that is described, or if it is refused before it
    /// runs.
    fn statement_told(&self, statement: &Statement<'_>) -> Option<String<Memory>>
        requires narrow { IsFalse (is_too_wide (statement_of statement.now)) }
    {
        if !has_plan(statement) || self.state_fault(statement).ok()?.is_some() {
            return None;
        }
        match self.bound(self.memory, statement) {
            Ok(bound) => self.bound_told(statement, &bound),
            Err(_) => None,
        }
    }

    /// Returns the plan of the statement of a text, in words.
    fn text_told(&self, text: &[u8]) -> Option<String<Memory>> {
        match read_statement(self.memory, text) {
            Ok(tree) => self.statement_told(&tree.statement),
            Err(_) => None,
        }
    }

    /// Returns the access paths of a query in words: of a SELECT or a READ, or of the query of an INSERT; of an UPDATE
    /// or DELETE that of its table. None for any other text, for one that is refused before it runs, or if an
    /// allocation is refused. The allocations that it makes do not count against the budget of `Memory`. Changes
    /// nothing.
    pub fn plan_told(&self, text: &[u8]) -> Option<String<Memory>> {
        let left = self.memory.left();
        let words = self.text_told(text);
        self.memory.uncount(left);
        words
    }
}
