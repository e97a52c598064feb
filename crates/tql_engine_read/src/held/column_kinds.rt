//! The types of the columns that a query answers, reported before it runs.
ghost use Rattle.std.specs.Prelude.{◌≡◌, ◌++◌, map, option_map, IfOk};
ghost use Rattle.std.specs.List.{flat_map};
ghost use Rattle.tql_spec.specs.Words.{listed};
ghost use Rattle.tql_value.specs.Views.{plain_kind};

use crate::held::Held;
use crate::sense::read_statement;
use std::alloc::AllocError;
use tql_bind_expr::faults::Faults;
use tql_bind_query::query::bound_query;
use tql_index::index::IntervalIndex;
use tql_memory::Memory;
use tql_syntax_tree::statement::{Query, Statement};
use tql_value::refusal::Refusal;
use tql_value::value::Kind;

/// Adds a kind if it is known. The only error is a refused allocation.
fn push_known(known: &mut Vec<Kind, Memory>, kind: Option<Kind>) -> Result<(), AllocError>
    ensures { IfOk result (λ _. map plain_kind known.new.items
        ≡ map plain_kind known.old.items ++ listed (option_map plain_kind kind)) }
{
    if let Some(kind) = kind {
        known.push(kind)?;
    }
    Ok(())
}

/// Returns the kinds that are known. The only error is a refused allocation.
fn known_kinds(memory: Memory, kinds: &[Option<Kind>]) -> Result<Vec<Kind, Memory>, AllocError>
    ensures { IfOk result
        (λ v. map plain_kind v.items ≡ flat_map listed (map (option_map plain_kind) kinds.now)) }
{
    let mut known = Vec::new(memory);
    for kind in kinds {
        push_known(&mut known, *kind)?;
    }
    Ok(known)
}

impl<I: IntervalIndex> Held<'_, I> {
    ghost use Rattle.std.specs.Prelude.{IsFalse, Some, [], List};
    ghost use Rattle.tql_spec.specs.Binding.{select};
    ghost use Rattle.tql_spec.specs.Machine.{State};
    ghost use Rattle.tql_spec.specs.Syntax.{is_too_wide};
    ghost use Rattle.tql_catalog.specs.Tables.{definitions_of};
    ghost use Rattle.tql_syntax_tree.specs.Statements.{boxed_select_of, orders_of, query_of, statement_of};
    ghost use Rattle.tql_engine_read.specs.ColumnKinds.{Asks, IsBound, TellsKinds, TextTellsKinds};
    ghost use Rattle.tql_engine_state.specs.Stands.{StandsFor};

    /// Returns the kinds of the columns of a query that binds without a fault. The only error is a refused allocation.
    fn kinds_of(&self, query: &Query<'_>) -> Result<Vec<Kind, Memory>, AllocError>
        requires narrow { IsFalse (is_too_wide (query_of query.now)) }
        requires clean { (s : State) → StandsFor self.now s → (select s.definitions
            (boxed_select_of query.now.select) (orders_of query.now.ordering)).faults ≡ [] }
        ensures { IfOk result (λ v. map Some (map plain_kind v.items) ≡ (select (definitions_of self.now.tables)
            (boxed_select_of query.now.select) (orders_of query.now.ordering)).value.kinds) }
    {
        let mut faults = Faults::none();
        let typed = bound_query(
            self.memory,
            self.tables,
            &query.select,
            &query.ordering,
            &mut faults,
        )?;
        let known = known_kinds(self.memory, &typed.kinds)?;
        Ok(known)
    }

    /// Refuses a statement for its first fault of names, kinds, forms and literals, of the horizon or of open readers,
    /// or for memory.
    fn is_bound(&self, statement: &Statement<'_>) -> Result<(), Refusal>
        requires narrow { IsFalse (is_too_wide (statement_of statement.now)) }
        ensures { (s : State) → StandsFor self.now s → IsBound s (statement_of statement.now) result }
    {
        match self.bound(self.memory, statement) {
            Ok(_) => {}
            Err(fault) => return Err(fault),
        }
        Ok(())
    }

    /// Returns the kinds of the columns of a statement's query. Refused for a fault of its names, kinds, forms and
    /// literals, of the horizon or of open readers, or for memory.
    fn kinds_asked(
        &self,
        statement: &Statement<'_>,
        query: &Query<'_>,
    ) -> Result<Option<Vec<Kind, Memory>>, Refusal>
        requires narrow { IsFalse (is_too_wide (statement_of statement.now)) }
        requires asks { Asks (statement_of statement.now) (boxed_select_of query.now.select)
            (orders_of query.now.ordering) }
        ensures { (s : State) → StandsFor self.now s → TellsKinds s (statement_of statement.now) result }
    {
        match self.is_bound(statement) {
            Ok(()) => {}
            Err(refusal) => return Err(refusal),
        }
        let kinds = self.kinds_of(query)?;
        Ok(Some(kinds))
    }

    /// Returns the kinds of the columns if the statement is a query or a READ. None for any other statement.
    fn kinds_in(&self, statement: &Statement<'_>) -> Result<Option<Vec<Kind, Memory>>, Refusal>
        requires narrow { IsFalse (is_too_wide (statement_of statement.now)) }
        ensures { (s : State) → StandsFor self.now s → TellsKinds s (statement_of statement.now) result }
    {
        match statement {
            Statement::Query(query) => self.kinds_asked(statement, query),
            Statement::Read(_, query) => self.kinds_asked(statement, query),
            _ => Ok(None),
        }
    }

    /// Returns the kinds of the columns that the query of this text answers, from the left: integer, text, date,
    /// timestamp. A READ counts as a query. None for any other statement, since it answers no rows.
    ///
    /// Refused as `step` would refuse the text before it runs, out of memory included. A query that is not refused here
    /// may still be refused when it runs, as out of range. Changes nothing.
    pub fn column_kinds(&self, query: &[u8]) -> Result<Option<Vec<Kind, Memory>>, Refusal>
        ensures { (s : State) → StandsFor self.now s → TextTellsKinds s query.now result }
    {
        match read_statement(self.memory, query) {
            Ok(tree) => self.kinds_in(&tree.statement),
            Err(refusal) => Err(refusal),
        }
    }
}
