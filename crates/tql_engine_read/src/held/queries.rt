//! SELECT, and the rows that a query answers.
use crate::held::Held;
use tql_bound::query::BoundQuery;
use tql_exec::running::{packed_rows, run};
use tql_expr::row::Row;
use tql_index::index::IntervalIndex;
use tql_memory::Memory;
use tql_planner::planner::plan;
use tql_result::reply::Reply;
use tql_store::snapshot::Snapshot;
use tql_value::refusal::Refusal;
use tql_value::value::ResultTable;

impl<I: IntervalIndex> Held<'_, I> {
    ghost use Rattle.std.specs.Prelude.{◌≡◌, map, string_bytes, IfOk};
    ghost use Rattle.tql_spec.specs.Machine as machine;
    ghost use Rattle.tql_spec.specs.Machine.{State, bag_of, step};
    ghost use Rattle.tql_spec.specs.Query.{answer};
    ghost use Rattle.tql_bound.specs.Placed.{IsPlacedQuery};
    ghost use Rattle.tql_bound.specs.Queries.{bound_query_of};
    ghost use Rattle.tql_catalog.specs.Tables.{definitions_of};
    ghost use Rattle.tql_exec_steps.specs.Steps.{ordered};
    ghost use Rattle.tql_exec_pairs.specs.Bags.{GivesBag};
    ghost use Rattle.tql_expr.specs.Evaluated.{Evaluated};
    ghost use Rattle.tql_value.specs.Views.{rows_of};
    ghost use Rattle.tql_engine_state.specs.Allowed.{AsksWithin};
    ghost use Rattle.tql_engine_state.specs.Showing.{CanAnswer, Shows};
    ghost use Rattle.tql_engine_state.specs.Stands.{StandsFor};
    ghost use Rattle.tql_engine_state.specs.Effects.{DoesStep};

    /// Returns the rows that a query answers, packed and in any order. Refused if an evaluation that is reached
    /// overflows 64 bits, or if an allocation is refused.
    pub(super) fn packed_rows(&self, query: &BoundQuery) -> Result<Vec<Row, Memory>, Refusal>
        requires placed { IsPlacedQuery (definitions_of self.now.tables) (bound_query_of query.now) }
        requires within { AsksWithin self.now (bound_query_of query.now) }
        ensures { (s : State) → StandsFor self.now s
            → GivesBag (λ rows. rows.items) (answer (bag_of s) (bound_query_of query.now)) result }
    {
        let plan = plan(self.memory, self.tables, query)?;
        let shown = Snapshot::now(self.store);
        packed_rows(self.memory, &shown, &plan)
    }

    /// Returns the rows that a query answers from a snapshot of the store, in the order in which they are printed, with
    /// their headings.
    pub(super) fn answered(
        &self,
        shown: &Snapshot<'_, I>,
        query: &BoundQuery,
    ) -> Result<ResultTable, Refusal>
        requires placed { IsPlacedQuery (definitions_of self.now.tables) (bound_query_of query.now) }
        requires can { CanAnswer self.now.tables shown.now (bound_query_of query.now) }
        ensures rows { (s : State) → Shows self.now.tables shown.now s → Evaluated (λ rows. rows_of rows.rows.items)
            (ordered (bound_query_of query.now).ordering (answer (bag_of s) (bound_query_of query.now))) result }
        ensures headings { IfOk result
            (λ rows. map string_bytes rows.headings.items ≡ (bound_query_of query.now).headings) }
    {
        let plan = plan(self.memory, self.tables, query)?;
        run(self.memory, shown, &plan)
    }

    /// Runs a SELECT.
    pub fn answer_query(&self, query: &BoundQuery) -> Result<Reply, Refusal>
        requires placed { IsPlacedQuery (definitions_of self.now.tables) (bound_query_of query.now) }
        requires within { AsksWithin self.now (bound_query_of query.now) }
        ensures { (s : State) → StandsFor self.now s
            → DoesStep self.now s result (step s (machine.AnswerQuery (bound_query_of query.now))) }
    {
        let shown = Snapshot::now(self.store);
        match self.answered(&shown, query) {
            Ok(rows) => Ok(Reply::Table(rows)),
            Err(refusal) => Err(refusal),
        }
    }
}
