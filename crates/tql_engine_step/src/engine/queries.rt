//! What hosts may ask about a statement before it runs: the types of a query's columns, and its plan. Nothing changes.
use crate::engine::Engine;
use tql_index::index::IntervalIndex;
use tql_memory::Memory;
use tql_value::refusal::Refusal;
use tql_value::value::Kind;

impl<I: IntervalIndex> Engine<I> {
    ghost use Rattle.tql_spec.specs.Machine.{State};
    ghost use Rattle.tql_engine_read.specs.ColumnKinds.{TextTellsKinds};
    ghost use Rattle.tql_engine_state.specs.Stands.{StandsFor};

    /// Returns the kinds of the columns that the query of this text answers, from the left: integer, text, date,
    /// timestamp. A READ counts as a query. None for any other statement, since it answers no rows.
    ///
    /// Refused as `step` would refuse the text before it runs, out of memory included. A query that is not refused here
    /// may still be refused when it runs, as out of range. Changes nothing.
    pub fn column_kinds(&self, query: &[u8]) -> Result<Option<Vec<Kind, Memory>>, Refusal>
        ensures { (s : State) → StandsFor self.now s → TextTellsKinds s query.now result }
    {
        self.held().column_kinds(query)
    }

    /// Returns the access paths of a query in words: of a SELECT or a READ, or of the query of an INSERT; of an UPDATE
    /// or DELETE that of its table. None for any other text, for one that is refused before it runs, or if an
    /// allocation is refused. The allocations that it makes do not count against the budget of `Memory`. Changes
    /// nothing.
    pub fn plan_told(&self, text: &[u8]) -> Option<String<Memory>> {
        self.held().plan_told(text)
    }
}
