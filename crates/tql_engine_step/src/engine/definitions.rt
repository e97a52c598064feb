//! The tables of an engine, for hosts that list them.
use crate::engine::Engine;
use tql_catalog::table_def::TableDef;
use tql_index::index::IntervalIndex;

impl<I: IntervalIndex> Engine<I> {
    ghost use Rattle.std.specs.Prelude.{◌≡◌, length, option_map, slice_get};
    ghost use Rattle.tql_spec.specs.Machine.{State};
    ghost use Rattle.tql_catalog.specs.Tables.{definitions_of};
    ghost use Rattle.tql_engine_state.specs.Stands.{StandsFor};

    /// Returns the number of tables, at most 1,000. Takes no memory.
    #[tactic(auto, using(tql_engine_state::proofs::TableLists::count_law, tql_engine_state::proofs::TableLists::count_is))]
    pub fn table_count(&self) -> usize
        ensures count { result ≡ length (definitions_of self.now.tables) }
        ensures machine { (s : State) → StandsFor self.now s → result ≡ length s.definitions }
    {
        self.tables.len()
    }

    /// Returns the definition of the table at this index, from 0, in the order of creation: its name, its columns with
    /// their kinds, its periods and its constraints. None if there are fewer tables. Takes no memory.
    pub fn table_definition(&self, place: usize) -> Option<&TableDef>
        ensures definition { option_map (λ d. d.now) result ≡ slice_get (definitions_of self.now.tables) place }
        ensures machine { (s : State) → StandsFor self.now s
            → option_map (λ d. d.now) result ≡ slice_get s.definitions place }
    {
        if place < self.tables.len() {
            Some(&self.tables.table(place).definition)
        } else {
            None
        }
    }
}
