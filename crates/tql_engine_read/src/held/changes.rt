//! What INSERT, UPDATE and DELETE remove and add.
ghost use Rattle.std.specs.Prelude.{◌≡◌, ◌<◌, length, slice_get, Some};

use crate::held::Held;
use tql_bound::change::{Insertion, Modification, QueryInsertion};
use tql_dml::modification::{modify, modify_current};
use tql_exec_read::changing::{current_with_any, few_of};
use tql_exec_read::sampling::{ROWS_OF_A_CHANGE, are_many};
use tql_index::index::IntervalIndex;
use tql_new_rows::insertion::{insert_rows, insert_tuples};
use tql_plan_access::choices::alternatives;
use tql_plan_access::choosing::change_access;
use tql_store::store::Delta;
use tql_value::refusal::Refusal;
use tql_value::when::When;

impl<I: IntervalIndex> Held<'_, I> {
    ghost use Rattle.tql_spec.specs.Machine.{State};
    ghost use Rattle.tql_bound.specs.Placed.{IsPlacedQuery};
    ghost use Rattle.tql_bound.specs.Queries.{bound_query_of};
    ghost use Rattle.tql_catalog.specs.declared.catalog.Table.{Table};
    ghost use Rattle.tql_catalog.specs.Tables.{definitions_of};
    ghost use Rattle.tql_engine_read.specs.Tuples.{AddsTuples};
    ghost use Rattle.tql_engine_state.specs.Adding.{Adds};
    ghost use Rattle.tql_engine_state.specs.Modifying.{Makes};
    ghost use Rattle.tql_engine_state.specs.Stands.{StandsFor};
    ghost use Rattle.tql_engine_state.specs.Allowed.{AsksWithin};

    /// Returns the change that adds the tuples of an INSERT.
    pub fn tuples_delta(&self, insertion: &Insertion) -> Result<Delta, Refusal>
        requires { insertion.now.table < length self.now.tables }
        ensures { (p : Table) → slice_get self.now.tables insertion.now.table ≡ Some p
            → AddsTuples p insertion.now result }
    {
        insert_tuples(self.memory, self.table_at(insertion.table), insertion)
    }

    /// Returns the change that adds the rows of a query. The query is answered first, so it does not see them. Its rows
    /// are not sorted, since an INSERT does the same in any order.
    pub fn query_delta(&self, insertion: &QueryInsertion) -> Result<Delta, Refusal>
        requires within { insertion.now.table < length (definitions_of self.now.tables) }
        requires placed { IsPlacedQuery (definitions_of self.now.tables) (bound_query_of insertion.now.query) }
        requires asked { AsksWithin self.now (bound_query_of insertion.now.query) }
        ensures { (s : State) (p : Table) → StandsFor self.now s
            → slice_get self.now.tables insertion.now.table ≡ Some p → Adds s p insertion.now result }
    {
        let rows = match self.packed_rows(&insertion.query) {
            Ok(rows) => rows,
            Err(refusal) => return Err(refusal),
        };
        let table = self.table_at(insertion.table);
        insert_rows(self.memory, table, &insertion.columns, rows)
    }

    /// Returns the change that an UPDATE or DELETE makes to the current rows of its table, if its access path has many
    /// of them. If WHERE gives a few values for a column, only the rows with one of them are read: of the others WHERE
    /// is not true. Otherwise all rows are read where they are stored, and only what is touched takes memory.
    fn unkeyed_delta(&self, modification: &Modification) -> Result<Delta, Refusal>
        requires { modification.now.table < length self.now.tables }
        ensures { (p : Table) → slice_get self.now.tables modification.now.table ≡ Some p
            → Makes self.now.store p modification.now result }
    {
        let table = self.table_at(modification.table);
        let definition = &table.definition;
        let terms = &modification.terms;
        let current = self.store.current(table.id);
        let found = alternatives(self.memory, definition, terms, &modification.conjuncts)?;
        match few_of(current.len(), &found) {
            None => modify_current(self.memory, table, current, modification),
            Some(values) => {
                let seen = current_with_any(self.memory, self.store, table.id, values)?;
                modify(self.memory, table, &seen, modification)
            }
        }
    }

    /// Returns the change that an UPDATE or DELETE makes to the current rows of its table. It reads only the rows of
    /// the access path: of the others WHERE is not true, or they share no point with the portion. Where these are many,
    /// it reads the table as if there were no path.
    pub fn delta_of(&self, modification: &Modification) -> Result<Delta, Refusal>
        requires { modification.now.table < length self.now.tables }
        ensures { (p : Table) → slice_get self.now.tables modification.now.table ≡ Some p
            → Makes self.now.store p modification.now result }
    {
        let table = self.table_at(modification.table);
        let access = change_access(
            self.memory,
            &table.definition,
            &modification.terms,
            &modification.conjuncts,
            modification.portion,
        )?;
        let current = self.store.current(table.id);
        match access.sought() {
            Some(sought) if !are_many(sought, current, ROWS_OF_A_CHANGE) => {
                let seen = self.store.look(table.id, When::Now, Some(sought))?;
                modify(self.memory, table, &seen, modification)
            }
            _ => self.unkeyed_delta(modification),
        }
    }
}
