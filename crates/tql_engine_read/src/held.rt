//! An engine that is only read: its state by reference, and what it answers without changing anything.
ghost use Rattle.std.specs.Prelude.{◌≡◌, ◌<◌, length, slice_get, IfOk, IsFalse, Some};

pub mod changes;
pub mod column_kinds;
pub mod details;
pub mod faults;
pub mod messages;
pub mod names;
pub mod plans;
pub mod queries;
pub mod reading;

use std::marker::Model;
use tql_bind::binder::bind;
use tql_bind::limits::Limits;
use tql_bound::bound::Bound;
use tql_bound::reader::Reader;
use tql_catalog::catalog::{Catalog, Table};
use tql_index::index::IntervalIndex;
use tql_memory::Memory;
use tql_store::store::Store;
use tql_syntax_tree::statement::Statement;
use tql_value::refusal::Refusal;

/// The parts of an engine, by reference. In contracts it is the engine's state.
#[derive(Drop)]
pub struct Held<'a, I: IntervalIndex> {
    /// The allocator.
    pub memory: Memory,
    /// The tables, in the order of their creation.
    pub tables: &'a Catalog,
    /// The rows of the tables.
    pub store: &'a Store<I>,
    /// The moment of the next transaction, in microseconds since 1970-01-01.
    pub next: i64,
    /// The open readers, in the order of their creation.
    pub readers: &'a [Reader],
}

impl<'a, I: IntervalIndex> Model for Held<'a, I> {
    ghost use Rattle.tql_tree_index.specs.contracts.tree_index.TreeIndex.{the_row as tree_row};
    ghost use Rattle.tql_tree_index.specs.contracts.tree_index.TreeIndexIntervalIndex.TheImpl.{ghosts};
    ghost use Rattle.tql_store.specs.contracts.store.Store.{the_row};
    ghost use Rattle.std.specs.Prelude.{map};
    ghost use Rattle.tql_engine_state.specs.Readers.{reader_of};
    ghost use Rattle.tql_engine_state.specs.Stands.{EngineModel, held_code, IsSound};

    ghost Value = { EngineModel };

    ghost coded = { held_code (the_row tree_row ghosts).coded };

    ghost view = { λ e. record {
      tables = e.tables.now;
      store = e.store.now;
      next = e.next;
      readers = map reader_of e.readers.now;
    } };

    ghost invariant = { λ e. IsSound (record {
      tables = e.tables.now;
      store = e.store.now;
      next = e.next;
      readers = map reader_of e.readers.now;
    }) };
}

impl<'a, I: IntervalIndex> Held<'a, I> {
    ghost use Rattle.tql_spec.specs.Machine.{State, limits_of};
    ghost use Rattle.tql_spec.specs.Syntax.{is_too_wide};
    ghost use Rattle.tql_syntax_tree.specs.Statements.{statement_of};
    ghost use Rattle.tql_bind.specs.Limited.{bind_under};
    ghost use Rattle.tql_bind_table.specs.Binds.{Binds};
    ghost use Rattle.tql_bound.specs.Bounds.{IsSound, bound_of};
    ghost use Rattle.tql_catalog.specs.Tables.{definitions_of};
    ghost use Rattle.tql_engine_state.specs.Stands.{StandsFor};

    /// Returns the table at this index.
    fn table_at(&self, place: usize) -> &'a Table
        requires { place < length self.now.tables }
        ensures { slice_get self.now.tables place ≡ Some result.now }
    {
        self.tables.table(place)
    }

    /// Binds a statement. Refused for its first fault of names, kinds, forms and literals, of the horizon and of open
    /// readers, or for memory.
    pub fn bound(&self, memory: Memory, statement: &Statement<'_>) -> Result<Bound, Refusal>
        requires narrow { IsFalse (is_too_wide (statement_of statement.now)) }
        ensures binds { (s : State) → StandsFor self.now s → Binds bound_of
            (bind_under (limits_of s) s.definitions (statement_of statement.now)) result }
        ensures sound { IfOk result (IsSound (definitions_of self.now.tables)) }
    {
        let limits = Limits {
            horizon: self.store.horizon(),
            readers: self.readers,
        };
        bind(memory, self.tables, statement, &limits)
    }
}
