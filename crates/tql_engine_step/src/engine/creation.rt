//! CREATE TABLE.
ghost use Rattle.std.specs.List.{list_all};
ghost use Rattle.std.specs.Prelude.{◌≡◌, OnOk, OnErr, IfErr, IsTrue};

use crate::engine::Engine;
use tql_catalog::table_def::TableDef;
use tql_index::index::IntervalIndex;
use tql_result::reply::{Reply, Verb};
use tql_value::refusal::Refusal;

impl<I: IntervalIndex> Engine<I> {
    ghost use Rattle.tql_spec.specs.Machine as machine;
    ghost use Rattle.tql_spec.specs.Machine.{State, step, with_table};
    ghost use Rattle.tql_spec.specs.Typing.{IsTypedDefinition};
    ghost use Rattle.tql_catalog.specs.Tables.{can_have, definitions_of};
    ghost use Rattle.tql_value.specs.declared.refusal.Refusal.TheVariants.{OutOfMemory};
    ghost use Rattle.tql_bound.specs.Bounds.{IsSoundTable};
    ghost use Rattle.tql_engine_state.specs.Stands.{StandsFor};
    ghost use Rattle.tql_engine_state.specs.Allowed.{IsIdle, IsUnread};
    ghost use Rattle.tql_engine_state.specs.Effects.{DoesStep};

    /// Adds an empty table. If an allocation is refused, nothing visible has changed.
    fn add_table(&mut self, definition: TableDef) -> Result<(), Refusal>
        requires closed { IsIdle self.old }
        requires unread { IsUnread self.old }
        requires sound { IsSoundTable (definitions_of self.old.tables) definition }
        requires typed { IsTypedDefinition definition }
        requires parents { IsTrue (list_all (can_have (definitions_of self.old.tables)) definition.references) }
        ensures ok { OnOk result ((s : State) → StandsFor self.old s → StandsFor self.new (with_table definition s)) }
        ensures err { OnErr result ((s : State) → StandsFor self.old s → StandsFor self.new s) }
        ensures memory { IfErr result (λ e. e ≡ OutOfMemory) }
    {
        let columns = definition.sought_lists(self.memory)?;
        let id = self.store.add_table(
            definition.is_versioned(),
            columns,
            definition.sought_period(),
        )?;
        match self.tables.create(definition, id) {
            Ok(()) => Ok(()),
            Err(refusal) => {
                self.store.drop_table(id);
                Err(refusal)
            }
        }
    }

    /// Runs CREATE TABLE. The only error is a refused allocation; nothing visible has changed then.
    pub(super) fn create(&mut self, definition: TableDef) -> Result<Reply, Refusal>
        requires closed { IsIdle self.old }
        requires unread { IsUnread self.old }
        requires sound { IsSoundTable (definitions_of self.old.tables) definition }
        requires typed { IsTypedDefinition definition }
        requires parents { IsTrue (list_all (can_have (definitions_of self.old.tables)) definition.references) }
        ensures { (s : State) → StandsFor self.old s
            → DoesStep self.new s result (step s (machine.CreateTable definition)) }
    {
        match self.add_table(definition) {
            Ok(()) => Ok(Reply::Done(Verb::CreatedTable, None)),
            Err(refusal) => Err(refusal),
        }
    }
}
