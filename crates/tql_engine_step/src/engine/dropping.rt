//! DROP TABLE. It takes no memory, so it is never refused for memory.
ghost use Rattle.std.specs.Prelude.{◌<◌, length};

use crate::engine::Engine;
use tql_index::index::IntervalIndex;
use tql_result::reply::{Reply, Verb};

impl<I: IntervalIndex> Engine<I> {
    ghost use Rattle.tql_spec.specs.Machine as machine;
    ghost use Rattle.tql_spec.specs.Machine.{State, step};
    ghost use Rattle.tql_catalog.specs.Tables.{definitions_of};
    ghost use Rattle.tql_result.specs.Replies.{reply_of};
    ghost use Rattle.tql_engine_state.specs.Stands.{StandsFor};
    ghost use Rattle.tql_engine_state.specs.Allowed.{IsIdle, IsUnread};
    ghost use Rattle.tql_engine_state.specs.Dropping.{IsDropped};
    ghost use Rattle.tql_engine_state.specs.Effects.{Does};

    /// Runs DROP TABLE: removes the table at this index with its rows of every moment (this project's choice). It is
    /// not a commit, and the clock does not move.
    pub(super) fn drop_table(&mut self, place: usize) -> Reply
        requires closed { IsIdle self.old }
        requires unread { IsUnread self.old }
        requires there { place < length (definitions_of self.old.tables) }
        requires dropped { IsDropped (definitions_of self.old.tables) place }
        ensures { (s : State) → StandsFor self.old s
            → Does self.new (reply_of result) (step s (machine.DropTable place)) }
    {
        let Ok(table) = self.tables.drop_at(place) else {
            unreachable!()
        };
        self.store.drop_table(table.id);
        Reply::Done(Verb::DroppedTable, None)
    }
}
