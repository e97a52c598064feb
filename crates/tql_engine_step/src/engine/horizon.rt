//! PRUNE HISTORY: the horizon.
ghost use Rattle.std.specs.Prelude.{◌≤ℤ◌};

use crate::engine::Engine;
use tql_index::index::IntervalIndex;
use tql_result::reply::{Reply, Verb};

impl<I: IntervalIndex> Engine<I> {
    ghost use Rattle.tql_spec.specs.Machine as machine;
    ghost use Rattle.tql_spec.specs.Machine.{State, step};
    ghost use Rattle.tql_value.specs.Points.{IsMoment};
    ghost use Rattle.tql_result.specs.Replies.{reply_of};
    ghost use Rattle.tql_engine_state.specs.Stands.{StandsFor};
    ghost use Rattle.tql_engine_state.specs.Allowed.{IsIdle, PassesNone};
    ghost use Rattle.tql_engine_state.specs.Effects.{Does};

    /// Runs PRUNE HISTORY: sets the horizon to a moment, in microseconds since 1970-01-01, and frees the versions that
    /// no query from there on can ask for. Allocates no memory.
    pub(super) fn prune(&mut self, moment: i64) -> Reply
        requires closed { IsIdle self.old }
        requires moment { IsMoment moment }
        requires later { self.old.store.horizon ≤ℤ moment }
        requires passes { PassesNone self.old moment }
        ensures { (s : State) → StandsFor self.old s
            → Does self.new (reply_of result) (step s (machine.Prune moment)) }
    {
        self.store.prune(moment);
        Reply::Done(Verb::Pruned, None)
    }
}
