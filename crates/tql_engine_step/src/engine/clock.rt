//! AT: the clock.
ghost use Rattle.std.specs.Prelude.{◌≡◌, IfErr};

use crate::engine::Engine;
use tql_index::index::IntervalIndex;
use tql_result::reply::{Reply, Verb};
use tql_value::refusal::Refusal;

impl<I: IntervalIndex> Engine<I> {
    ghost use Rattle.tql_spec.specs.Machine as machine;
    ghost use Rattle.tql_spec.specs.Machine.{State, step};
    ghost use Rattle.tql_value.specs.Points.{IsMoment};
    ghost use Rattle.tql_engine_state.specs.Stands.{StandsFor};
    ghost use Rattle.tql_engine_state.specs.Allowed.{IsIdle};
    ghost use Rattle.tql_engine_state.specs.Effects.{DoesStep, not_later_than};

    /// Whether the moment is at or before that of the last commit.
    #[tactic(auto, using(tql_engine_state::proofs::LaterLemmas::not_later))]
    fn is_not_later(&self, moment: i64) -> bool
        ensures { result ≡ not_later_than moment self.now.store.last }
    {
        !self.store.is_later(moment)
    }

    /// Runs AT: sets the clock to a moment, in microseconds since 1970-01-01. Refused, with nothing changed, if it is
    /// not later than the moment of the last commit.
    pub(super) fn at(&mut self, moment: i64) -> Result<Reply, Refusal>
        requires closed { IsIdle self.old }
        requires moment { IsMoment moment }
        ensures answered { (s : State) → StandsFor self.old s
            → DoesStep self.new s result (step s (machine.SetClock moment)) }
        ensures reason { IfErr result (λ e. e ≡ Refusal.MomentNotAllowed) }
    {
        if self.is_not_later(moment) {
            return Err(Refusal::MomentNotAllowed);
        }
        self.next = moment;
        Ok(Reply::Done(Verb::ClockSet, None))
    }
}
