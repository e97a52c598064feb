//! START TRANSACTION, COMMIT and ROLLBACK. They take no memory, so they are never refused for memory.
ghost use Rattle.std.specs.Prelude.{◌≡◌, IfErr, IfOk, None};

use crate::engine::Engine;
use tql_index::index::IntervalIndex;
use tql_result::reply::{Reply, Verb};
use tql_value::refusal::Refusal;

impl<I: IntervalIndex> Engine<I> {
    ghost use Rattle.tql_spec.specs.Machine as machine;
    ghost use Rattle.tql_spec.specs.Machine.{State, step};
    ghost use Rattle.tql_engine_step.specs.HoldPoints.{HoldsFor};
    ghost use Rattle.tql_engine_state.specs.Stands.{StandsFor};
    ghost use Rattle.tql_result.specs.Replies.{reply_of};
    ghost use Rattle.tql_engine_state.specs.Allowed.{IsIdle, HasTimeLeft};
    ghost use Rattle.tql_engine_state.specs.Effects.{Does, DoesStep};

    /// Runs START TRANSACTION, at the clock's moment.
    pub(super) fn start(&mut self) -> Reply
        requires closed { IsIdle self.old }
        requires below { HasTimeLeft self.old }
        ensures { (s : State) → StandsFor self.old s → Does self.new (reply_of result) (step s machine.Start) }
    {
        self.store.begin(self.next);
        Reply::Done(Verb::Started, None)
    }

    /// Runs COMMIT: keeps what the open transaction changed, and moves the clock on by a microsecond, even if nothing
    /// was changed. Takes no memory. Refused, with nothing changed, if no transaction is open. ISO/IEC 9075-2:2011,
    /// commit statement.
    pub fn commit(&mut self) -> Result<Reply, Refusal>
        ensures answered { (s : State) → StandsFor self.old s → DoesStep self.new s result (step s machine.Commit) }
        ensures done { IfOk result (λ reply. reply_of reply ≡ machine.Done machine.Committed None) }
        ensures reason { IfErr result (λ e. e ≡ Refusal.NotInThisTransactionState) }
        ensures holds { (s : State) → HoldsFor self.old s → HoldsFor self.new (step s machine.Commit).1 }
    {
        if !self.store.has_transaction() {
            return Err(Refusal::NotInThisTransactionState);
        }
        self.store.commit();
        self.next += 1;
        Ok(Reply::Done(Verb::Committed, None))
    }

    /// Runs ROLLBACK: undoes what the open transaction changed; the clock does not move. Takes no memory. Refused, with
    /// nothing changed, if no transaction is open. ISO/IEC 9075-2:2011, rollback statement.
    pub fn rollback(&mut self) -> Result<Reply, Refusal>
        ensures answered { (s : State) → StandsFor self.old s → DoesStep self.new s result (step s machine.Rollback) }
        ensures done { IfOk result (λ reply. reply_of reply ≡ machine.Done machine.RolledBack None) }
        ensures reason { IfErr result (λ e. e ≡ Refusal.NotInThisTransactionState) }
        ensures holds { (s : State) → HoldsFor self.old s → HoldsFor self.new (step s machine.Rollback).1 }
    {
        if !self.store.has_transaction() {
            return Err(Refusal::NotInThisTransactionState);
        }
        self.store.rollback();
        Ok(Reply::Done(Verb::RolledBack, None))
    }
}
