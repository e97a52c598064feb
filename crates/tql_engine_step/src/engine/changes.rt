//! INSERT, UPDATE and DELETE, each in the open transaction or, without one, in a transaction of its own at the clock's
//! moment.
ghost use Rattle.std.specs.Prelude.{◌≡◌, ◌<◌, length, Some};
ghost use Rattle.tql_spec.specs.Machine as machine;
ghost use Rattle.tql_bound.specs.Works.{work_of};
ghost use Rattle.tql_expr.specs.declared.terms.Terms.{Terms};
ghost use Rattle.tql_result.specs.Replies.{plain_verb};

use crate::engine::Engine;
use tql_bound::change::{Insertion, Modification, QueryInsertion, Work};
use tql_engine_commit::committing::change_rows;
use tql_index::index::IntervalIndex;
use tql_keys::check::check;
use tql_result::reply::{Reply, Verb};
use tql_spec::{changes_by_parts, changes_keep_no_order, inserts_keep_no_order, safe_conditions};
use tql_store::store::Delta;
use tql_value::refusal::Refusal;

/// Returns the word that the reply to a change begins with.
fn verb_of(work: &Work) -> Verb
    ensures { (t : Terms) → plain_verb result ≡ machine.verb_of_work (work_of t work.now) }
{
    match work {
        Work::Set(_) => Verb::Updated,
        Work::Remove => Verb::Deleted,
    }
}

impl<I: IntervalIndex> Engine<I> {
    ghost use Rattle.tql_spec.specs.Machine as machine;
    ghost use Rattle.tql_spec.specs.Machine.{State, step};
    ghost use Rattle.tql_spec.specs.TypingLaws.{IsTypedChange};
    ghost use Rattle.tql_bound.specs.Placed.{IsPlacedQuery};
    ghost use Rattle.tql_bound.specs.Changes.{insertion_of, modification_of, query_insertion_of};
    ghost use Rattle.tql_bound.specs.Queries.{bound_query_of};
    ghost use Rattle.tql_engine_state.specs.Making.{Changes, IsMade};
    ghost use Rattle.tql_catalog.specs.Tables.{definitions_of};
    ghost use Rattle.tql_engine_state.specs.Stands.{StandsFor};
    ghost use Rattle.tql_engine_state.specs.Allowed.{IsIdle, HasTimeLeft, AsksWithin};
    ghost use Rattle.tql_engine_state.specs.Effects.{DoesStep};

    /// Applies a change to the table at this index, in the open transaction or in one of its own at the clock's moment.
    /// Refused, with nothing changed, if a key would not hold after it, else if a reference would not, or if an
    /// allocation is refused.
    fn make(&mut self, place: usize, delta: Delta, verb: Verb) -> Result<Reply, Refusal>
        requires within { place < length self.old.tables }
        requires made { IsMade self.old place delta verb }
        requires below { IsIdle self.old → HasTimeLeft self.old }
        ensures { (s : State) (c : machine.Change) → StandsFor self.old s → Changes self.old place delta verb c s
            → DoesStep self.new s result (step s (machine.ChangeRows c)) }
    {
        let tested = check(
            self.memory,
            &self.tables,
            &self.store,
            place,
            &delta,
            self.next,
        );
        if let Err(refusal) = tested {
            return Err(refusal);
        }
        let count = delta.count;
        match change_rows(&mut self.store, self.next, delta) {
            Ok(next) => {
                self.next = next;
                Ok(Reply::Done(verb, Some(count)))
            }
            Err(refusal) => Err(refusal),
        }
    }

    /// Runs an INSERT of tuples. Its rows start at the clock's moment, which is also that of an open transaction.
    pub(super) fn insert(&mut self, insertion: &Insertion) -> Result<Reply, Refusal>
        requires within { insertion.now.table < length (definitions_of self.old.tables) }
        requires typed { IsTypedChange (definitions_of self.old.tables) (insertion_of insertion.now) }
        requires below { IsIdle self.old → HasTimeLeft self.old }
        ensures { (s : State) → StandsFor self.old s
            → DoesStep self.new s result (step s (machine.ChangeRows (insertion_of insertion.now))) }
    {
        match self.held().tuples_delta(insertion) {
            Ok(delta) => self.make(insertion.table, delta, Verb::Inserted),
            Err(refusal) => Err(refusal),
        }
    }

    /// Runs an INSERT from a query. Its rows start at the clock's moment, which is also that of an open transaction.
    pub(super) fn insert_from(&mut self, insertion: &QueryInsertion) -> Result<Reply, Refusal>
        requires within { insertion.now.table < length (definitions_of self.old.tables) }
        requires placed { IsPlacedQuery (definitions_of self.old.tables) (bound_query_of insertion.now.query) }
        requires asked { AsksWithin self.old (bound_query_of insertion.now.query) }
        requires typed { IsTypedChange (definitions_of self.old.tables) (query_insertion_of insertion.now) }
        requires below { IsIdle self.old → HasTimeLeft self.old }
        ensures { (s : State) → StandsFor self.old s
            → DoesStep self.new s result (step s (machine.ChangeRows (query_insertion_of insertion.now))) }
    {
        inserts_keep_no_order();
        match self.held().query_delta(insertion) {
            Ok(delta) => self.make(insertion.table, delta, Verb::Inserted),
            Err(refusal) => Err(refusal),
        }
    }

    /// Runs an UPDATE or a DELETE.
    pub(super) fn modify(&mut self, modification: &Modification) -> Result<Reply, Refusal>
        requires within { modification.now.table < length (definitions_of self.old.tables) }
        requires typed { IsTypedChange (definitions_of self.old.tables) (modification_of modification.now) }
        requires below { IsIdle self.old → HasTimeLeft self.old }
        ensures { (s : State) → StandsFor self.old s
            → DoesStep self.new s result (step s (machine.ChangeRows (modification_of modification.now))) }
    {
        safe_conditions();
        changes_keep_no_order();
        changes_by_parts();
        let verb = verb_of(&modification.work);
        match self.held().delta_of(modification) {
            Ok(delta) => self.make(modification.table, delta, verb),
            Err(refusal) => Err(refusal),
        }
    }
}
