//! The guarantees of a session over an engine: its answers are those of a run, and keys and references hold after each
//! call.
ghost use Rattle.tql_turns.specs.Merge.{SessionsMergeOn};
ghost use Rattle.tql_engine.specs.Kept.{SessionsAreKept};
ghost use Rattle.tql_engine.specs.Sessions.{SessionsHold};
ghost use Rattle.tql_engine.specs.Together.{SessionsHoldTogether, StepsAreApart, engine_sessions};

use crate::readers::readers_agree;
use tql_spec::pruned_history;

/// A host feeds a new `tql_run::session::Session` bytes as they come, and takes its answers over an engine, call by
/// call. The answers are the replies of the reference model to the first statements of the bytes, however these were
/// cut into parts. They agree with the reference models of all points of time, their READs have the replies that
/// `run_in` promises, and pruning is not visible. If keys and references hold at every point of time in each copy of
/// the reference model before, they do after each call.
pub fn sessions_hold()
    ensures { SessionsHold }
{
    pruned_history();
    readers_agree();
}

/// A host gives `tql_run::session::Session::next_kept` a sink that keeps a journal. If the texts that the sink was
/// given are a journal of the engine's state before the session, they are one of its state after each call.
pub fn sessions_kept()
    ensures { SessionsAreKept }
{}

/// Several sessions take turns on one engine, and steps of the engine may come between their calls. The answers, in the
/// order in which they are taken, are those of one run over a merge of the statements: the merge has the first
/// statements of what each session was fed, in order. What `sessions_hold` promises of one session holds for the merge.
/// From wherever the sessions stand, the merge continues (`on`).
///
/// Sessions are not isolated. Transaction, clock, horizon and the names of readers belong to the engine. After
/// START TRANSACTION of one session the changes of all are in that transaction, and COMMIT or ROLLBACK of any ends it.
pub fn sessions_hold_together()
    ensures together { SessionsHoldTogether }
    ensures steps { StepsAreApart }
    ensures on { SessionsMergeOn engine_sessions }
{
    pruned_history();
    readers_agree();
}
