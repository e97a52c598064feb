//! Runs that follow each other, and sessions that take turns on one engine.
#![tactic(auto)]

ghost use Rattle.tql_spec.specs.Machine.{Reply};
ghost use Rattle.tql_turns.specs.Following.{AgreesAlone, RunsAreDivided, RunsAreJoined, ModelsGoOn};
ghost use Rattle.tql_turns.specs.Merge.{SessionsMerge, SessionsMergeOn, MergesShowOwn, model};
ghost use Rattle.tql_turns.specs.Promises.{MergesKeepPromises};

use tql_spec::{constraints_in_runs, pruned_history};

/// After earlier runs, a run continues the models of all points where these left them, if its statements are in scope.
/// So several inputs, one after the other, agree with the models as one input does.
pub fn runs_follow()
    ensures alone { AgreesAlone }
    ensures divided { RunsAreDivided }
    ensures joined { RunsAreJoined }
    ensures on { ModelsGoOn }
{}

/// Sessions take turns on one engine, call by call. Their answers, in the order of the calls, are those of one run of
/// the reference model over a merge of their statements. In the merge, each session has the first statements of what it
/// was fed, in order, and it is given the answers to these. What is promised for runs holds for the merge.
pub fn sessions_merge()
    ensures merge { SessionsMerge model }
    ensures on { SessionsMergeOn model }
    ensures own { MergesShowOwn Reply }
    ensures promises { MergesKeepPromises }
{
    constraints_in_runs();
    pruned_history();
}
