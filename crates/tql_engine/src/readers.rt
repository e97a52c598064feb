//! The guarantees of readers: their replies do not depend on what is written after they were opened.
ghost use Rattle.tql_engine.specs.ReaderRuns.{RunsReadStably, RunsReadAlike, StepsReadStably, ScriptsReadAlike};
ghost use Rattle.tql_engine.specs.ReaderRuns.{StepsReadAlike};

use tql_spec::pinned_readers;
use tql_syntax_grammar::{one_reading, one_sense};

/// A READ has the reply that the reference model would give to its query if it had stopped when the reader was opened,
/// with an open transaction rolled back. Excepted is a READ that is refused for the horizon, the reader or memory. This
/// holds in every run (clause `runs`), and for texts given to `Engine::step` in order (`stable`). For scripts, see
/// `run_bytes`.
///
/// So two runs from one state read alike (`agree`), if they are the same up to the opening and no CLOSE closes the
/// reader. What each does, undoes or prunes after the opening does not matter. So do two scripts (`scripts`) and two
/// lists of texts (`steps`), given to engines that represent the same state. The reader may have been opened in an
/// earlier run that led to the state. A repeated READ has the same reply.
pub fn readers_agree()
    ensures runs { RunsReadStably }
    ensures agree { RunsReadAlike }
    ensures stable { StepsReadStably }
    ensures scripts { ScriptsReadAlike }
    ensures steps { StepsReadAlike }
{
    pinned_readers();
    one_reading();
    one_sense();
}
