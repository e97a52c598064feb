//! Listeners, which are notified of the answers of a run.
ghost use Rattle.std.specs.Prelude.{Option, List, [], ◌∷◌};
ghost use Rattle.tql_value.specs.Refusals.{refusal_of};
ghost use Rattle.tql_run.specs.Hearing.{Heard, Hears, note};

use crate::pushed::Pushed;
use tql_detail::detail::Detail;
use tql_result::answer::Answer;
use tql_value::refusal::Refusal;

/// A listener is notified of each answer of a run, after the answer was pushed.
pub trait Listener {
    /// The refusals that it was notified of. A listener without a record of them claims nothing.
    ghost heard: { Self → Option (List Heard) };

    /// Whether it uses details. If neither the listener nor the form does, none is built.
    fn wants_details(&self) -> bool;

    /// Whether the sink must be flushed before the listener is notified of an answer that it reports for the form.
    fn waits(&self) -> bool;

    /// Reports a refused statement to the listener: its number and line, both counted from 1, the refusal, and the
    /// detail if it is known and wanted. `pushed` says whether the sink took the answer. No contract covers the detail.
    fn refused(
        &mut self,
        statement: u64,
        line: u64,
        refusal: Refusal,
        detail: Option<&Detail>,
        pushed: &Pushed,
    )
        ensures { Hears (heard self.old) (note statement line (refusal_of refusal) ∷ []) (heard self.new) };

    /// Reports an answer that is not a refusal to the listener, with the line of its statement, counted from 1.
    /// `pushed` says whether the sink took it.
    fn answered(&mut self, line: u64, answer: &Answer, pushed: &Pushed)
        ensures { Hears (heard self.old) [] (heard self.new) };
}
