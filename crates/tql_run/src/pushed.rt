//! The push of an answer, which precedes the notification of the listener.
ghost use Rattle.std.specs.Prelude.{◌≡◌, List, [], IsTrue, OnErr, is_err};
ghost use Rattle.tql_spec.specs.Answer as run;
ghost use Rattle.tql_result.specs.Devices.{Appends, Counts};
ghost use Rattle.tql_result.specs.Replies.{answer_of, IsPrintableAnswer};
ghost use Rattle.tql_run.specs.Texts.{PassesOn, style_after, written_after};

use crate::form::Form;
use tql_detail::detail::Detail;
use tql_result::answer::Answer;
use tql_result::device::DeviceFault;
use tql_result::sink::Sink;

/// Flushes the sink after an answer that a listener is to report, if `waits` is set.
fn flush_reported<F: Form, O: Sink>(
    form: &F,
    sink: &mut O,
    answer: &Answer,
    waits: bool,
) -> Result<(), DeviceFault>
    ensures kept { Appends (O.written sink.old) [] (O.written sink.new) }
    ensures counted { Counts (is_err result) (O.failures sink.old) (O.failures sink.new) }
    ensures allowed { OnErr result (IsTrue (F.reported (answer_of answer.now)) × IsTrue O.flushes_fail) }
    ensures texts { O.kept sink.new ≡ O.kept sink.old }
{
    if waits && form.is_reported(answer) {
        sink.flush()
    } else {
        Ok(())
    }
}

/// The outcome of pushing an answer. Only `Pushed::push` creates one, after the push. A function that takes a `Pushed`
/// can therefore only be called after the push.
#[derive(Debug, Drop)]
pub struct Pushed {
    outcome: Result<(), DeviceFault>,
}

impl Pushed {
    /// Pushes an answer with the form's `write`. If `waits` is set, the sink is flushed after an answer that a listener
    /// is to report.
    pub fn push<F: Form, O: Sink>(
        form: &mut F,
        sink: &mut O,
        statement: u64,
        line: u64,
        answer: &Answer,
        detail: Option<&Detail>,
        waits: bool,
    ) -> Pushed
        requires { IsPrintableAnswer (answer_of answer.now) }
        ensures passes { (before : List run.Answer) → PassesOn (style_after before F.texts F.reported) O.flushes_fail
            (written_after before (F.wrote form.old)) (written_after before (F.wrote form.new))
            statement line (answer_of answer.now) result.outcome
            (O.written sink.old) (O.written sink.new) (O.failures sink.old) (O.failures sink.new) }
        ensures texts { O.kept sink.new ≡ O.kept sink.old }
    {
        let outcome = match form.write(sink, statement, line, answer, detail) {
            Ok(()) => flush_reported(form, sink, answer, waits),
            Err(fault) => Err(fault),
        };
        Pushed { outcome }
    }

    /// Returns `Ok` if the sink took the whole answer, and its error otherwise.
    pub fn outcome(&self) -> Result<(), DeviceFault>
        ensures { result ≡ self.now.outcome }
    {
        self.outcome
    }
}
