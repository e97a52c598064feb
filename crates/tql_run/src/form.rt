//! The output formats of a run.
ghost use Rattle.std.specs.Prelude.{Bool, false, ⊤, IsTrue};
ghost use Rattle.tql_spec.specs.Answer as run;
ghost use Rattle.tql_result.specs.Devices.{held};
ghost use Rattle.tql_result.specs.Replies.{answer_of, IsPrintableAnswer};
ghost use Rattle.tql_run.specs.Texts.{Texts, Written, Writes, plain_texts};

use tql_detail::detail::Detail;
use tql_result::answer::{Answer, write_answer};
use tql_result::device::DeviceFault;
use tql_result::sink::Sink;

/// An output format for the answers of a run.
pub trait Form {
    /// The possible lists of answers written so far, oldest first. The next text may depend on them.
    ghost wrote: { Self → Written };

    /// The possible texts of an answer.
    ghost texts: { Texts };

    /// The answers that a listener may be expected to report as well.
    ghost reported: { run.Answer → Bool };

    /// Whether the form uses details.
    fn wants_details(&self) -> bool;

    /// Whether a listener is expected to report this answer, instead of its text or in addition to it. If that listener
    /// waits for a flush, the run first flushes the sink.
    fn is_reported(&self, answer: &Answer) -> bool
        ensures { IsTrue result → IsTrue (reported (answer_of answer.now)) };

    /// Pushes a text of the answer to the statement with this number, on this line. Both are counted from 1. The detail
    /// of a refusal is passed if it is wanted and known.
    ///
    /// # Errors
    ///
    /// Fails if the sink fails. A prefix of the text has then been pushed.
    fn write<O: Sink>(
        &mut self,
        sink: &mut O,
        statement: u64,
        line: u64,
        answer: &Answer,
        detail: Option<&Detail>,
    ) -> Result<(), DeviceFault>
        requires { IsPrintableAnswer (answer_of answer.now) }
        ensures { Writes texts (wrote self.old) (wrote self.new) statement line (answer_of answer.now) result
            (held O.written O.kept sink.old) (held O.written O.kept sink.new)
            (O.failures sink.old) (O.failures sink.new) };
}

/// The plain form: writes each answer as `write_answer` does, whatever answers came before it.
#[derive(Clone, Copy, Debug)]
pub struct PlainForm;

impl Form for PlainForm {
    ghost wrote = { λ _ _. ⊤ };

    ghost texts = { plain_texts };

    ghost reported = { λ _. false };

    fn wants_details(&self) -> bool {
        false
    }

    fn is_reported(&self, _answer: &Answer) -> bool {
        false
    }

    fn write<O: Sink>(
        &mut self,
        sink: &mut O,
        _statement: u64,
        _line: u64,
        answer: &Answer,
        _detail: Option<&Detail>,
    ) -> Result<(), DeviceFault> {
        write_answer(sink, answer)
    }
}
