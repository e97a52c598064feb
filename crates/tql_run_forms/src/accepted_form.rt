//! Answers in plain text, without refusals.
ghost use Rattle.std.specs.Prelude.{⊤};
ghost use Rattle.tql_result.specs.Devices.{Pushes, held};
ghost use Rattle.tql_result.specs.Replies.{answer_of, IsPrintableAnswer};
ghost use Rattle.tql_run.specs.Runs.{is_refused as refused_of};
ghost use Rattle.tql_run_forms.specs.Forms.{accepted_answer, accepted_texts};

use crate::kinds::is_refused;
use tql_detail::detail::Detail;
use tql_result::answer::{Answer, write_answer};
use tql_result::device::DeviceFault;
use tql_result::reply::Reply;
use tql_result::sink::Sink;
use tql_run::form::Form;

/// Pushes an answer unless it is a refusal, which has an empty text.
pub fn push_accepted<O: Sink>(sink: &mut O, answer: &Answer) -> Result<(), DeviceFault>
    requires { IsPrintableAnswer (answer_of answer.now) }
    ensures { Pushes (accepted_answer (answer_of answer.now)) result
        (held O.written O.kept sink.old) (held O.written O.kept sink.new) (O.failures sink.old) (O.failures sink.new) }
{
    match answer {
        Answer::Replied(Reply::Refused(_)) => Ok(()),
        _ => write_answer(sink, answer),
    }
}

/// Writes answers as `write_answer` does, for a terminal that also shows the listener's lines. Refusals are left out.
#[derive(Clone, Copy, Debug)]
pub struct AcceptedForm;

impl Form for AcceptedForm {
    ghost wrote = { λ _ _. ⊤ };

    ghost texts = { accepted_texts };

    ghost reported = { refused_of };

    fn wants_details(&self) -> bool {
        false
    }

    fn is_reported(&self, answer: &Answer) -> bool {
        is_refused(answer)
    }

    fn write<O: Sink>(
        &mut self,
        sink: &mut O,
        _statement: u64,
        _line: u64,
        answer: &Answer,
        _detail: Option<&Detail>,
    ) -> Result<(), DeviceFault> {
        push_accepted(sink, answer)
    }
}
