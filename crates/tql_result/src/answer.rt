//! The answer of a run to a piece of a script, and its text.
ghost use Rattle.tql_spec.specs.Text.{answer_text};
ghost use Rattle.tql_result.specs.Devices.{Pushes, held};
ghost use Rattle.tql_result.specs.Replies.{answer_of, IsPrintableAnswer};

use crate::device::DeviceFault;
use crate::pieces::push_all;
use crate::print::write_reply;
use crate::reply::Reply;
use crate::sink::Sink;

/// The answer of a run to a piece of a script.
pub enum Answer {
    /// The reply to a statement that was run, or the refusal of the piece.
    Replied(Reply),
    /// A statement that was checked and has no fault.
    Accepted,
}

impl Drop for Answer {
    fn drop(self) {
        match self {
            Answer::Replied(reply) => drop(reply),
            Answer::Accepted => {}
        }
    }
}

/// Pushes an answer as printed: a reply as `write_reply` does, or `OK`. Allocates no memory. After an error a prefix of
/// the text has been pushed.
pub fn write_answer<S: Sink>(sink: &mut S, answer: &Answer) -> Result<(), DeviceFault>
    requires { IsPrintableAnswer (answer_of answer.now) }
    ensures { Pushes (answer_text (answer_of answer.now)) result
        (held S.written S.kept sink.old) (held S.written S.kept sink.new) (S.failures sink.old) (S.failures sink.new) }
{
    match answer {
        Answer::Replied(reply) => write_reply(sink, reply),
        Answer::Accepted => push_all(sink, b"OK\n"),
    }
}
