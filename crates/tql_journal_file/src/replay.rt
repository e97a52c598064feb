//! The run of a journal, without replies.
ghost use Rattle.std.specs.Prelude.{◌≡◌, None};
ghost use Rattle.tql_result.specs.Replies.{answer_of};
ghost use Rattle.tql_run.specs.Kept.{is_kept_answer};
ghost use Rattle.tql_journal_file.specs.Replays.{open_after, unkept_after};

use crate::fault::JournalFault;
use std::io::{self, Read};
use tql_detail::detail::Detail;
use tql_result::answer::Answer;
use tql_result::reply::{Reply, Verb};
use tql_result::std_sink::StdSink;
use tql_run::listener::Listener;
use tql_run::pushed::Pushed;
use tql_run::responder::Responder;
use tql_run::runner::run_in;
use tql_run::std_source::StdSource;
use tql_run_forms::jsonl_form::JsonlForm;
use tql_value::refusal::Refusal;

/// Whether a transaction is open after an answer, if one was open before it or not.
fn is_open_after(before: bool, answer: &Answer) -> bool
    ensures { result ≡ open_after before (answer_of answer.now) }
{
    match answer {
        Answer::Replied(Reply::Done(Verb::Started, _)) => true,
        Answer::Replied(Reply::Done(Verb::Committed | Verb::RolledBack, _)) => false,
        _ => before,
    }
}

/// Whether a journal keeps the statement with this answer.
fn is_kept(answer: &Answer) -> bool
    ensures { result ≡ is_kept_answer (answer_of answer.now) }
{
    match answer {
        Answer::Replied(Reply::Done(Verb::OpenedReader | Verb::ClosedReader, _)) => false,
        Answer::Replied(Reply::Done(_, _)) => true,
        _ => false,
    }
}

/// Returns the line of the first statement that is none that a journal keeps, after the answer to one on a line.
fn first_unkept(before: Option<u64>, line: u64, answer: &Answer) -> Option<u64>
    ensures { result ≡ unkept_after before line (answer_of answer.now) }
{
    match before {
        Some(first) => Some(first),
        None if is_kept(answer) => None,
        None => Some(line),
    }
}

/// What the run of a journal led to.
#[derive(Drop)]
pub struct Replay {
    /// Whether a transaction is open.
    pub is_open: bool,
    /// The line and the reason of the first statement that was refused.
    pub refused: Option<(u64, Refusal)>,
    /// The line of the first statement that is none that a journal keeps.
    pub unkept: Option<u64>,
}

impl Listener for Replay {
    ghost heard = { λ _. None };

    fn wants_details(&self) -> bool {
        false
    }

    fn waits(&self) -> bool {
        false
    }

    fn refused(
        &mut self,
        _statement: u64,
        line: u64,
        refusal: Refusal,
        _detail: Option<&Detail>,
        _pushed: &Pushed,
    ) {
        self.refused = Some((line, refusal));
    }

    fn answered(&mut self, line: u64, answer: &Answer, _pushed: &Pushed) {
        self.is_open = is_open_after(self.is_open, answer);
        self.unkept = first_unkept(self.unkept, line, answer);
    }
}

/// Runs a journal up to the first statement that is refused, and writes no reply.
pub fn run_silently<R: Responder, I: Read + Drop>(
    responder: &mut R,
    journal: I,
) -> Result<Replay, JournalFault> {
    let mut replay = Replay {
        is_open: false,
        refused: None,
        unkept: None,
    };
    let mut source = StdSource::new(journal);
    let mut nowhere = StdSink::new(io::sink());
    match run_in(
        responder,
        &mut source,
        &mut nowhere,
        &mut replay,
        &mut JsonlForm,
        true,
    ) {
        Ok(_) => Ok(replay),
        Err(fault) => Err(JournalFault::Stopped(fault)),
    }
}
