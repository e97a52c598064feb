//! A script that arrives in parts, from a host that has no source and no sink.
ghost use Rattle.std.specs.Prelude.{◌≡◌, ◌≤◌, [], length, min, take, IsTrue, IsFalse, IfOk};
ghost use Rattle.tql_spec.specs.Words.{is_empty};
ghost use Rattle.tql_splitter.specs.Feeding.{Feeds, Finishes};
ghost use Rattle.tql_run.specs.Kept.{KeepsOn};
ghost use Rattle.tql_run.specs.Writing.{AnswersNext};

use crate::responder::Responder;
use crate::run_splitter::RunSplitter;
use crate::runner::answer_next;
use crate::unkept::Unkept;
use std::alloc::AllocError;
use std::marker::Model;
use tql_detail::detail::Detail;
use tql_memory::Memory;
use tql_result::answer::Answer;
use tql_result::sink::Sink;
use tql_splitter::splitter::LONGEST_PART;

/// A script that arrives in parts. The host feeds bytes as they come, and takes each answer as soon as its statement is
/// whole. How the bytes are divided into parts does not matter.
#[derive(Drop)]
pub struct Session {
    splitter: RunSplitter,
    /// The detail of the last answer.
    detail: Option<Detail>,
}

impl Model for Session {
    ghost use Rattle.tql_splitter.specs.Stream.{Stream};

    ghost Value = { Stream };

    ghost view = { λ s. s.splitter };
}

impl Session {
    ghost use Rattle.tql_splitter.specs.Holding.{Holds};

    /// Returns a session without any input. Allocates 65,536 bytes for a part and the same for the text of a statement.
    /// Longer texts are allocated in `memory` too.
    pub fn new(memory: Memory) -> Result<Session, AllocError>
        ensures holds { IfOk result (λ s. Holds s [] []) }
        ensures ready { IfOk result (λ s. s.ready ≡ []) }
        ensures unended { IfOk result (λ s. IsFalse s.ended) }
    {
        let splitter = RunSplitter::new(memory)?;
        Ok(Session {
            splitter,
            detail: None,
        })
    }

    /// Takes bytes from the front and returns their number, at most 65,536. Returns zero while answers are pending and
    /// after `finish`. The host feeds the remaining bytes again after it has taken the answers.
    pub fn feed(&mut self, bytes: &[u8]) -> usize
        ensures within { result ≤ length bytes.now }
        ensures feeds { Feeds self.old self.new (take result bytes.now) }
        ensures taken { self.old.ready ≡ [] → IsFalse self.old.ended → result ≡ min (length bytes.now) 65_536 }
        ensures left { IsFalse (is_empty self.old.ready) → result ≡ 0 }
        ensures ended { IsTrue self.old.ended → result ≡ 0 }
    {
        if self.splitter.is_finished() || !self.splitter.is_drained() {
            return 0;
        }
        let count = bytes.len().min(LONGEST_PART);
        self.splitter.feed(&bytes[..count]);
        count
    }

    /// Ends the script: no more bytes follow.
    pub fn finish(&mut self)
        ensures { Finishes self.old self.new }
    {
        self.splitter.finish();
    }

    /// Returns the line of the last answered statement, counted from 1: the line of its first byte outside blanks and
    /// comments.
    pub fn line(&self) -> u64
        ensures { result ≡ self.now.line }
    {
        self.splitter.line()
    }

    /// Answers the next statement. Returns None if the bytes fed so far contain no further whole statement. After
    /// `finish`, a text without a closing `;` is refused as unfinished.
    pub fn next_answer<R: Responder>(&mut self, responder: &mut R) -> Option<Answer>
        ensures { AnswersNext R.answering result self.old self.new
            (R.stands responder.old) (R.stands responder.new) }
    {
        self.next_kept(responder, &mut Unkept::new())
    }

    /// Answers the next statement as `next_answer` does, and gives its text to the sink if a journal keeps it. Nothing
    /// is pushed and nothing flushed: the host passes the answer on after it has flushed the sink, or pushes it there.
    pub fn next_kept<R: Responder, O: Sink>(
        &mut self,
        responder: &mut R,
        sink: &mut O,
    ) -> Option<Answer>
        ensures answers { AnswersNext R.answering result self.old self.new
            (R.stands responder.old) (R.stands responder.new) }
        ensures kept { KeepsOn R.answering self.old self.new (R.stands responder.old) (R.stands responder.new)
            (O.kept sink.old) (O.kept sink.new) }
        ensures written { O.written sink.new ≡ O.written sink.old }
        ensures failures { O.failures sink.new ≡ O.failures sink.old }
    {
        answer_next(responder, &mut self.splitter, sink, true, &mut self.detail)
    }

    /// Returns the detail of the refusal of the last answered statement. It is allocated in the responder's memory, and
    /// is freed by the next call of `next_answer` or `next_kept`. `since` is the line of this session's last
    /// START TRANSACTION, so it may be wrong if another session ends that transaction and opens one on the same
    /// responder.
    pub fn detail(&self) -> Option<&Detail> {
        self.detail.as_ref()
    }
}
