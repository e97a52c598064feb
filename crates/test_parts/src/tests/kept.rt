//! tql_run: the texts that a sink is given to keep, each before its reply.
ghost use Rattle.std.specs.Prelude.{⊤, None, false};

use std::test::Fail;
use tql_detail::detail::Detail;
use tql_memory::{Memory, memory};
use tql_result::answer::Answer;
use tql_result::device::DeviceFault;
use tql_result::reply::{Reply, Verb};
use tql_result::sink::Sink;
use tql_run::responder::Responder;
use tql_run::runner::run;
use tql_run::session::Session;
use tql_run::silence::Silence;
use tql_run::slice_source::SliceSource;
use tql_value::refusal::Refusal;

/// Opens and closes a reader, refuses the statement `no`, and inserts as many rows as any other text has bytes.
#[derive(Drop)]
struct Readers {
    memory: Memory,
}

impl Responder for Readers {
    ghost stands = { λ _ _. ⊤ };

    ghost answering = { λ _ _ _ _. ⊤ };

    fn memory(&self) -> Memory {
        self.memory
    }

    fn answer(&mut self, text: &[u8]) -> Answer {
        Answer::Replied(if text == b"no".as_slice() {
            Reply::Refused(Refusal::NotAStatement)
        } else if text == b"open".as_slice() {
            Reply::Done(Verb::OpenedReader, None)
        } else if text == b"close".as_slice() {
            Reply::Done(Verb::ClosedReader, None)
        } else {
            Reply::Done(Verb::Inserted, Some(text.len() as u64))
        })
    }

    fn detail(&self, _text: &[u8], _refusal: Refusal) -> Option<Detail> {
        None
    }

    ghost refuses = { record { at_once = λ _ _ _ _. tt; for_memory = λ _ _ _. tt } };
}

/// Writes down what it is given, in order: the bytes that are pushed, and each text to keep in brackets.
#[derive(Drop)]
struct Log {
    seen: Vec<u8, Memory>,
    flushed: bool,
}

impl Sink for Log {
    ghost written = { λ _. None };

    ghost failures = { λ _. 0 };

    ghost flushed = { λ s. s.flushed };

    ghost flushes_fail = { false };

    ghost kept = { λ _. None };

    fn keep(&mut self, text: &[u8]) {
        for piece in [b"[".as_slice(), text, b"]".as_slice()] {
            let _ = self.seen.extend_from_slice(piece);
        }
    }

    fn push(&mut self, bytes: &[u8]) -> Result<usize, DeviceFault> {
        self.flushed = false;
        let _ = self.seen.extend_from_slice(bytes);
        Ok(bytes.len())
    }

    fn flush(&mut self) -> Result<(), DeviceFault> {
        self.flushed = true;
        Ok(())
    }

    fn faults(&self) -> u64 {
        0
    }
}

const SCRIPT: &[u8] = b"set;no;'a;b'; -- ;\nopen;close;rest";

/// Each text in front of its own reply. Refusals and readers are not kept.
const SEEN: &[u8] = b"[set]INSERT 3\nREFUSED E10 not a statement\n['a;b']INSERT 5\n\
    OPEN READER\nCLOSE READER\nREFUSED E12 unfinished statement\n";

/// The texts alone, as a session gives them. It pushes nothing.
const KEPT: &[u8] = b"[set]['a;b']";

/// Whether a run over parts of this size gives and pushes the expected.
fn is_seen(memory: Memory, size: usize) -> bool {
    let mut responder = Readers { memory };
    let mut log = Log {
        seen: Vec::new(memory),
        flushed: false,
    };
    let mut source = SliceSource::in_pieces(SCRIPT, size);
    let is_done = run(&mut responder, &mut source, &mut log, &mut Silence).is_ok();
    is_done && log.seen.as_slice() == SEEN
}

#[test]
fn texts_are_kept_before_their_replies(rt: HostRuntime) -> Result<(), Fail> {
    let all = memory(rt.alloc(), u64::MAX)?;
    assert!(rt; (1..=SCRIPT.len()).all(|size| is_seen(all, size)));
    Ok(())
}

#[test]
fn a_session_gives_the_same_texts(rt: HostRuntime) -> Result<(), Fail> {
    let all = memory(rt.alloc(), u64::MAX)?;
    let mut responder = Readers { memory: all };
    let mut log = Log {
        seen: Vec::new(all),
        flushed: false,
    };
    let mut session = Session::new(all)?;
    session.feed(SCRIPT);
    session.finish();
    let mut answers = 0u8;
    for _ in 0..8 {
        if session.next_kept(&mut responder, &mut log).is_some() {
            answers = answers.saturating_add(1);
        }
    }
    assert!(rt; answers == 6);
    assert!(rt; log.seen.as_slice() == KEPT);
    Ok(())
}
