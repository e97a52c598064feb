//! The replies of an engine to the pieces of a script, each given by itself, while allocations fail and are granted
//! again; and the number of allocations that the last piece makes.
ghost use Rattle.std.specs.Prelude.{◌≡◌, [], OnOk, false};

use crate::compare::is_expected;
use crate::runs::Engine;
use std::alloc::{AllocError, Global};
use std::io;
use tql_memory::{Memory, memory};
use tql_result::print::write_reply;
use tql_result::std_sink::StdSink;
use tql_splitter::piece::Piece;
use tql_splitter::splitter::{LONGEST_PART, Splitter};

/// The reply to a statement that runs out of memory.
pub const NO_MEMORY: &[u8] = b"REFUSED E01 out of memory\n";

/// The replies that depend on the bytes alone, which take no memory.
pub const TOO_LONG: &[u8] = b"REFUSED E13 statement too long\n";

pub const NOT_UTF8: &[u8] = b"REFUSED E11 not UTF-8\n";

pub const UNFINISHED: &[u8] = b"REFUSED E12 unfinished statement\n";

/// More allocations than any statement makes that is tried for each allocation.
const MOST_TRIALS: u64 = 20_000;

/// How often a piece that runs out of memory is tried.
#[derive(Clone, Copy, PartialEq, Eq, Debug)]
pub enum Manner {
    /// Once.
    Once,
    /// Twice: the second time with enough memory.
    Retried,
    /// With no allocation granted, with one, with two, and so on, until it has enough.
    InTurn,
    /// With only its first allocation failing, with only its second, and so on, until no allocation fails.
    OneInTurn,
    /// Once, except that the piece with this index is left out.
    Without(usize),
}

/// Returns the text of the reply to a statement.
fn statement_text(alloc: Global, engine: &mut Engine, statement: &[u8]) -> io::Result<Vec<u8>> {
    let reply = engine.step(statement);
    let mut sink = StdSink::new(Vec::new(alloc));
    match write_reply(&mut sink, &reply) {
        Ok(()) => Ok(sink.into_writer()),
        Err(_) => Err(io::Error::from(AllocError)),
    }
}

/// Returns the reply to a text that no `;` ends.
fn cut_text(text: &[u8]) -> &'static [u8] {
    match str::from_utf8(text) {
        Ok(_) => UNFINISHED,
        Err(_) => NOT_UTF8,
    }
}

/// Returns the text of the reply to a piece.
fn reply_text(alloc: Global, engine: &mut Engine, piece: Piece<'_>) -> io::Result<Vec<u8>> {
    let told = match piece {
        Piece::Text(statement) => return statement_text(alloc, engine, statement),
        Piece::TooLong => TOO_LONG,
        Piece::NoMemory => NO_MEMORY,
        Piece::Unfinished(text) => cut_text(text),
    };
    Ok(Vec::from_slice(alloc, told)?)
}

/// The replies to the pieces of a script.
#[derive(Drop)]
pub struct Replies {
    /// The replies, one after another.
    pub text: Vec<u8>,
    /// The start of the first reply in the text, and the end of each.
    pub ends: Vec<usize>,
    /// The number of allocations that the engine made for the last piece.
    pub last_growths: u64,
    /// The number of trials with a failed allocation. They are not counted for `Once` and `Without`.
    pub refused: u64,
}

impl Replies {
    /// Returns the number of pieces that were answered or left out.
    fn count(&self) -> usize {
        self.ends.len().saturating_sub(1)
    }
}

/// Returns the reply to a piece that is granted no allocation, then one, and so on, until they are enough. If they
/// never are, the reply is that memory ran out.
fn found_in_turn(
    alloc: Global,
    memory: Memory,
    engine: &mut Engine,
    piece: Piece<'_>,
    refused: &mut u64,
) -> io::Result<Vec<u8>> {
    for granted in 0..MOST_TRIALS {
        memory.grant(granted);
        let reply = reply_text(alloc, engine, piece)?;
        if reply.as_slice() != NO_MEMORY {
            return Ok(reply);
        }
        *refused = refused.saturating_add(1);
    }
    Ok(Vec::from_slice(alloc, NO_MEMORY)?)
}

/// Returns the reply to a piece whose first allocation fails alone, then its second, and so on, until none fails. The
/// first reply other than that memory ran out is final.
fn found_with_one_refused(
    alloc: Global,
    memory: Memory,
    engine: &mut Engine,
    piece: Piece<'_>,
    refused: &mut u64,
) -> io::Result<Vec<u8>> {
    for before in 0..MOST_TRIALS {
        memory.refuse_one_behind(before);
        let reply = reply_text(alloc, engine, piece)?;
        if reply.as_slice() != NO_MEMORY {
            *refused = refused.saturating_add(u64::from(memory.left() > before));
            return Ok(reply);
        }
        *refused = refused.saturating_add(1);
    }
    Ok(Vec::from_slice(alloc, NO_MEMORY)?)
}

/// Returns the reply to a piece that is tried in this manner.
fn settled(
    alloc: Global,
    memory: Memory,
    engine: &mut Engine,
    piece: Piece<'_>,
    manner: Manner,
    refused: &mut u64,
) -> io::Result<Vec<u8>> {
    match manner {
        Manner::InTurn => return found_in_turn(alloc, memory, engine, piece, refused),
        Manner::OneInTurn => return found_with_one_refused(alloc, memory, engine, piece, refused),
        Manner::Once | Manner::Retried | Manner::Without(_) => {}
    }
    let reply = reply_text(alloc, engine, piece)?;
    if manner != Manner::Retried || reply.as_slice() != NO_MEMORY {
        return Ok(reply);
    }
    *refused = refused.saturating_add(1);
    memory.grant(u64::MAX);
    reply_text(alloc, engine, piece)
}

/// Answers the pieces that are complete in the bytes so far, and appends the replies.
fn step_fed(
    alloc: Global,
    memory: Memory,
    engine: &mut Engine,
    splitter: &mut Splitter,
    manner: Manner,
    replies: &mut Replies,
) -> io::Result<()>
    ensures ended { splitter.new.ended ≡ splitter.old.ended }
    ensures drained { OnOk result (splitter.new.ready ≡ []) }
{
    while let Some(piece) = splitter.next_statement() {
        let before = memory.left();
        let reply = if manner == Manner::Without(replies.count()) {
            Vec::new(alloc)
        } else {
            settled(alloc, memory, engine, piece, manner, &mut replies.refused)?
        };
        replies.last_growths = before.saturating_sub(memory.left());
        replies.text.extend_from_slice(&reply)?;
        replies.ends.push(replies.text.len())?;
    }
    Ok(())
}

/// Answers the pieces of a script in this manner, and appends the replies.
fn step_script(
    alloc: Global,
    memory: Memory,
    engine: &mut Engine,
    splitter: &mut Splitter,
    script: &[u8],
    manner: Manner,
    replies: &mut Replies,
) -> io::Result<()>
    requires unended { splitter.old.ended ≡ false }
    requires drained { splitter.old.ready ≡ [] }
{
    for part in script.chunks(LONGEST_PART) {
        splitter.feed(part);
        step_fed(alloc, memory, engine, splitter, manner, replies)?;
    }
    splitter.finish();
    step_fed(alloc, memory, engine, splitter, manner, replies)
}

/// Returns the replies of a new engine to the pieces of a script, with `granted` allocations and in this manner.
pub fn step_all(alloc: Global, script: &[u8], manner: Manner, granted: u64) -> io::Result<Replies> {
    let mut splitter = Splitter::new(memory(alloc, u64::MAX)?)?;
    let memory = memory(alloc, granted)?;
    let mut replies = Replies {
        text: Vec::new(alloc),
        ends: vec![in alloc; 0]?,
        last_growths: 0,
        refused: 0,
    };
    let mut engine = Engine::new(memory);
    step_script(
        alloc,
        memory,
        &mut engine,
        &mut splitter,
        script,
        manner,
        &mut replies,
    )?;
    Ok(replies)
}

/// Whether the last statement of a script makes at most `most` allocations, and the replies are the expected ones. If
/// not, writes the fault.
pub fn is_bounded(
    alloc: Global,
    script: &[u8],
    listed: &[u8],
    most: u64,
    fault: &mut String,
) -> io::Result<bool> {
    let replies = step_all(alloc, script, Manner::Once, u64::MAX)?;
    let count = replies.last_growths;
    if count > most {
        write!(fault, "makes {count} growths in its last statement")?;
        return Ok(false);
    }
    Ok(is_expected(fault, listed, &replies.text)?)
}
