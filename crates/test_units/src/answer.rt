//! The answer to a line, with each allocation made to fail, in order.
use crate::line::Line;
use crate::stop::Stop;
use crate::{calendar, indexes, lexer, periods, replies, rows, values};
use std::alloc::AllocError;
use tql_memory::{Memory, memory};
use tql_value::refusal::Refusal;

/// The subject of a file.
#[derive(Clone, Copy)]
pub enum Subject {
    Calendar,
    Indexes,
    Lexer,
    Periods,
    Replies,
    Rows,
    Values,
}

/// More allocations than any line makes.
const MOST_BLOCKS: u64 = 10_000;

/// Appends the answer to a line, with this memory.
fn answer(memory: Memory, subject: Subject, line: &Line<'_>, out: &mut String) -> Result<(), Stop> {
    match subject {
        Subject::Calendar => calendar::answer(line, out),
        Subject::Indexes => indexes::answer(memory, line, out),
        Subject::Lexer => lexer::answer(memory, line, out),
        Subject::Periods => periods::answer(memory, line, out),
        Subject::Replies => replies::answer(memory, line, out),
        Subject::Rows => rows::answer(memory, line, out),
        Subject::Values => values::answer(memory, line, out),
    }
}

/// Answers a line with no allocation granted, with one, with two, and so on, until memory does not run out. So each
/// allocation fails once, and none of the failures may change the answer.
pub fn answer_in_turn(
    rt: &impl AllocGlobal,
    subject: Subject,
    line: &Line<'_>,
) -> Result<String, AllocError> {
    let mut out = String::new(rt.alloc());
    for granted in 0..MOST_BLOCKS {
        out.clear();
        match answer(memory(rt.alloc(), granted)?, subject, line, &mut out) {
            Ok(()) => return Ok(out),
            Err(Stop::Refused(Refusal::OutOfMemory)) => {}
            Err(stop) => {
                out.push_str(stop.text())?;
                return Ok(out);
            }
        }
    }
    out.push_str("no memory is enough")?;
    Ok(out)
}
