//! Runs of a script in which each allocation is made to fail, in order, in four ways. (1) All later allocations fail
//! too. (2) The statement is tried again with memory. (3) Only this allocation fails. (4) On one engine, each statement
//! is tried with no allocation granted, with one, and so on; then with only its first one failing, and so on.
//!
//! A statement that runs out of memory has changed nothing. If it is tried again with memory, it and all later ones
//! have the expected replies. Otherwise all later ones have the replies that they have without it.
use crate::compare::is_expected;
use crate::runs::{Answering, Granted, answer};
use crate::steps::{Manner, NO_MEMORY, NOT_UTF8, Replies, TOO_LONG, UNFINISHED, step_all};
use std::alloc::{AllocError, Global};
use std::io;
use tql_run::runner::Fault;

/// The replies to COMMIT and ROLLBACK, and the reply to both if no transaction is open.
const COMMITTED: &[u8] = b"COMMIT\n";

const ROLLED_BACK: &[u8] = b"ROLLBACK\n";

const NOT_OPEN: &[u8] = b"REFUSED E40 not in this transaction state\n";

/// The replies that depend on the bytes alone, which take no memory.
static OF_BYTES: [&[u8]; 3] = [TOO_LONG, NOT_UTF8, UNFINISHED];

/// More allocations than any script makes that is run for each allocation.
const MOST_GROWTHS: u64 = 20_000;

/// The expected output of a script.
#[derive(Drop)]
struct Listed<'a> {
    text: &'a [u8],
    /// The start of the first reply, and the end of each.
    ends: Vec<usize>,
}

impl Listed<'_> {
    /// Returns the reply to a statement; empty if the statement does not exist.
    fn reply(&self, statement: usize) -> &[u8] {
        match self.ends.get(statement..statement.saturating_add(2)) {
            Some([from, to]) => self.text.get(*from..*to).unwrap_or(&[]),
            _ => &[],
        }
    }

    /// Returns the replies after that of a statement.
    fn behind(&self, statement: usize) -> &[u8] {
        match self.ends.get(statement.saturating_add(1)) {
            Some(from) => self.text.get(*from..).unwrap_or(&[]),
            None => &[],
        }
    }
}

/// Returns the start of a text and the end of each line.
fn line_ends(alloc: Global, text: &[u8]) -> Result<Vec<usize>, AllocError> {
    let mut ends = vec![in alloc; 0]?;
    for (at, byte) in text.iter().enumerate() {
        if *byte == b'\n' {
            ends.push(at.saturating_add(1))?;
        }
    }
    Ok(ends)
}

/// Returns the start and the ends of the replies in the expected output. A check answers each statement with a line.
fn reply_ends(
    alloc: Global,
    answering: Answering,
    script: &[u8],
    listed: &[u8],
) -> io::Result<Vec<usize>> {
    match answering {
        Answering::Run => Ok(step_all(alloc, script, Manner::Once, u64::MAX)?.ends),
        Answering::Check => Ok(line_ends(alloc, listed)?),
    }
}

/// Whether the expected reply may be given without memory: those to COMMIT and ROLLBACK, and those about the bytes.
fn takes_no_memory(listed: &[u8]) -> bool {
    listed == COMMITTED || listed == ROLLED_BACK || listed == NOT_OPEN || OF_BYTES.contains(&listed)
}

/// Returns the output after the reply to a statement that ran without memory; None if the reply is wrong. The reply is
/// that memory ran out. COMMIT and ROLLBACK take no memory: their reply is the expected one, or that no transaction is
/// open. Replies about the bytes take none either, but reading a text of over 65,536 bytes may have failed.
fn behind_refusal<'a>(listed: &[u8], text: &'a [u8]) -> Option<&'a [u8]> {
    if listed == COMMITTED || listed == ROLLED_BACK {
        return text
            .strip_prefix(listed)
            .or_else(|| text.strip_prefix(NOT_OPEN));
    }
    if takes_no_memory(listed)
        && let Some(rest) = text.strip_prefix(listed)
    {
        return Some(rest);
    }
    text.strip_prefix(NO_MEMORY)
}

/// Whether each reply of an output is the expected one up to some statement, and from there on one that a statement has
/// without memory.
fn is_beginning(listed: &Listed<'_>, text: &[u8]) -> bool {
    let mut left = text;
    let mut has_memory = true;
    let mut from = 0usize;
    for to in &listed.ends {
        let reply = listed.text.get(from..*to).unwrap_or(&[]);
        let behind = if has_memory {
            left.strip_prefix(reply)
        } else {
            None
        };
        has_memory = behind.is_some();
        match behind.or_else(|| behind_refusal(reply, left)) {
            Some(rest) => left = rest,
            None => return false,
        }
        from = *to;
    }
    left.is_empty()
}

/// The result of a run with limited memory.
#[derive(Clone, Copy, PartialEq, Eq, Debug)]
enum Sweep {
    /// All granted allocations were made, and the replies are right.
    UsedUp,
    /// There was more than enough memory, and each statement has the expected reply.
    Ended,
    /// A reply is wrong, or lost.
    Differs,
}

/// Runs a script with `granted` allocations and no more.
fn run_in(
    alloc: Global,
    answering: Answering,
    script: &[u8],
    listed: &Listed<'_>,
    granted: u64,
) -> io::Result<Sweep> {
    let outcome = answer(
        alloc,
        answering,
        script,
        usize::MAX,
        Granted::First(granted),
    )?;
    let nothing_ran = outcome.end == Err(Fault::Memory) && outcome.text.is_empty();
    let begins = outcome.ended_well() && is_beginning(listed, &outcome.text);
    let is_whole = begins && outcome.text.as_slice() == listed.text;
    match outcome.left {
        0 if nothing_ran || begins => Ok(Sweep::UsedUp),
        1.. if is_whole => Ok(Sweep::Ended),
        _ => Ok(Sweep::Differs),
    }
}

/// Returns the replies to the statements after a statement that is left out. A check keeps no state, so they are the
/// expected ones.
fn behind_unseen(
    alloc: Global,
    answering: Answering,
    script: &[u8],
    listed: &Listed<'_>,
    statement: usize,
) -> io::Result<Vec<u8>> {
    match answering {
        Answering::Run => {
            let Replies { text, ends, .. } = step_all(
                alloc,
                script,
                Manner::Without(statement),
                u64::MAX,
            )?;
            let answered = Listed { text: &text, ends };
            Ok(Vec::from_slice(alloc, answered.behind(statement))?)
        }
        Answering::Check => Ok(Vec::from_slice(alloc, listed.behind(statement))?),
    }
}

/// Returns the first statement whose reply is not the expected one, and the output from there on; None if all replies
/// are expected.
fn first_differing<'a>(listed: &Listed<'_>, text: &'a [u8]) -> Option<(usize, &'a [u8])> {
    let mut left = text;
    for statement in 0..listed.ends.len().saturating_sub(1) {
        match left.strip_prefix(listed.reply(statement)) {
            Some(rest) => left = rest,
            None => return Some((statement, left)),
        }
    }
    None
}

/// The replies to the statements after a statement that is left out. Only the last one is kept, since allocations are
/// made to fail in the order of the statements.
#[derive(Drop)]
struct Unseen {
    statement: usize,
    behind: Vec<u8>,
}

/// Whether an output is right for a script with one failed allocation. All replies are the expected ones; or one
/// statement runs out of memory, and later ones are answered as without it. COMMIT and ROLLBACK take no memory.
fn is_without_one(
    alloc: Global,
    answering: Answering,
    script: &[u8],
    listed: &Listed<'_>,
    text: &[u8],
    unseen: &mut Unseen,
) -> io::Result<bool> {
    let (statement, left) = match first_differing(listed, text) {
        Some(found) => found,
        None => return Ok(text == listed.text),
    };
    if unseen.statement != statement {
        unseen.behind = behind_unseen(alloc, answering, script, listed, statement)?;
        unseen.statement = statement;
    }
    let reply = listed.reply(statement);
    let takes_memory = reply != COMMITTED && reply != ROLLED_BACK;
    Ok(takes_memory && left.strip_prefix(NO_MEMORY) == Some(unseen.behind.as_slice()))
}

/// Runs a script in which only the allocation after the first `before` ones fails.
fn run_without(
    alloc: Global,
    answering: Answering,
    script: &[u8],
    listed: &Listed<'_>,
    before: u64,
    unseen: &mut Unseen,
) -> io::Result<Sweep> {
    let outcome = answer(
        alloc,
        answering,
        script,
        usize::MAX,
        Granted::AllBut(before),
    )?;
    let nothing_ran = outcome.end == Err(Fault::Memory) && outcome.text.is_empty();
    let is_well = nothing_ran
        || outcome.ended_well()
            && is_without_one(alloc, answering, script, listed, &outcome.text, unseen)?;
    let is_whole = is_well && outcome.text.as_slice() == listed.text;
    match outcome.left > before {
        true if is_well => Ok(Sweep::UsedUp),
        false if is_whole => Ok(Sweep::Ended),
        _ => Ok(Sweep::Differs),
    }
}

/// Whether a script has the expected replies if an allocation fails and its statement is tried again with memory. A
/// check keeps no state, so it does not need this test.
fn is_retried_well(
    alloc: Global,
    answering: Answering,
    script: &[u8],
    listed: &Listed<'_>,
    granted: u64,
) -> io::Result<bool> {
    match answering {
        Answering::Run => {
            let replies = step_all(alloc, script, Manner::Retried, granted)?;
            Ok(replies.text.as_slice() == listed.text)
        }
        Answering::Check => Ok(true),
    }
}

/// The result of the runs of a script in which one allocation fails.
fn run_failing(
    alloc: Global,
    answering: Answering,
    script: &[u8],
    listed: &Listed<'_>,
    granted: u64,
    unseen: &mut Unseen,
) -> io::Result<Sweep> {
    let sweep = run_in(alloc, answering, script, listed, granted)?;
    let alone = run_without(alloc, answering, script, listed, granted, unseen)?;
    let is_well = alone != Sweep::Differs
        && is_retried_well(alloc, answering, script, listed, granted)?;
    Ok(if is_well { sweep } else { Sweep::Differs })
}

/// Makes a script's first allocation fail, then its second, and so on, until the script makes fewer. Counts the failed
/// allocations. Returns how many were granted when a reply was wrong; None if all are right.
fn first_differing_growth(
    alloc: Global,
    answering: Answering,
    script: &[u8],
    listed: &Listed<'_>,
    unseen: &mut Unseen,
    refused: &mut u64,
) -> io::Result<Option<u64>> {
    for granted in 0..MOST_GROWTHS {
        match run_failing(alloc, answering, script, listed, granted, unseen)? {
            Sweep::UsedUp => *refused = refused.saturating_add(1),
            Sweep::Ended if granted > 1 => return Ok(None),
            _ => return Ok(Some(granted)),
        }
    }
    Ok(Some(MOST_GROWTHS))
}

/// Whether a script's replies are right with each of its allocations made to fail. If not, writes at which they are
/// wrong. Counts the failed allocations.
pub fn is_right_by_growths(
    alloc: Global,
    answering: Answering,
    script: &[u8],
    text: &[u8],
    refused: &mut u64,
    fault: &mut String,
) -> io::Result<bool> {
    let ends = reply_ends(alloc, answering, script, text)?;
    let listed = Listed { text, ends };
    let mut unseen = Unseen {
        statement: usize::MAX,
        behind: Vec::new(alloc),
    };
    let wrong = first_differing_growth(alloc, answering, script, &listed, &mut unseen, refused)?;
    if let Some(granted) = wrong {
        write!(fault, "differs where {granted} growths are granted")?;
    }
    Ok(wrong.is_none())
}

/// Whether each statement of a script has the expected reply when it is tried in this manner. If not, writes where it
/// differs. Counts the failed allocations.
fn is_right_by_manner(
    alloc: Global,
    script: &[u8],
    text: &[u8],
    manner: Manner,
    refused: &mut u64,
    fault: &mut String,
) -> io::Result<bool> {
    let replies = step_all(alloc, script, manner, 0)?;
    *refused = refused.saturating_add(replies.refused);
    Ok(is_expected(fault, text, &replies.text)?)
}

/// Tries each statement of a script with no allocation granted, with one, and so on, until it has enough. Then does so
/// with one failing allocation. Returns whether all replies are right. If not, writes where one is wrong.
pub fn is_right_in_turn(
    alloc: Global,
    script: &[u8],
    text: &[u8],
    refused: &mut u64,
    fault: &mut String,
) -> io::Result<bool> {
    let is_right = is_right_by_manner(alloc, script, text, Manner::InTurn, refused, fault)?
        && is_right_by_manner(alloc, script, text, Manner::OneInTurn, refused, fault)?;
    if !is_right {
        fault.push_str(", with its growths refused in turn")?;
    }
    Ok(is_right)
}
