//! Statements given to `step`: COMMIT and ROLLBACK after memory has run out, queries over an index whose lookups all
//! fail, and one with its semicolon.
use crate::tests::Engine;
use std::alloc::{AllocError, Global};
use std::test::Fail;
use test_devices::mute::Mute;
use tql_engine::engine;
use tql_memory::memory;
use tql_result::reply::{Reply, Verb};
use tql_value::refusal::Refusal;

/// More allocations than the statements of these tests make.
const MOST_GROWTHS: u64 = 4000;

/// Statements that begin a transaction and change rows in it.
static CHANGES: [&str; 6] = [
    "CREATE TABLE log (x VARCHAR(4), s TIMESTAMP GENERATED ALWAYS AS ROW START, \
     e TIMESTAMP GENERATED ALWAYS AS ROW END, PERIOD FOR SYSTEM_TIME (s, e)) WITH SYSTEM VERSIONING",
    "INSERT INTO log VALUES ('one')",
    "START TRANSACTION",
    "DELETE FROM log",
    "INSERT INTO log VALUES ('two')",
    "UPDATE log SET x = 'six' WHERE x = 'two'",
];

/// Whether an engine executes all the changes.
fn is_changed(engine: &mut Engine) -> bool {
    let mut are_done = true;
    for text in &CHANGES {
        let reply = engine.step(text.as_bytes());
        are_done = are_done && matches!(&reply, Reply::Done(_, _));
    }
    are_done
}

/// Whether an engine makes the changes with this number of allocations, no more is left then, and it ends the
/// transaction by a statement. None if the changes need more memory.
fn ends(alloc: Global, granted: u64, text: &str, verb: Verb) -> Result<Option<bool>, AllocError> {
    let memory = memory(alloc, granted)?;
    let mut engine = Engine::new(memory);
    if !is_changed(&mut engine) {
        return Ok(None);
    }
    let is_spent = memory.left() == 0;
    let reply = engine.step(text.as_bytes());
    let is_ended = matches!(&reply, Reply::Done(found, None) if *found == verb);
    Ok(Some(is_spent && is_ended))
}

/// Whether a transaction whose changes have used up the memory is ended by a statement.
fn ends_when_spent(alloc: Global, text: &str, verb: Verb) -> Result<bool, AllocError> {
    for granted in 0..MOST_GROWTHS {
        if let Some(is_right) = ends(alloc, granted, text, verb)? {
            return Ok(is_right);
        }
    }
    Ok(false)
}

#[test]
fn ends_a_transaction_without_memory(rt: HostRuntime) -> Result<(), Fail> {
    let commits = ends_when_spent(rt.alloc(), "COMMIT", Verb::Committed)?;
    let rolls_back = ends_when_spent(rt.alloc(), "ROLLBACK WORK", Verb::RolledBack)?;
    assert!(rt; commits && rolls_back);
    Ok(())
}

/// Statements for an index whose lookups all fail, and the refusal of each. Where many current rows match, the table is
/// read without a lookup. A step takes no semicolon.
static QUESTIONS: [(&str, Option<Refusal>); 11] = [
    (
        "CREATE TABLE log (x INTEGER, s TIMESTAMP GENERATED ALWAYS AS ROW START, \
         e TIMESTAMP GENERATED ALWAYS AS ROW END, PERIOD FOR SYSTEM_TIME (s, e)) WITH SYSTEM VERSIONING",
        None,
    ),
    ("INSERT INTO log VALUES (7)", None),
    ("DELETE FROM log", None),
    (
        "SELECT x FROM log FOR SYSTEM_TIME FROM TIMESTAMP '0001-01-01 00:00:00' \
         TO TIMESTAMP '2011-01-01 00:00:00'",
        Some(Refusal::OutOfMemory),
    ),
    (
        "CREATE TABLE emp (eno INTEGER, estart DATE, eend DATE, PERIOD FOR ep (estart, eend))",
        None,
    ),
    (
        "INSERT INTO emp VALUES (1, DATE '2011-01-01', DATE '2012-01-01')",
        None,
    ),
    ("SELECT eno FROM emp WHERE eno = 1", None),
    (
        "SELECT eno FROM emp WHERE ep CONTAINS DATE '2011-06-01'",
        None,
    ),
    (
        "SELECT eno FROM emp WHERE ep CONTAINS DATE '2013-06-01'",
        Some(Refusal::OutOfMemory),
    ),
    (
        "AT TIMESTAMP '2011-01-01 00:00:00';",
        Some(Refusal::NotAStatement),
    ),
    ("AT TIMESTAMP '2011-01-01 00:00:00'", None),
];

/// Returns the refusal in a reply, if any.
fn refusal_in(reply: &Reply) -> Option<Refusal> {
    match reply {
        Reply::Refused(refusal) => Some(*refusal),
        _ => None,
    }
}

#[test]
fn what_the_index_refuses_is_refused(rt: HostRuntime) -> Result<(), Fail> {
    let mut engine: engine::Engine<Mute> = engine::Engine::new(memory(rt.alloc(), u64::MAX)?);
    let mut are_right = true;
    for &(text, refusal) in &QUESTIONS {
        let reply = engine.step(text.as_bytes());
        are_right = are_right && refusal_in(&reply) == refusal;
    }
    assert!(rt; are_right);
    Ok(())
}
