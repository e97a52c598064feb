//! tql_run: a script that comes in parts has the replies of the whole script, and none before the `;` of its statement.
use crate::tests::devices::Lengths;
use std::alloc::AllocError;
use std::test::Fail;
use tql_memory::{Memory, memory};
use tql_result::answer::Answer;
use tql_result::reply::Reply;
use tql_run::session::Session;
use tql_value::refusal::Refusal;

/// The number of rows in an answer, or its refusal.
type Said = Result<u64, Refusal>;

const SCRIPT: &[u8] = b"abc;no;'a;b'; -- ;\nde";

static SAID: [Said; 4] = [
    Ok(3),
    Err(Refusal::NotAStatement),
    Ok(5),
    Err(Refusal::UnfinishedStatement),
];

/// Parts of a script, and the answer after each.
static PARTS: [(&[u8], Option<Said>); 5] = [
    (b"ab", None),
    (b"c", None),
    (b";n", Some(Ok(3))),
    (b"o", None),
    (b";", Some(Err(Refusal::NotAStatement))),
];

fn said(answer: &Answer) -> Said {
    match answer {
        Answer::Replied(Reply::Done(_, count)) => Ok(count.unwrap_or(0)),
        Answer::Replied(Reply::Refused(refusal)) => Err(*refusal),
        _ => Ok(0),
    }
}

fn next(session: &mut Session, responder: &mut Lengths) -> Option<Said> {
    let answer = session.next_answer(responder);
    answer.as_ref().map(said)
}

/// Whether the next answers are the expected ones after the first `taken`, which counts them.
fn are_next(session: &mut Session, responder: &mut Lengths, taken: &mut usize) -> bool {
    let mut are_right = true;
    for _ in 0..5 {
        if let Some(said) = next(session, responder) {
            are_right = are_right && SAID.get(*taken) == Some(&said);
            *taken = taken.saturating_add(1);
        }
    }
    are_right
}

/// Whether a script that comes in these parts has the expected answers.
fn are_answered(memory: Memory, parts: [&[u8]; 3]) -> Result<bool, AllocError> {
    let mut responder = Lengths { memory };
    let mut session = Session::new(memory)?;
    let mut taken = 0;
    let mut are_right = true;
    for part in parts {
        session.feed(part);
        are_right = are_next(&mut session, &mut responder, &mut taken) && are_right;
    }
    session.finish();
    are_right = are_next(&mut session, &mut responder, &mut taken) && are_right;
    Ok(are_right && taken == SAID.len())
}

#[test]
fn parts_are_answered_as_the_whole(rt: HostRuntime) -> Result<(), Fail> {
    let all = memory(rt.alloc(), u64::MAX)?;
    let mut are_right = true;
    for cut in 0..SCRIPT.len() {
        let (first, rest) = SCRIPT.split_at(cut);
        let (second, third) = rest.split_at(rest.len() / 2);
        are_right = are_answered(all, [first, second, third])? && are_right;
    }
    assert!(rt; are_right);
    Ok(())
}

#[test]
fn no_statement_is_answered_before_its_end(rt: HostRuntime) -> Result<(), Fail> {
    let all = memory(rt.alloc(), u64::MAX)?;
    let mut responder = Lengths { memory: all };
    let mut session = Session::new(all)?;
    let mut are_right = true;
    for &(part, want) in &PARTS {
        session.feed(part);
        let found = next(&mut session, &mut responder);
        are_right = are_right && found == want && next(&mut session, &mut responder).is_none();
    }
    assert!(rt; are_right);
    Ok(())
}
