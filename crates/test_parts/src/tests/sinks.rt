//! tql_result: the part of a reply that a failing sink has written, and the failures that it counts.
use std::alloc::Global;
use std::test::Fail;
use test_devices::Kept;
use tql_memory::{Memory, memory};
use tql_result::device::DeviceFault;
use tql_result::print::{is_printable_reply, write_reply};
use tql_result::reply::{Reply, Verb};
use tql_result::sink::Sink;
use tql_result::std_sink::StdSink;
use tql_value::refusal::Refusal;
use tql_value::value::{ResultTable, Value, View};

/// Whether a reply is cut correctly by a writer that accepts one byte at a time and fails after `taken` bytes: the
/// prefix of its text is written, and there is one failure unless the text has no more bytes.
fn is_cut(alloc: Global, reply: &Reply, text: &[u8], taken: usize) -> bool {
    if !is_printable_reply(reply) {
        return false;
    }
    let mut sink = StdSink::new(Kept {
        bytes: Vec::new(alloc),
        size: 1,
        writes_left: taken as u64,
        flushes_left: u64::MAX,
        failed_writes: 0,
        failed_flushes: 0,
    });
    let is_whole = taken == text.len();
    let pushed = write_reply(&mut sink, reply).is_ok();
    let is_counted = sink.faults() == u64::from(!is_whole);
    let (front, _) = text.split_at(taken.min(text.len()));
    pushed == is_whole && is_counted && sink.into_writer().bytes.as_slice() == front
}

/// Whether a reply is cut correctly at each of its bytes, and is complete after the last.
fn is_cut_anywhere(alloc: Global, reply: &Reply, text: &str) -> bool {
    (0..=text.len()).all(|taken| is_cut(alloc, reply, text.as_bytes(), taken))
}

/// Returns a row of a value of each kind but one.
fn row(memory: Memory) -> Result<Vec<Value, Memory>, Fail> {
    let mut row = Vec::new(memory);
    for view in [
        View::Null,
        View::Text("it's"),
        View::Day(-719_162),
        View::Moment(1),
    ] {
        row.push(view.to_value(memory)?)?;
    }
    Ok(row)
}

fn headings(memory: Memory) -> Result<Vec<String<Memory>, Memory>, Fail> {
    let mut headings = Vec::new(memory);
    for name in ["A", "b"] {
        headings.push(String::from_str(memory, name)?)?;
    }
    Ok(headings)
}

/// Returns a table of one row.
fn sample(memory: Memory) -> Result<Reply, Fail> {
    let headings = headings(memory)?;
    let rows = vec![in memory; row(memory)?]?;
    Ok(Reply::Table(ResultTable { headings, rows }))
}

const SAMPLE: &str = "A|\"b\"\nNULL|'it''s'|0001-01-01|1970-01-01 00:00:00.000001\n(1 rows)\n";

const DELETED: &str = "DELETE 18446744073709551615\n";

const REFUSED: &str = "REFUSED E35 duplicate key\n";

#[test]
fn a_reply_is_cut_at_any_byte(rt: HostRuntime) -> Result<(), Fail> {
    let deleted = Reply::Done(Verb::Deleted, Some(u64::MAX));
    let refused = Reply::Refused(Refusal::DuplicateKey);
    let sample = sample(memory(rt.alloc(), u64::MAX)?)?;
    for (reply, text) in [(&deleted, DELETED), (&refused, REFUSED), (&sample, SAMPLE)] {
        assert!(rt; is_cut_anywhere(rt.alloc(), reply, text), "{text}");
    }
    Ok(())
}

#[test]
fn pushes_that_take_nothing_are_counted(rt: HostRuntime) {
    let mut room = [0u8; 3];
    let mut sink = StdSink::new(&mut room[..]);
    let pushed = write_reply(&mut sink, &Reply::Done(Verb::Committed, None));
    let found = (pushed, sink.faults(), sink.flush());
    let _ = sink;
    assert!(rt; found == (Err(DeviceFault), 1, Ok(())) && room == *b"COM");
}

#[test]
fn flushes_that_fail_are_counted(rt: HostRuntime) {
    let mut sink = StdSink::new(Kept {
        bytes: Vec::new(rt.alloc()),
        size: 1,
        writes_left: 0,
        flushes_left: 0,
        failed_writes: 0,
        failed_flushes: 0,
    });
    let found = (sink.flush(), sink.faults());
    assert!(rt; found == (Err(DeviceFault), 1));
}
