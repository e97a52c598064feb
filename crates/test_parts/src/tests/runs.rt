//! tql_run: whole runs, over devices that fail and memory that runs out.
use crate::tests::devices::Lengths;
use std::test::Fail;
use test_devices::{SOUND, Setting};
use tql_memory::memory;
use tql_result::std_sink::StdSink;
use tql_run::form::PlainForm;
use tql_run::runner::{Fault, Summary, run, run_in};
use tql_run::silence::Silence;
use tql_run::std_source::StdSource;

/// The end of a run: its numbers of statements and of refusals, or its fault.
type End = Result<(u64, u64), Fault>;

/// The end of a run, and its output.
#[derive(Drop)]
struct Outcome {
    end: End,
    text: Vec<u8>,
}

fn counts(summary: Summary) -> (u64, u64) {
    (summary.statements, summary.refused)
}

/// Runs a script, or only up to its first refusal.
fn run_script(
    rt: &impl AllocGlobal,
    script: &[u8],
    setting: &Setting,
    stops: bool,
) -> Result<Outcome, Fail> {
    let mut lengths = Lengths {
        memory: memory(rt.alloc(), setting.granted)?,
    };
    let mut source = StdSource::new(setting.reader(script));
    let mut sink = StdSink::new(setting.writer(rt.alloc()));
    let end = if stops {
        let form = &mut PlainForm;
        run_in(
            &mut lengths,
            &mut source,
            &mut sink,
            &mut Silence,
            form,
            true,
        )
    } else {
        run(&mut lengths, &mut source, &mut sink, &mut Silence)
    };
    Ok(Outcome {
        end: end.map(counts),
        text: sink.into_writer().bytes,
    })
}

const SCRIPT: &[u8] = b"abc;no;defgh;rest";

const FIRST: &str = "INSERT 3\n";

const TWO: &str = "INSERT 3\nREFUSED E10 not a statement\n";

const THREE: &str = "INSERT 3\nREFUSED E10 not a statement\nINSERT 5\n";

const WHOLE: &str =
    "INSERT 3\nREFUSED E10 not a statement\nINSERT 5\nREFUSED E12 unfinished statement\n";

/// The reply to a text for which there was no memory.
const LOST: &str = "REFUSED E01 out of memory\n";

/// The reply to a text that no `;` ends.
const UNFINISHED: &str = "REFUSED E12 unfinished statement\n";

/// Reads of one byte, and of three.
const BY_ONE: Setting = Setting { size: 1, ..SOUND };

const BY_THREE: Setting = Setting { size: 3, ..SOUND };

/// Reads of four bytes.
const BY_FOUR: Setting = Setting { size: 4, ..SOUND };

/// Flushes that all fail, including the first, which is before anything is read.
const UNFLUSHED: Setting = Setting {
    flushes: 0,
    ..SOUND
};

const CUT: &str = "INSERT 1\nREFUSED E12 unfinished statement\n";

const NOT_UTF8: &str = "INSERT 1\nREFUSED E11 not UTF-8\n";

/// A script, its devices, the end of its run, and its output.
type Case<'a> = (&'a [u8], Setting, End, &'a str);

static CASES: [Case<'static>; 33] = [
    // a read fails: the statements that were complete before it are answered
    (
        SCRIPT,
        Setting {
            reads: 0,
            ..BY_FOUR
        },
        Err(Fault::Read),
        "",
    ),
    (
        SCRIPT,
        Setting {
            reads: 1,
            ..BY_FOUR
        },
        Err(Fault::Read),
        FIRST,
    ),
    (
        SCRIPT,
        Setting {
            reads: 2,
            ..BY_FOUR
        },
        Err(Fault::Read),
        TWO,
    ),
    (
        SCRIPT,
        Setting {
            reads: 3,
            ..BY_FOUR
        },
        Err(Fault::Read),
        TWO,
    ),
    (
        SCRIPT,
        Setting {
            reads: 4,
            ..BY_FOUR
        },
        Err(Fault::Read),
        THREE,
    ),
    (
        SCRIPT,
        Setting {
            reads: 5,
            ..BY_FOUR
        },
        Err(Fault::Read),
        THREE,
    ),
    (SCRIPT, BY_FOUR, Ok((4, 2)), WHOLE),
    (SCRIPT, SOUND, Ok((4, 2)), WHOLE),
    // a flush fails: before the first read, after the statements that were complete in it, and at the end
    (SCRIPT, UNFLUSHED, Err(Fault::Write), ""),
    (b"", UNFLUSHED, Err(Fault::Write), ""),
    (
        SCRIPT,
        Setting {
            flushes: 1,
            ..SOUND
        },
        Err(Fault::Write),
        THREE,
    ),
    (
        SCRIPT,
        Setting {
            flushes: 1,
            ..BY_FOUR
        },
        Err(Fault::Write),
        FIRST,
    ),
    (
        SCRIPT,
        Setting {
            flushes: 2,
            ..SOUND
        },
        Err(Fault::Write),
        WHOLE,
    ),
    // no memory for one of the three buffers; a text that fits into them needs no more
    (
        SCRIPT,
        Setting {
            granted: 0,
            ..SOUND
        },
        Err(Fault::Memory),
        "",
    ),
    (
        SCRIPT,
        Setting {
            granted: 1,
            ..SOUND
        },
        Err(Fault::Memory),
        "",
    ),
    (
        SCRIPT,
        Setting {
            granted: 2,
            ..SOUND
        },
        Err(Fault::Memory),
        "",
    ),
    (
        SCRIPT,
        Setting {
            granted: 3,
            ..SOUND
        },
        Ok((4, 2)),
        WHOLE,
    ),
    (
        SCRIPT,
        Setting {
            granted: 3,
            ..BY_ONE
        },
        Ok((4, 2)),
        WHOLE,
    ),
    // a text that no semicolon ends, read in parts of each size
    (b"a;b", BY_ONE, Ok((2, 1)), CUT),
    (b"a;b", BY_THREE, Ok((2, 1)), CUT),
    (b"a;b", SOUND, Ok((2, 1)), CUT),
    (b"a;'b;", BY_ONE, Ok((2, 1)), CUT),
    (b"a;'b;", BY_THREE, Ok((2, 1)), CUT),
    (b"a;'b;", SOUND, Ok((2, 1)), CUT),
    (b"a;\xff", BY_ONE, Ok((2, 1)), NOT_UTF8),
    (b"a;\xff", BY_THREE, Ok((2, 1)), NOT_UTF8),
    (b"a;\xff", SOUND, Ok((2, 1)), NOT_UTF8),
    (b"a; -- \xff", BY_ONE, Ok((1, 0)), "INSERT 1\n"),
    (b"a; -- \xff", BY_THREE, Ok((1, 0)), "INSERT 1\n"),
    (b"a; -- \xff", SOUND, Ok((1, 0)), "INSERT 1\n"),
    (b"", BY_ONE, Ok((0, 0)), ""),
    (b"", BY_THREE, Ok((0, 0)), ""),
    (b"", SOUND, Ok((0, 0)), ""),
];

/// Returns the number of cases before the first that ends or writes otherwise.
fn right_cases(rt: &impl AllocGlobal, cases: &[Case<'_>], stops: bool) -> Result<usize, Fail> {
    for (number, (script, setting, end, text)) in cases.iter().enumerate() {
        let outcome = run_script(rt, script, setting, stops)?;
        if outcome.end != *end || outcome.text.as_slice() != text.as_bytes() {
            return Ok(number);
        }
    }
    Ok(cases.len())
}

#[test]
fn runs_end_and_write(rt: HostRuntime) -> Result<(), Fail> {
    let right = right_cases(&rt, &CASES, false)?;
    assert!(rt; right == CASES.len(), "case {right}");
    Ok(())
}

/// Runs that end at the first refusal.
static BAILS: [Case<'static>; 8] = [
    (SCRIPT, SOUND, Ok((2, 1)), TWO),
    (SCRIPT, BY_ONE, Ok((2, 1)), TWO),
    // nothing is read after the refusal: the next read would fail
    (
        SCRIPT,
        Setting {
            reads: 2,
            ..BY_FOUR
        },
        Ok((2, 1)),
        TWO,
    ),
    (
        SCRIPT,
        Setting {
            reads: 1,
            ..BY_FOUR
        },
        Err(Fault::Read),
        FIRST,
    ),
    // the flush after the refusal fails
    (
        SCRIPT,
        Setting {
            flushes: 1,
            ..SOUND
        },
        Err(Fault::Write),
        TWO,
    ),
    // the last statement is refused; no statement is refused
    (b"a;'b;", SOUND, Ok((2, 1)), CUT),
    (b"a;", SOUND, Ok((1, 0)), "INSERT 1\n"),
    (b"", SOUND, Ok((0, 0)), ""),
];

#[test]
fn a_refusal_stops_a_run(rt: HostRuntime) -> Result<(), Fail> {
    let right = right_cases(&rt, &BAILS, true)?;
    assert!(rt; right == BAILS.len(), "case {right}");
    Ok(())
}

/// Tests that a text that exceeds the initial buffer is refused if the buffer cannot grow.
#[test]
fn long_texts_grow(rt: HostRuntime) -> Result<(), Fail> {
    let script = vec![in rt.alloc(); b'a'; 70_000]?;
    let small = Setting {
        granted: 3,
        ..SOUND
    };
    let ample = Setting {
        granted: 4,
        ..SOUND
    };
    let cases = [
        (script.as_slice(), small, Ok((1, 1)), LOST),
        (script.as_slice(), ample, Ok((1, 1)), UNFINISHED),
    ];
    let right = right_cases(&rt, &cases, false)?;
    assert!(rt; right == 2);
    Ok(())
}

/// Runs a script whose writes fail after the first `writes`. Returns whether the run ends with that fault and has
/// written a prefix of the replies of at least `shortest` bytes; and the length of that prefix.
fn cut(rt: &impl AllocGlobal, writes: u64, shortest: usize) -> Result<(bool, usize), Fail> {
    let Outcome { end, text } = run_script(rt, SCRIPT, &Setting { writes, ..SOUND }, false)?;
    let is_whole = text.len() == WHOLE.len();
    let is_right = end.is_ok() == is_whole && (is_whole || end == Err(Fault::Write));
    let is_beginning = WHOLE.as_bytes().starts_with(&text) && shortest <= text.len();
    Ok((is_right && is_beginning, text.len()))
}

#[test]
fn writes_a_beginning_where_a_write_fails(rt: HostRuntime) -> Result<(), Fail> {
    let mut are_right = true;
    let mut last = 0;
    for writes in 0..200 {
        let (is_right, length) = cut(&rt, writes, last)?;
        are_right = are_right && is_right && (0 < writes || length == 0);
        last = length;
    }
    assert!(rt; are_right && last == WHOLE.len());
    Ok(())
}
