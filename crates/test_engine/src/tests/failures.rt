//! Devices that fail at each of their calls, over scripts of each kind. The output is a prefix of the expected replies,
//! the fault is the right one, and a second run continues after the statements that ran.
use crate::tests::Engine;
use crate::tests::devices::{Outcome, run_on};
use crate::tests::scripts::{
    Cut, SCRIPTS, Script, bytes_from, cut_at, cut_with_rest, replies_in, text_from,
};
use std::alloc::{AllocError, Global};
use std::test::Fail;
use test_devices::{SOUND, Setting};
use tql_memory::memory;
use tql_run::runner::{Fault, Summary};

/// More calls of a device than a run of these scripts makes.
const MOST_CALLS: u64 = 5000;

/// The failure after a number of calls: reads fail or report the end of the input, or writes or flushes fail.
#[derive(Clone, Copy, PartialEq, Eq)]
enum Failing {
    Nothing,
    Reads,
    End,
    Writes,
    Flushes,
}

/// Reads of three bytes, and of ninety.
const BY_THREE: Setting = Setting { size: 3, ..SOUND };

const BY_NINETY: Setting = Setting { size: 90, ..SOUND };

/// Reads of ninety bytes, and writes of none, of one, of seven.
const TAKING_NONE: Setting = Setting {
    taken: 0,
    ..BY_NINETY
};

const TAKING_ONE: Setting = Setting {
    taken: 1,
    ..BY_NINETY
};

const TAKING_SEVEN: Setting = Setting {
    taken: 7,
    ..BY_NINETY
};

/// The devices, and the failures of the source and of the sink.
static DEVICES: [(Setting, Failing, Failing); 13] = [
    (SOUND, Failing::Nothing, Failing::Nothing),
    (TAKING_NONE, Failing::Nothing, Failing::Nothing),
    (SOUND, Failing::Reads, Failing::Nothing),
    (BY_THREE, Failing::Reads, Failing::Nothing),
    (TAKING_NONE, Failing::Reads, Failing::Nothing),
    (SOUND, Failing::Nothing, Failing::Writes),
    (TAKING_ONE, Failing::Nothing, Failing::Writes),
    (SOUND, Failing::Nothing, Failing::Flushes),
    (BY_THREE, Failing::Nothing, Failing::Flushes),
    (TAKING_SEVEN, Failing::Reads, Failing::Writes),
    (BY_NINETY, Failing::Reads, Failing::Flushes),
    (TAKING_SEVEN, Failing::End, Failing::Writes),
    (BY_NINETY, Failing::End, Failing::Flushes),
];

/// Returns devices with a failure after `calls` calls.
fn with_failure(setting: &Setting, failing: Failing, calls: u64) -> Setting {
    match failing {
        Failing::Nothing => *setting,
        Failing::Reads => Setting {
            reads: calls,
            ..*setting
        },
        Failing::End => Setting {
            giving: calls,
            ..*setting
        },
        Failing::Writes => Setting {
            writes: calls,
            ..*setting
        },
        Failing::Flushes => Setting {
            flushes: calls,
            ..*setting
        },
    }
}

/// Returns how many of `length` bytes this number of reads returns.
fn coming(setting: &Setting, reads: u64, length: usize) -> usize {
    let given = reads.saturating_mul(setting.size as u64);
    given.min(length as u64) as usize
}

/// Whether a read fails before one reports the end of the input.
fn source_fails(setting: &Setting, length: usize) -> bool {
    match setting.reads.checked_sub(1) {
        Some(before) => {
            setting.reads <= setting.giving && coming(setting, before, length) < length
        }
        None => true,
    }
}

/// The result of a run of a script.
#[derive(Clone, Copy)]
struct Trial {
    /// Whether all of it is as expected.
    is_right: bool,
    /// Whether the source failed or ended early, and whether the sink failed.
    source_failed: bool,
    sink_failed: bool,
}

/// Returns the counts of a run that wrote a text completely.
fn counted(text: &[u8], cut: &Cut) -> Summary {
    let mut refused = 0u64;
    for line in str::from_utf8(text).unwrap_or("").lines() {
        if line.starts_with("REFUSED ") {
            refused = refused.saturating_add(1);
        }
    }
    let statements = (cut.count as u64).saturating_add(u64::from(!cut.rest.is_empty()));
    Summary {
        statements,
        refused,
    }
}

/// Whether a run ended correctly, by the bytes of its script that came and by whether a read then failed.
fn ends_well(found: &Outcome, cut: &Cut, fails: bool) -> bool {
    let faults = (found.source_faults, found.sink_faults);
    let failed = found.failed_writes.saturating_add(found.failed_flushes);
    let begins = cut.text.starts_with(&found.text);
    let is_whole = begins && found.text.len() == cut.text.len();
    match found.end {
        Ok(summary) => {
            !fails
                && failed == 0
                && faults == (0, 0)
                && is_whole
                && summary == counted(&found.text, cut)
        }
        Err(Fault::Read) => fails && failed == 0 && faults == (1, 0) && is_whole,
        Err(Fault::Write) => failed == 1 && faults == (0, 1) && begins,
        Err(Fault::Memory) => false,
    }
}

/// Returns the number of statements of a script that ran. If a write failed, its statement ran too.
fn ran(script: Script, found: &Outcome, cut: &Cut) -> usize {
    let written = replies_in(script, found.text.len());
    let run = if found.failed_writes > 0 {
        written.saturating_add(1)
    } else {
        written
    };
    run.min(cut.count)
}

/// Whether an engine continues after a run as if nothing had failed: it answers the statements that did not run.
fn goes_on(
    rt: &impl AllocGlobal,
    engine: &mut Engine,
    script: Script,
    ran: usize,
) -> Result<bool, Fail> {
    let rest = bytes_from(rt.alloc(), script, ran)?;
    let text = text_from(rt.alloc(), script, ran)?;
    let found = run_on(rt, engine, &rest, &SOUND);
    Ok(found.end.is_ok() && found.text == text)
}

/// Runs the bytes of a script on an engine, and then the statements that did not run. A read fails or not.
fn tried_on(
    rt: &impl AllocGlobal,
    engine: &mut Engine,
    script: Script,
    setting: &Setting,
    bytes: &[u8],
    cut: &Cut,
    fails: bool,
) -> Result<Trial, Fail> {
    let found = run_on(rt, engine, bytes, setting);
    let goes_on = goes_on(rt, engine, script, ran(script, &found, cut))?;
    Ok(Trial {
        is_right: ends_well(&found, cut, fails) && goes_on,
        source_failed: found.source_faults > 0,
        sink_failed: found.sink_faults > 0,
    })
}

/// Returns the expected replies to the bytes of a script that come. The last text has a reply unless a read fails.
fn expected(alloc: Global, script: Script, came: usize, fails: bool) -> Result<Cut, AllocError> {
    if fails {
        cut_at(alloc, script, came)
    } else {
        cut_with_rest(alloc, script, came)
    }
}

/// Runs a script on a new engine, and then the statements that did not run.
fn tried(rt: &impl AllocGlobal, script: Script, setting: &Setting) -> Result<Trial, Fail> {
    let memory = memory(rt.alloc(), setting.granted)?;
    let bytes = bytes_from(rt.alloc(), script, 0)?;
    let came = coming(setting, setting.reads.min(setting.giving), bytes.len());
    let fails = source_fails(setting, bytes.len());
    let cut = expected(rt.alloc(), script, came, fails)?;
    let mut engine = Engine::new(memory);
    let mut trial = tried_on(rt, &mut engine, script, setting, &bytes, &cut, fails)?;
    trial.source_failed = trial.source_failed || came < bytes.len();
    Ok(trial)
}

/// Runs a script with its sink failing at its first call, then at its second, and so on, until it does not meet the
/// failure. Returns that run, or the first wrong one.
fn at_each_sink_call(
    rt: &impl AllocGlobal,
    script: Script,
    setting: &Setting,
    failing: Failing,
) -> Result<Option<Trial>, Fail> {
    for calls in 0..MOST_CALLS {
        let trial = tried(rt, script, &with_failure(setting, failing, calls))?;
        if !trial.is_right || !trial.sink_failed || failing == Failing::Nothing {
            return Ok(Some(trial));
        }
    }
    Ok(None)
}

/// Whether a script runs correctly with its source failing at its first call, then at its second, and so on, until it
/// does not meet the failure; each combined with its sink failing at each of its calls.
fn at_each_call(
    rt: &impl AllocGlobal,
    script: Script,
    setting: &Setting,
    source: Failing,
    sink: Failing,
) -> Result<bool, Fail> {
    for calls in 0..MOST_CALLS {
        let devices = with_failure(setting, source, calls);
        match at_each_sink_call(rt, script, &devices, sink)? {
            Some(trial) if !trial.is_right => return Ok(false),
            Some(trial) if !trial.source_failed || source == Failing::Nothing => return Ok(true),
            Some(_) => {}
            None => return Ok(false),
        }
    }
    Ok(false)
}

/// Runs a script on all devices. Returns the number of the first devices on which a run is wrong, if any.
fn by_all_devices(rt: &impl AllocGlobal, script: Script) -> Result<Option<usize>, Fail> {
    for (number, (setting, source, sink)) in DEVICES.iter().enumerate() {
        if !at_each_call(rt, script, setting, *source, *sink)? {
            return Ok(Some(number));
        }
    }
    Ok(None)
}

#[test]
fn a_device_fails_at_any_call(rt: HostRuntime) -> Result<(), Fail> {
    for (number, &script) in SCRIPTS.iter().enumerate() {
        let wrong = by_all_devices(&rt, script)?;
        assert!(rt; wrong.is_none(), "script {number}: devices {wrong:?}");
    }
    Ok(())
}
