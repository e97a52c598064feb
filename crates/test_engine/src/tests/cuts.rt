//! Scripts that are cut at each byte: complete statements are answered, and then the unfinished text.
use crate::tests::Engine;
use crate::tests::devices::{Outcome, run_script};
use crate::tests::scripts::{SCRIPTS, Script, bytes_from, cut_with_rest};
use std::test::Fail;
use test_devices::{SOUND, Setting};
use tql_engine::runner::run_bytes;
use tql_memory::memory;
use tql_run::runner::{Fault, Summary};

/// Reads of seven bytes.
const BY_SEVEN: Setting = Setting { size: 7, ..SOUND };

/// Whether a run ended, with this output.
fn is_right(end: Result<Summary, Fault>, found: &Outcome, output: &[u8], text: &[u8]) -> bool {
    end.is_ok() && end == found.end && output == text && found.text.as_slice() == text
}

/// Whether the first bytes of a script have the expected replies, in memory and in pieces.
fn is_answered(rt: &impl AllocGlobal, script: Script, front: &[u8]) -> Result<bool, Fail> {
    let all = memory(rt.alloc(), u64::MAX)?;
    let cut = cut_with_rest(rt.alloc(), script, front.len())?;
    let found = run_script(rt, front, &BY_SEVEN)?;
    let mut output = Vec::new(all);
    let end = run_bytes(&mut Engine::new(all), front, &mut output);
    Ok(is_right(end, &found, &output, &cut.text))
}

/// Whether a script, cut at each of its bytes, has the expected replies.
fn is_answered_anywhere(rt: &impl AllocGlobal, script: Script) -> Result<bool, Fail> {
    let bytes = bytes_from(rt.alloc(), script, 0)?;
    for length in 0..=bytes.len() {
        let (front, _) = bytes.split_at(length.min(bytes.len()));
        if !is_answered(rt, script, front)? {
            return Ok(false);
        }
    }
    Ok(true)
}

#[test]
fn a_script_is_cut_at_any_byte(rt: HostRuntime) -> Result<(), Fail> {
    for (number, &script) in SCRIPTS.iter().enumerate() {
        assert!(rt; is_answered_anywhere(&rt, script)?, "script {number}");
    }
    Ok(())
}
