//! The diagnostics of the refused statements of a script, as the program writes them to the standard error.
ghost use Rattle.std.specs.Prelude.{None};

use crate::compare::is_expected;
use crate::runs::{Answering, Engine, Granted, answer};
use std::alloc::{AllocError, Global};
use tql_detail::detail::Detail;
use tql_engine::runner::run;
use tql_memory::{Memory, memory};
use tql_result::answer::Answer;
use tql_result::vec_sink::VecSink;
use tql_run::complaint::Complaint;
use tql_run::listener::Listener;
use tql_run::pushed::Pushed;
use tql_run::slice_source::SliceSource;
use tql_value::refusal::Refusal;

/// The size of a piece in bytes, in runs with failed allocations.
const PIECE: usize = 7;

/// More allocations than the diagnostics of one statement make, and more than any script that is run for each
/// allocation makes.
const MOST_TOLD: u64 = 64;

const MOST_GROWTHS: u64 = 20_000;

/// A listener that writes a line for each refused statement. A line for which there is no memory is left out.
#[derive(Drop)]
struct Lines {
    text: String,
}

impl Lines {
    /// Writes a line.
    fn put(&mut self, complaint: &Complaint<'_>) -> Result<(), AllocError> {
        let line = format!(in *self.text.allocator(); "{complaint}\n")?;
        self.text.push_str(line.as_str())
    }
}

impl Listener for Lines {
    ghost heard = { λ _. None };

    fn wants_details(&self) -> bool {
        true
    }

    fn waits(&self) -> bool {
        false
    }

    fn refused(
        &mut self,
        statement: u64,
        line: u64,
        refusal: Refusal,
        detail: Option<&Detail>,
        _pushed: &Pushed,
    ) {
        let complaint = Complaint {
            statement,
            line,
            refusal,
            detail,
        };
        let _ = self.put(&complaint);
    }

    fn answered(&mut self, _line: u64, _answer: &Answer, _pushed: &Pushed) {}
}

/// The diagnostics of a run, its output, and the number of allocations that were granted and not made.
#[derive(Drop)]
struct Telling {
    lines: String,
    text: Vec<u8, Memory>,
    left: u64,
}

/// Runs a script on a new engine, in pieces of `size` bytes and with `granted` allocations, and collects diagnostics.
fn run_told(
    alloc: Global,
    script: &[u8],
    size: usize,
    granted: u64,
) -> Result<Telling, AllocError> {
    let all = memory(alloc, u64::MAX)?;
    let memory = memory(alloc, granted)?;
    let mut source = SliceSource::in_pieces(script, size);
    let mut sink = VecSink::new(Vec::new(all));
    let mut lines = Lines {
        text: String::new(alloc),
    };
    let mut engine = Engine::new(memory);
    let _ = run(&mut engine, &mut source, &mut sink, &mut lines);
    Ok(Telling {
        lines: lines.text,
        text: sink.into_bytes(),
        left: memory.left(),
    })
}

/// Whether the diagnostics of a script, in pieces of `size` bytes, are the expected ones. If not, writes where they
/// differ.
fn is_told(
    alloc: Global,
    script: &[u8],
    size: usize,
    listed: &[u8],
    fault: &mut String,
) -> Result<bool, AllocError> {
    let told = run_told(alloc, script, size, u64::MAX)?;
    is_expected(fault, listed, told.lines.as_bytes())
}

/// Does the same for the whole script, and for pieces of a byte.
pub fn are_told(
    alloc: Global,
    script: &[u8],
    listed: &[u8],
    fault: &mut String,
) -> Result<bool, AllocError> {
    Ok(
        is_told(alloc, script, usize::MAX, listed, fault)?
            && is_told(alloc, script, 1, listed, fault)?,
    )
}

/// Whether a script with `granted` allocations has the same replies with diagnostics as without, and leaves the same
/// number of allocations.
fn is_answered_alike(alloc: Global, script: &[u8], granted: u64) -> Result<bool, AllocError> {
    let told = run_told(alloc, script, PIECE, granted)?;
    let silent = answer(
        alloc,
        Answering::Run,
        script,
        PIECE,
        Granted::First(granted),
    )?;
    Ok(told.left == silent.left && told.text.as_slice() == silent.text.as_slice())
}

/// Returns the number of allocations that a script makes with diagnostics.
fn told_growths(alloc: Global, script: &[u8]) -> Result<u64, AllocError> {
    let told = run_told(alloc, script, PIECE, u64::MAX)?;
    Ok(u64::MAX - told.left)
}

/// Whether a script has the same replies with diagnostics as without, with each allocation made to fail, in order,
/// including those for the diagnostics. If not, writes where they differ.
pub fn are_answered_alike(
    alloc: Global,
    script: &[u8],
    fault: &mut String,
) -> Result<bool, AllocError> {
    let most = told_growths(alloc, script)?;
    for granted in 0..most.saturating_add(MOST_TOLD).min(MOST_GROWTHS) {
        if !is_answered_alike(alloc, script, granted)? {
            write!(
                fault,
                "is told otherwise where {granted} growths are granted"
            )?;
            return Ok(false);
        }
    }
    Ok(true)
}
