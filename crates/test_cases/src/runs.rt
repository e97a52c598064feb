//! Runs and checks of a script over bytes in memory.
use std::alloc::{AllocError, Global};
use tql_check::check::check_script;
use tql_engine::engine;
use tql_engine::runner::{run, run_bytes};
use tql_index::index::IntervalIndex;
use tql_list_index::list_index::ListIndex;
use tql_memory::{Memory, memory};
use tql_result::vec_sink::VecSink;
use tql_run::runner::{Fault, Summary};
use tql_run::silence::Silence;
use tql_run::slice_source::SliceSource;
use tql_tree_index::tree_index::TreeIndex;

/// The engine that the program uses.
pub type Engine = engine::Engine<TreeIndex>;

/// Which allocations of a run are granted.
#[derive(Clone, Copy, PartialEq, Eq, Debug)]
pub enum Granted {
    All,
    /// The first n, and no later one.
    First(u64),
    /// All but the one after the first n.
    AllBut(u64),
}

impl Granted {
    /// Returns memory that grants these allocations.
    pub fn memory(self, alloc: Global) -> Result<Memory, AllocError> {
        match self {
            Granted::All => memory(alloc, u64::MAX),
            Granted::First(granted) => memory(alloc, granted),
            Granted::AllBut(before) => {
                let memory = memory(alloc, before)?;
                memory.refuse_one_behind(before);
                Ok(memory)
            }
        }
    }
}

/// The end of a run, its output, and the number of allocations left before one fails.
#[derive(Drop)]
pub struct Outcome {
    pub end: Result<Summary, Fault>,
    pub text: Vec<u8, Memory>,
    pub left: u64,
}

impl Outcome {
    /// Returns the number of refusals in the output.
    fn refusals(&self) -> u64 {
        let mut refusals = 0u64;
        for line in str::from_utf8(&self.text).unwrap_or("").lines() {
            if line.starts_with("REFUSED ") {
                refusals = refusals.saturating_add(1);
            }
        }
        refusals
    }

    /// Whether the run came to its end, and counted the refusals in its output correctly.
    pub fn ended_well(&self) -> bool {
        match self.end {
            Ok(summary) => summary.refused == self.refusals(),
            Err(_) => false,
        }
    }
}

/// Whether a script is run on a new engine, or its statements are only checked.
#[derive(Clone, Copy, PartialEq, Eq, Debug)]
pub enum Answering {
    Run,
    Check,
}

/// Runs a whole script on a new engine over an index of periods, with these allocations granted.
fn run_whole<I: IntervalIndex>(
    alloc: Global,
    script: &[u8],
    granted: Granted,
) -> Result<Outcome, AllocError> {
    let all = memory(alloc, u64::MAX)?;
    let memory = granted.memory(alloc)?;
    let mut text = Vec::new(all);
    let mut engine: engine::Engine<I> = engine::Engine::new(memory);
    let end = run_bytes(&mut engine, script, &mut text);
    let left = memory.left();
    Ok(Outcome { end, text, left })
}

/// Runs a script on a new engine, in pieces of `size` bytes, with these allocations granted.
fn run_pieces(
    alloc: Global,
    script: &[u8],
    size: usize,
    granted: Granted,
) -> Result<Outcome, AllocError> {
    let all = memory(alloc, u64::MAX)?;
    let memory = granted.memory(alloc)?;
    let mut source = SliceSource::in_pieces(script, size);
    let mut sink = VecSink::new(Vec::new(all));
    let mut engine = Engine::new(memory);
    let end = run(&mut engine, &mut source, &mut sink, &mut Silence);
    Ok(Outcome {
        end,
        text: sink.into_bytes(),
        left: memory.left(),
    })
}

/// Runs a whole script on a new engine that keeps its periods in lists.
pub fn run_over_lists(alloc: Global, script: &[u8]) -> Result<Outcome, AllocError> {
    run_whole::<ListIndex>(alloc, script, Granted::All)
}

/// Checks the statements of a script, in pieces of `size` bytes, with these allocations granted.
pub fn check_only(
    alloc: Global,
    script: &[u8],
    size: usize,
    granted: Granted,
) -> Result<Outcome, AllocError> {
    let all = memory(alloc, u64::MAX)?;
    let memory = granted.memory(alloc)?;
    let mut source = SliceSource::in_pieces(script, size);
    let mut sink = VecSink::new(Vec::new(all));
    let end = check_script(memory, &mut source, &mut sink, &mut Silence);
    Ok(Outcome {
        end,
        text: sink.into_bytes(),
        left: memory.left(),
    })
}

/// Runs or checks a script in pieces of `size` bytes; `usize::MAX` means the whole script at once.
pub fn answer(
    alloc: Global,
    answering: Answering,
    script: &[u8],
    size: usize,
    granted: Granted,
) -> Result<Outcome, AllocError> {
    match answering {
        Answering::Run if size == usize::MAX => run_whole::<TreeIndex>(alloc, script, granted),
        Answering::Run => run_pieces(alloc, script, size, granted),
        Answering::Check => check_only(alloc, script, size, granted),
    }
}
