//! Runs of scripts over devices in memory that can fail.
use crate::tests::Engine;
use std::test::Fail;
use test_devices::Setting;
use tql_engine::runner::run;
use tql_memory::memory;
use tql_result::sink::Sink;
use tql_result::std_sink::StdSink;
use tql_run::device::Input;
use tql_run::runner::{Fault, Summary};
use tql_run::silence::Silence;
use tql_run::std_source::StdSource;

/// The end of a run, its output, and its failures.
#[derive(Drop)]
pub struct Outcome {
    pub end: Result<Summary, Fault>,
    pub text: Vec<u8>,
    /// The number of failures that the source counted, and that the sink counted.
    pub source_faults: u64,
    pub sink_faults: u64,
    /// The number of writes and of flushes in which the writer failed.
    pub failed_writes: u64,
    pub failed_flushes: u64,
}

/// Runs a script on an engine.
pub fn run_on(
    rt: &impl AllocGlobal,
    engine: &mut Engine,
    script: &[u8],
    setting: &Setting,
) -> Outcome {
    let mut source = StdSource::new(setting.reader(script));
    let mut sink = StdSink::new(setting.writer(rt.alloc()));
    let end = run(engine, &mut source, &mut sink, &mut Silence);
    let source_faults = source.faults();
    let sink_faults = sink.faults();
    let writer = sink.into_writer();
    Outcome {
        end,
        source_faults,
        sink_faults,
        failed_writes: writer.failed_writes,
        failed_flushes: writer.failed_flushes,
        text: writer.bytes,
    }
}

/// Runs a script on a new engine.
pub fn run_script(
    rt: &impl AllocGlobal,
    script: &[u8],
    setting: &Setting,
) -> Result<Outcome, Fail> {
    let mut engine = Engine::new(memory(rt.alloc(), setting.granted)?);
    Ok(run_on(rt, &mut engine, script, setting))
}
