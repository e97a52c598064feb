//! A whole run of a script on an engine.
ghost use Rattle.std.specs.Prelude.{ℕ, List, false, ⊤};
ghost use Rattle.tql_spec.specs.Answer as run;
ghost use Rattle.tql_spec.specs.Machine.{State};
ghost use Rattle.tql_spec.specs.Reached.{IsInOrder};
ghost use Rattle.tql_run.specs.Hearing.{hearing_change};
ghost use Rattle.tql_run.specs.Runs.{Runs, source_change, sink_change};
ghost use Rattle.tql_run.specs.RunsIn.{RunsIn, manner};
ghost use Rattle.tql_run.specs.Texts.{plain_style, style_after, written_after};
ghost use Rattle.tql_engine.specs.Bytes.{RunsBytes};
ghost use Rattle.tql_run.specs.Ending.{Responds};
ghost use Rattle.tql_engine_step.specs.HoldPoints.{HoldsFor};
ghost use Rattle.tql_engine.specs.Kept.{HadKept, KeepsSession};
ghost use Rattle.tql_engine.specs.PointRuns.{BytesAgreeAtPoints};
ghost use Rattle.tql_engine.specs.ReaderRuns.{BytesReadStably};
ghost use Rattle.tql_engine.specs.Agreeing.{RunsAgreeing};
ghost use Rattle.tql_engine_state.specs.Stands.{StandsFor};
ghost use Rattle.tql_engine.specs.Unseen.{BytesPruneUnseen};

use crate::engine::Engine;
use crate::readers::readers_agree;
use std::mem;
use tql_index::index::IntervalIndex;
use tql_memory::Memory;
use tql_result::sink::Sink;
use tql_result::vec_sink::VecSink;
use tql_run::device::Source;
use tql_run::form::{Form, PlainForm};
use tql_run::listener::Listener;
use tql_run::responder::Responder;
use tql_run::runner::{Fault, MOST_PULLS, Summary};
use tql_run::silence::Silence;
use tql_run::slice_source::SliceSource;
use tql_spec::pruned_history;

/// The length in bytes from which a script in memory is refused with `Read`, as `run` refuses a source of that length.
const TOO_MANY_BYTES: usize = MOST_PULLS as usize;

/// Runs the statements of a script in order, writes each reply to the sink in a form, and reports it to the listener
/// after the push. Each statement runs as soon as it is complete: the source is pulled only if no complete statement is
/// left and the sink has flushed all earlier replies. The form may have written the answers of earlier scripts; its
/// texts then follow those.
///
/// A refused statement does not stop the run, unless `bail` is set: then the run ends after the first refusal, without
/// an error, runs no later statement and pulls nothing more. A script is never held in memory as a whole.
///
/// # Errors
///
/// `Read` if the source fails: the statements that were complete before have run. `Write` if the sink fails: no
/// statement runs after the one whose reply it did not take. `Memory` only if an allocation at the start of the run is
/// refused; a statement that finds no memory is refused.
///
/// # Further guarantees
///
/// Clause `agrees`: at each point of time, the run does what a reference model without periods does. This requires that
/// its statements, and those of earlier runs on the engine, are in scope. A READ has the reply that its query would
/// have had when the reader was opened, whatever was written since, unless it is refused for the horizon, the reader or
/// memory. Pruning is not visible: without the statements that pruned, or were refused for the horizon, all others have
/// the same replies. Clause `holds`: if keys and references hold at every point of time in each copy of the reference
/// model, they still do after the run. Clause `kept`: if the texts that the sink was given to keep are a journal of the
/// engine's state before the run, they are one of its state after the run, whatever the result is.
///
/// The text of a statement is given to the sink before any byte of its reply is pushed. A test shows this, and no
/// clause.
pub fn run_in<I: IntervalIndex, S: Source<O>, O: Sink, L: Listener, F: Form>(
    engine: &mut Engine<I>,
    source: &mut S,
    sink: &mut O,
    listener: &mut L,
    form: &mut F,
    bail: bool,
) -> Result<Summary, Fault>
    ensures ran { (before : List run.Answer) → F.wrote form.old before → (s : State) → StandsFor engine.old s
        → RunsIn (manner Responds (style_after before F.texts F.reported) bail) s (StandsFor engine.new)
        (written_after before (F.wrote form.new))
        (source_change S.left S.failures S.ended source.old source.new)
        (sink_change O.written O.failures O.flushed O.flushes_fail sink.old sink.new)
        (hearing_change L.heard listener.old listener.new) result }
    ensures agrees { (before : List run.Answer) → F.wrote form.old before → (s : State) → StandsFor engine.old s
        → RunsAgreeing (style_after before F.texts F.reported) bail s (StandsFor engine.new)
        (written_after before (F.wrote form.new))
        (source_change S.left S.failures S.ended source.old source.new)
        (sink_change O.written O.failures O.flushed O.flushes_fail sink.old sink.new)
        (hearing_change L.heard listener.old listener.new) result }
    ensures holds { (before : List run.Answer) → F.wrote form.old before → (s : State) → HoldsFor engine.old s
        → RunsIn (manner Responds (style_after before F.texts F.reported) bail) s (HoldsFor engine.new)
        (written_after before (F.wrote form.new))
        (source_change S.left S.failures S.ended source.old source.new)
        (sink_change O.written O.failures O.flushed O.flushes_fail sink.old sink.new)
        (hearing_change L.heard listener.old listener.new) result }
    ensures kept { (s : State) (earlier : List (List ℕ)) → StandsFor engine.old s
        → HadKept earlier s (O.kept sink.old) → KeepsSession earlier s (StandsFor engine.new) (O.kept sink.new) }
{
    pruned_history();
    readers_agree();
    tql_run::runner::run_in(engine, source, sink, listener, form, bail)
}

/// Runs the statements of a script as `run_in` does, in the plain form. A refused statement does not stop the run.
pub fn run<I: IntervalIndex, S: Source<O>, O: Sink, L: Listener>(
    engine: &mut Engine<I>,
    source: &mut S,
    sink: &mut O,
    listener: &mut L,
) -> Result<Summary, Fault>
    ensures ran { (s : State) → StandsFor engine.old s → Runs Responds s (StandsFor engine.new)
        (source_change S.left S.failures S.ended source.old source.new)
        (sink_change O.written O.failures O.flushed O.flushes_fail sink.old sink.new)
        (hearing_change L.heard listener.old listener.new) result }
    ensures agrees { (s : State) → StandsFor engine.old s
        → RunsAgreeing plain_style false s (StandsFor engine.new) (λ _. ⊤)
        (source_change S.left S.failures S.ended source.old source.new)
        (sink_change O.written O.failures O.flushed O.flushes_fail sink.old sink.new)
        (hearing_change L.heard listener.old listener.new) result }
    ensures holds { (s : State) → HoldsFor engine.old s → Runs Responds s (HoldsFor engine.new)
        (source_change S.left S.failures S.ended source.old source.new)
        (sink_change O.written O.failures O.flushed O.flushes_fail sink.old sink.new)
        (hearing_change L.heard listener.old listener.new) result }
    ensures kept { (s : State) (earlier : List (List ℕ)) → StandsFor engine.old s
        → HadKept earlier s (O.kept sink.old) → KeepsSession earlier s (StandsFor engine.new) (O.kept sink.new) }
{
    run_in(engine, source, sink, listener, &mut PlainForm, false)
}

/// Runs a script in memory, and appends its replies to the output. A refused statement does not stop the run.
///
/// # Errors
///
/// `Write` if the output finds no memory for a reply: no statement runs after that one. It is never returned if the
/// output has all replies whole. `Memory` if an allocation at the start of the run is refused: nothing runs. `Read` if,
/// and only if, the script has 2^48 - 1 bytes or more: nothing runs.
///
/// # Further guarantees
///
/// Clause `points`: at each point of time, the run does what a reference model without periods does. This requires that
/// its statements, and those of earlier runs on the engine, are in scope. Clause `unseen`: without the statements that
/// pruned, or were refused for the horizon, all others have the same replies. Clause `readers`: a READ has the reply
/// that its query would have had when the reader was opened, by this run or an earlier one, whatever was written since.
/// A READ that is refused for the horizon, the reader or memory is excepted. Clause `holds`: if keys and references
/// hold at every point of time in each copy of the reference model, they still do after the run.
pub fn run_bytes<I: IntervalIndex>(
    engine: &mut Engine<I>,
    script: &[u8],
    output: &mut Vec<u8, Memory>,
) -> Result<Summary, Fault>
    ensures written { (s : State) → StandsFor engine.old s
        → RunsBytes s (StandsFor engine.new) script.now output.old.items output.new.items result }
    ensures points { (s : State) → StandsFor engine.old s
        → BytesAgreeAtPoints s (StandsFor engine.new) script.now output.old.items output.new.items result }
    ensures unseen { (s : State) → StandsFor engine.old s → IsInOrder s
        → BytesPruneUnseen s (StandsFor engine.new) script.now output.old.items output.new.items result }
    ensures readers { (s : State) → StandsFor engine.old s
        → BytesReadStably s (StandsFor engine.new) script.now output.old.items output.new.items result }
    ensures holds { (s : State) → HoldsFor engine.old s
        → RunsBytes s (HoldsFor engine.new) script.now output.old.items output.new.items result }
{
    pruned_history();
    readers_agree();
    if script.len() >= TOO_MANY_BYTES {
        return Err(Fault::Read);
    }
    let mut source = SliceSource::new(script);
    let mut sink = VecSink::new(mem::replace(output, Vec::new(engine.memory())));
    let end = run(engine, &mut source, &mut sink, &mut Silence);
    *output = sink.into_bytes();
    end
}
