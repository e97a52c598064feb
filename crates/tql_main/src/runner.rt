//! The runners of an input: an engine, an engine that tells more than its replies, and a checker.
ghost use Rattle.std.specs.Prelude.{List};
ghost use Rattle.tql_spec.specs.Answer as run;
ghost use Rattle.tql_spec.specs.Machine.{State};
ghost use Rattle.tql_run.specs.Hearing.{hearing_change};
ghost use Rattle.tql_run.specs.Runs.{source_change, sink_change};
ghost use Rattle.tql_run.specs.RunsIn.{RunsIn, manner};
ghost use Rattle.tql_run.specs.Texts.{style_after, written_after};

use tql_check::check::Checker;
use tql_engine::engine::Engine;
use tql_index::index::IntervalIndex;
use tql_result::sink::Sink;
use tql_run::device::Source;
use tql_run::form::Form;
use tql_run::listener::Listener;
use tql_run::responder::Responder;
use tql_run::runner::{Fault, Summary};
use tql_shell::engine::Engine as ProgramEngine;
use tql_shell::told::Told;

/// Runs an input, with the replies in a form.
pub(crate) trait Runner: Responder {
    /// Returns the engine, if it tells more than its replies.
    fn told_engine(&self) -> Option<&ProgramEngine>;

    /// Runs an input, as `run_in` of `tql_run` does.
    ///
    /// # Errors
    ///
    /// As those of `run_in`.
    fn run_in<I: Source<O>, O: Sink, L: Listener, F: Form>(
        &mut self,
        source: &mut I,
        sink: &mut O,
        listener: &mut L,
        form: &mut F,
        bail: bool,
    ) -> Result<Summary, Fault>
        ensures { (before : List run.Answer) → F.wrote form.old before → (s : State) → Self.stands self.old s
            → RunsIn (manner Self.answering (style_after before F.texts F.reported) bail) s (Self.stands self.new)
            (written_after before (F.wrote form.new))
            (source_change I.left I.failures I.ended source.old source.new)
            (sink_change O.written O.failures O.flushed O.flushes_fail sink.old sink.new)
            (hearing_change L.heard listener.old listener.new) result };
}

impl<X: IntervalIndex> Runner for Engine<X> {
    fn told_engine(&self) -> Option<&ProgramEngine> {
        None
    }

    fn run_in<I: Source<O>, O: Sink, L: Listener, F: Form>(
        &mut self,
        source: &mut I,
        sink: &mut O,
        listener: &mut L,
        form: &mut F,
        bail: bool,
    ) -> Result<Summary, Fault> {
        tql_engine::runner::run_in(self, source, sink, listener, form, bail)
    }
}

impl Runner for Told<'_> {
    fn told_engine(&self) -> Option<&ProgramEngine> {
        Some(self.engine())
    }

    fn run_in<I: Source<O>, O: Sink, L: Listener, F: Form>(
        &mut self,
        source: &mut I,
        sink: &mut O,
        listener: &mut L,
        form: &mut F,
        bail: bool,
    ) -> Result<Summary, Fault> {
        tql_run::runner::run_in(self, source, sink, listener, form, bail)
    }
}

impl Runner for Checker {
    fn told_engine(&self) -> Option<&ProgramEngine> {
        None
    }

    fn run_in<I: Source<O>, O: Sink, L: Listener, F: Form>(
        &mut self,
        source: &mut I,
        sink: &mut O,
        listener: &mut L,
        form: &mut F,
        bail: bool,
    ) -> Result<Summary, Fault> {
        tql_run::runner::run_in(self, source, sink, listener, form, bail)
    }
}
