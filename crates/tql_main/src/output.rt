//! The form of the replies of a run, over all inputs.
use crate::runner::Runner;
use tql_memory::Memory;
use tql_options::options::Format;
use tql_result::sink::Sink;
use tql_run::device::Source;
use tql_run::form::PlainForm;
use tql_run::listener::Listener;
use tql_run::runner::{Fault, Summary};
use tql_run_forms::accepted_form::AcceptedForm;
use tql_run_forms::box_form::BoxForm;
use tql_run_forms::csv_form::CsvForm;
use tql_run_forms::json_form::JsonForm;
use tql_run_forms::jsonl_form::JsonlForm;
use tql_terminal::form::TerminalForm;

/// The form of the replies. Its state is carried over from one input to the next.
#[derive(Clone, Copy)]
pub(crate) enum Output {
    Plain(PlainForm),
    Accepted(AcceptedForm),
    Boxed(BoxForm),
    Terminal(TerminalForm),
    Csv(CsvForm),
    Json(JsonForm),
    Jsonl(JsonlForm),
}

impl Output {
    /// Returns the form of boxes at a terminal of this width, which are laid out in this memory. A table that is wider
    /// is written as records.
    pub(crate) fn at_terminal(memory: Memory, width: usize) -> Output {
        Output::Terminal(TerminalForm::new(memory, width))
    }

    /// Returns the form of a format, before the first reply. Boxes are laid out in this memory. If the standard error
    /// shows refusals at the same terminal, plain tables leave them out.
    pub(crate) fn new(format: Format, memory: Memory, is_shown: bool) -> Output {
        match format {
            Format::Table if is_shown => Output::Accepted(AcceptedForm),
            Format::Table => Output::Plain(PlainForm),
            Format::Boxed => Output::Boxed(BoxForm::new(memory)),
            Format::Csv => Output::Csv(CsvForm::new()),
            Format::Json => Output::Json(JsonForm::new()),
            Format::Jsonl => Output::Jsonl(JsonlForm),
        }
    }

    /// Runs an input in the form.
    pub(crate) fn run<R: Runner, I: Source<O>, O: Sink, L: Listener>(
        &mut self,
        runner: &mut R,
        source: &mut I,
        sink: &mut O,
        listener: &mut L,
        bail: bool,
    ) -> Result<Summary, Fault> {
        match self {
            Output::Plain(form) => runner.run_in(source, sink, listener, form, bail),
            Output::Accepted(form) => runner.run_in(source, sink, listener, form, bail),
            Output::Boxed(form) => runner.run_in(source, sink, listener, form, bail),
            Output::Terminal(form) => runner.run_in(source, sink, listener, form, bail),
            Output::Csv(form) => runner.run_in(source, sink, listener, form, bail),
            Output::Json(form) => runner.run_in(source, sink, listener, form, bail),
            Output::Jsonl(form) => runner.run_in(source, sink, listener, form, bail),
        }
    }
}
