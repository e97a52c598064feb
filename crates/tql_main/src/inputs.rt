//! The inputs of a command line, answered in order by one engine.
use crate::journal::{is_journal, open_kept, say_kept, say_unkept};
use crate::output::Output;
use crate::runner::Runner;
use crate::status::exit_status;
use std::alloc::{AllocError, Global};
use std::io::{self, BufWriter, Cursor, ErrorKind, IsTerminal, Read};
use std::{fs, str};
use tql_check::check::Checker;
use tql_journal_file::opening::Kept;
use tql_memory::{Memory, memory_within};
use tql_options::options::{Format, Input, format_named};
use tql_options::sizes::kept_back;
use tql_prompt::command::{Command, Verb, command_in};
use tql_result::std_sink::StdSink;
use tql_run::responder::Responder;
use tql_run::runner::{Fault, Summary};
use tql_run::std_source::StdSource;
use tql_shell::complaints::{Complaints, Style};
use tql_shell::engine::Engine;
use tql_shell::orders::{obey, say_format, say_lacks_file};
use tql_shell::paced::Paced;
use tql_shell::progress::{Label, Progress, STANDARD_INPUT, name_of};
use tql_shell::prompts::Prompted;
use tql_shell::script::Script;
use tql_shell::settings::{Replies, Settings};
use tql_shell::shown::Shown;
use tql_shell::told::Told;

/// The end that is added to a text of the command line, whose last statement needs no `;` and may end in a comment.
static TEXT_END: &str = "\n;";

/// Returns the script of a text of the command line. The only error is a refused allocation.
fn script_of(alloc: Global, text: &str) -> Result<String, AllocError> {
    let mut script = String::from_str(alloc, text)?;
    script.push_str(TEXT_END)?;
    Ok(script)
}

/// The work that a command line asks for.
#[derive(Clone, Copy)]
pub(crate) struct Job<'r, 'i> {
    pub rt: &'r HostRuntime,
    /// Whether statements are checked, and not run.
    pub check: bool,
    /// Whether plans are written to the standard error.
    pub plans: bool,
    /// Whether each statement is written before its reply.
    pub echo: bool,
    /// Whether comments that begin with `--!` are written as titles.
    pub titles: bool,
    /// Whether no line about statements that are done or refused is written to the standard error.
    pub quiet: bool,
    /// The file of the journal, if one is kept.
    pub journal: Option<&'i str>,
    /// Whether the first refused statement ends the run.
    pub bail: bool,
    /// The inputs in their order.
    pub inputs: &'i [Input<'i>],
    /// How many bytes may be in use.
    pub most: usize,
    pub format: Format,
}

impl Job<'_, '_> {
    /// Whether the standard output and the standard error are both terminals.
    fn is_at_terminal(&self) -> bool {
        self.rt.stdout().is_terminal() && self.rt.stderr().is_terminal()
    }

    /// Whether statements may come from a prompt: the standard input and output are terminals.
    fn has_prompt(&self) -> bool {
        self.rt.reader().is_terminal() && self.rt.stdout().is_terminal()
    }

    /// Whether more than replies is told, or commands may be typed.
    fn is_told(&self) -> bool {
        self.plans || self.echo || self.has_prompt()
    }
}

/// Writes to the standard error why the run of an input stopped.
fn complain(rt: &impl Eprint, name: &str, fault: Fault) {
    let name = Shown(name);
    let _ = match fault {
        Fault::Read => eprintln!(rt; "tql: cannot read {name}"),
        Fault::Write => eprintln!(rt; "tql: cannot write the replies to {name}"),
        Fault::Memory => eprintln!(rt; "tql: out of memory"),
    };
}

/// Ends a program that lacked memory before a run.
pub(crate) fn end_lack(rt: &impl Eprint) -> u8 {
    complain(rt, STANDARD_INPUT, Fault::Memory);
    exit_status(&Err(Fault::Memory))
}

/// Reports that a script cannot be opened.
fn opening_fault(rt: &impl Eprint, path: &str, error: &io::Error) -> Fault {
    match error.kind() {
        ErrorKind::OutOfMemory => {
            complain(rt, path, Fault::Memory);
            Fault::Memory
        }
        _ => {
            let path = Shown(path);
            let _ = eprintln!(rt; "tql: cannot read {path}: {error}");
            Fault::Read
        }
    }
}

/// Invites whoever is at a terminal to type statements.
fn invite(rt: &impl Eprint, is_prompted: bool) {
    let _ = if is_prompted {
        eprintln!(rt;
            "tql: a semicolon ends a statement; .help lists commands, .quit or Ctrl-D leaves, Ctrl-C ends the program"
        )
    } else {
        eprintln!(rt;
            "tql: reading a script from the terminal: a semicolon ends each statement, Ctrl-D the script"
        )
    };
}

/// A run of several inputs.
#[derive(Drop)]
struct Run<'a> {
    job: &'a Job<'a, 'a>,
    progress: &'a Progress<'a>,
    format: Format,
    output: Output,
    /// The sink that keeps what is done, if a journal is kept.
    kept: Option<Kept<Replies<'a>>>,
    /// The statements of all inputs so far.
    summary: Summary,
}

impl<'a> Run<'a> {
    /// Whether the run is to end here: `--bail` is set and a statement was refused.
    fn is_done(&self) -> bool {
        self.job.bail && self.summary.refused != 0
    }

    /// Counts the statements of an input.
    fn add(&mut self, summary: Summary) {
        self.summary = Summary {
            statements: self.summary.statements.saturating_add(summary.statements),
            refused: self.summary.refused.saturating_add(summary.refused),
        };
        self.progress.set_statements(self.summary.statements);
    }

    /// Returns the writer of replies.
    fn replies(&self) -> Replies<'a> {
        Replies::new(self.job.rt, &self.progress.settings)
    }

    /// Returns which lines are written to the standard error. At a terminal with JSON, there are none about statements,
    /// because the replies contain everything.
    fn style(&self) -> Style {
        let is_said = self.format == Format::Json && self.job.is_at_terminal();
        Style {
            format: self.format,
            quiet: self.job.quiet || is_said,
        }
    }

    /// Sets the form of the replies, before the first reply. At a terminal, without `--quiet`, plain tables leave out
    /// refusals, because the line on the standard error says more.
    fn set_form(&mut self, memory: Memory) {
        let settings = &self.progress.settings;
        let is_boxed = self.format == Format::Boxed && self.job.rt.stdout().is_terminal();
        self.output = if is_boxed && !settings.has_output() {
            Output::at_terminal(memory, settings.width.get())
        } else {
            let is_shown = !self.job.quiet && self.job.is_at_terminal();
            Output::new(self.format, memory, is_shown)
        };
    }

    /// Answers what a reader gives, and keeps what is done in the journal, if there is one.
    fn answer_source<R: Runner, I: Read + Drop>(
        &mut self,
        responder: &mut R,
        reader: I,
        label: Label<'_>,
    ) -> Result<(), Fault> {
        let rt = self.job.rt;
        let replies = self.replies();
        let mut source = StdSource::new(reader);
        let mut complaints = Complaints::new(rt, self.style(), self.progress, label);
        let bail = self.job.bail;
        if let Some(sink) = &mut self.kept {
            let summary = self
                .output
                .run(responder, &mut source, sink, &mut complaints, bail)?;
            self.add(summary);
            return Ok(());
        }
        let writer = BufWriter::new(rt.alloc(), replies).map_err(|_| Fault::Memory)?;
        let mut sink = StdSink::new(writer);
        let summary = self
            .output
            .run(responder, &mut source, &mut sink, &mut complaints, bail)?;
        self.add(summary);
        Ok(())
    }

    /// Answers a script, and writes statements and titles, if they are wanted: in formats for people.
    fn answer_script<R: Runner>(
        &mut self,
        responder: &mut R,
        script: Script<'a>,
        label: Label<'_>,
    ) -> Result<(), Fault> {
        let settings = &self.progress.settings;
        let titles = settings.titles.get();
        let is_allowed = self.format == Format::Table || self.format == Format::Boxed;
        let is_echoed = is_allowed && settings.echo.get();
        settings.is_echoed.set(is_echoed);
        if is_echoed || (is_allowed && titles) {
            let paced = Paced::new(self.job.rt, script, self.replies(), titles)?;
            self.answer_source(responder, paced, label)
        } else {
            self.answer_source(responder, script, label)
        }
    }

    /// Reports why the run of an input stopped.
    fn complain(&self, name: &str, fault: Fault) {
        match (&self.kept, self.job.journal) {
            (Some(sink), Some(path)) if sink.has_failed() => say_unkept(self.job.rt, path),
            _ => complain(self.job.rt, name, fault),
        }
    }

    /// Answers the file that a command names. A file that cannot be read is reported.
    fn read_file<R: Runner>(&mut self, responder: &mut R, path: &str) -> Result<(), Fault> {
        let rt = self.job.rt;
        if is_journal(rt, self.job.journal, Input::File(path)) {
            return Ok(());
        }
        match fs::open(rt, path) {
            Err(error) => {
                opening_fault(rt, path, &error);
                Ok(())
            }
            Ok(file) => {
                let label = Label::of_file(path);
                match self.answer_script(responder, Script::File(file), label) {
                    Err(Fault::Read) => {
                        self.complain(path, Fault::Read);
                        Ok(())
                    }
                    outcome => outcome,
                }
            }
        }
    }

    /// Sets the format that a word names, or reports the present one.
    fn set_format(&mut self, word: &str) {
        match format_named(word) {
            Some(format) => self.format = format,
            None => say_format(self.job.rt, self.format),
        }
    }

    /// Obeys a command of a prompt.
    fn obey<R: Runner>(&mut self, responder: &mut R, command: Command<'_>) -> Result<(), Fault> {
        match command.verb {
            Verb::Read if command.argument.is_empty() => {
                say_lacks_file(self.job.rt, command.word);
                return Ok(());
            }
            Verb::Read => return self.read_file(responder, command.argument),
            Verb::Format => self.set_format(command.argument),
            _ => obey(
                self.job.rt,
                command,
                &self.progress.settings,
                responder.told_engine(),
            ),
        }
        if matches!(command.verb, Verb::Format | Verb::Output | Verb::Width) {
            self.set_form(responder.memory());
        }
        Ok(())
    }

    /// Obeys the command that a line is.
    fn obey_line<R: Runner>(&mut self, responder: &mut R, line: &[u8]) -> Result<(), Fault> {
        let line = str::from_utf8(line).unwrap_or("");
        match command_in(line) {
            Some(command) => self.obey(responder, command),
            None => Ok(()),
        }
    }

    /// Answers the statements and obeys the commands that are typed at a prompt.
    fn answer_prompt<R: Runner>(&mut self, responder: &mut R) -> Result<(), Fault> {
        let rt = self.job.rt;
        let progress = self.progress;
        let is_told = responder.told_engine().is_some();
        for _ in 0..u64::MAX {
            progress.settings.place.set(None);
            progress.settings.is_prompted.set(is_told);
            let prompted = Prompted::new(rt, rt.stdin(), progress);
            let script = Script::Prompted(prompted);
            let outcome = self.answer_script(responder, script, progress.label());
            progress.settings.is_prompted.set(false);
            outcome?;
            let Some(line) = progress.take_command() else {
                break;
            };
            if self.is_done() {
                break;
            }
            self.obey_line(responder, line.as_slice())?;
        }
        Ok(())
    }

    /// Answers the standard input, with prompts at a terminal.
    fn answer_standard<R: Runner>(&mut self, responder: &mut R) -> Result<(), Fault> {
        let rt = self.job.rt;
        let input = rt.stdin();
        if !input.is_terminal() {
            return self.answer_script(responder, Script::Standard(input), self.progress.label());
        }
        let is_prompted = rt.stdout().is_terminal();
        invite(rt, is_prompted);
        if !self.job.check {
            say_kept(rt, self.job.journal);
        }
        if is_prompted {
            self.answer_prompt(responder)
        } else {
            self.answer_script(responder, Script::Standard(input), self.progress.label())
        }
    }

    /// Answers a text of the command line.
    fn answer_text<R: Runner>(&mut self, responder: &mut R, text: &str) -> Result<(), Fault> {
        let script = script_of(self.job.rt.alloc(), text)?;
        let bytes = Cursor::new(script.into_bytes());
        self.answer_script(responder, Script::Text(bytes), self.progress.label())
    }

    /// Answers an input.
    fn answer_input<R: Runner>(
        &mut self,
        responder: &mut R,
        input: Input<'_>,
    ) -> Result<(), Fault> {
        if is_journal(self.job.rt, self.job.journal, input) {
            return Err(Fault::Read);
        }
        let outcome = match input {
            Input::Standard => self.answer_standard(responder),
            Input::Text(text) => self.answer_text(responder, text),
            Input::File(path) => match fs::open(self.job.rt, path) {
                Ok(file) => {
                    self.answer_script(responder, Script::File(file), self.progress.label())
                }
                Err(error) => return Err(opening_fault(self.job.rt, path, &error)),
            },
        };
        if let Err(fault) = outcome {
            self.complain(name_of(input), fault);
        }
        outcome
    }

    /// Answers the inputs in their order, until one fails or the run is to end.
    fn answer_inputs<R: Runner>(&mut self, responder: &mut R) -> Result<Summary, Fault> {
        for (place, input) in self.job.inputs.iter().enumerate() {
            self.progress.begin(place);
            self.answer_input(responder, *input)?;
            if self.is_done() {
                break;
            }
        }
        Ok(self.summary)
    }
}

/// Answers the inputs of a job by a responder.
fn answer_by<'a, R: Runner>(
    job: &'a Job<'a, 'a>,
    progress: &'a Progress<'a>,
    responder: &mut R,
    kept: Option<Kept<Replies<'a>>>,
) -> Result<Summary, Fault> {
    let memory = responder.memory();
    let mut run = Run {
        job,
        progress,
        format: job.format,
        output: Output::new(job.format, memory, false),
        kept,
        summary: Summary {
            statements: 0,
            refused: 0,
        },
    };
    run.set_form(memory);
    let summary = run.answer_inputs(responder);
    if !job.quiet {
        say_uncommitted(job.rt, progress);
    }
    summary
}

/// Reports that the program ends with a transaction open, if it does.
fn say_uncommitted(rt: &impl Eprint, progress: &Progress<'_>) {
    if let Some(uncommitted) = progress.uncommitted() {
        let _ = eprintln!(rt; "tql: {uncommitted}");
    }
}

/// Runs the inputs of a job, or checks them, in a run of this progress and within a bound of memory.
fn answer_with<'a>(
    job: &'a Job<'a, 'a>,
    progress: &'a Progress<'a>,
    memory: Memory,
) -> Result<Summary, Fault> {
    if job.check {
        return answer_by(job, progress, &mut Checker::new(memory), None);
    }
    let mut engine = Engine::with_reserve(memory, kept_back(job.most));
    let replies = Replies::new(job.rt, &progress.settings);
    let kept = match job.journal {
        Some(path) => Some(open_kept(job.rt, path, &mut engine, replies)?),
        None => None,
    };
    if job.is_told() {
        let mut told = Told::new(job.rt, engine, progress);
        answer_by(job, progress, &mut told, kept)
    } else {
        answer_by(job, progress, &mut engine, kept)
    }
}

/// Runs the inputs of a job, or checks them, within a bound of memory.
fn answer_within<'j>(job: &'j Job<'j, 'j>, memory: Memory) -> Result<Summary, Fault> {
    let settings = Settings::new(job.rt, job.plans, job.echo, job.titles);
    let progress = Progress::new(job.inputs, settings);
    let outcome = answer_with(&*job, &progress, memory);
    drop(progress);
    outcome
}

/// Runs the inputs of a job, or checks them, and returns the exit status.
pub(crate) fn answer_job(job: &Job<'_, '_>) -> u8 {
    match memory_within(job.rt.alloc(), job.most) {
        Ok(memory) => exit_status(&answer_within(job, memory)),
        Err(_) => end_lack(job.rt),
    }
}
