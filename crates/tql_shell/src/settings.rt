//! What the options and the commands of a prompt set, which the parts of a run share, and where replies go.
ghost use Rattle.std.specs.Io.{WritesAtMost};

use std::cell::Cell;
use std::env;
use std::fs::File;
use std::io::{self, Write};
use tql_prompt::values::{USUAL_WIDTH, width};

/// What is set. Whatever takes part in a run shares it.
#[derive(Drop)]
pub struct Settings {
    /// Whether each statement is to be written before its reply.
    pub echo: Cell<bool>,
    /// Whether each statement of the present input is written, in a format that allows it.
    pub is_echoed: Cell<bool>,
    /// Whether comments that begin with `--!` are written.
    pub titles: Cell<bool>,
    /// Whether the access paths of each query are written.
    pub plans: Cell<bool>,
    /// Whether a prompt writes how long the statements before it took.
    pub timer: Cell<bool>,
    /// The width of the terminal, in columns.
    pub width: Cell<usize>,
    /// Whether statements come from a prompt now.
    pub is_prompted: Cell<bool>,
    /// The file to which replies go. Without it they go to the standard output.
    pub output: Cell<Option<File>>,
    /// The lines about the place of the last fault, if statements come from a prompt.
    pub place: Cell<Option<Vec<u8>>>,
}

/// Returns the width of the terminal that the environment variable COLUMNS gives, or else the usual one.
fn width_given(rt: &HostRuntime) -> usize {
    match env::var(rt, "COLUMNS") {
        Ok(word) => width(word.as_str()).unwrap_or(USUAL_WIDTH),
        Err(_) => USUAL_WIDTH,
    }
}

impl Settings {
    /// Returns what is set at the start of a run.
    pub fn new(rt: &HostRuntime, plans: bool, echo: bool, titles: bool) -> Settings {
        Settings {
            echo: Cell::new(echo),
            is_echoed: Cell::new(false),
            titles: Cell::new(titles),
            plans: Cell::new(plans),
            timer: Cell::new(false),
            width: Cell::new(width_given(rt)),
            is_prompted: Cell::new(false),
            output: Cell::new(None),
            place: Cell::new(None),
        }
    }

    /// Whether replies go to a file.
    pub fn has_output(&self) -> bool {
        let output = self.output.take();
        let is_given = output.is_some();
        self.output.set(output);
        is_given
    }
}

/// Writes bytes from the front to a file, or to the standard output without one, and returns their number.
fn write_to(rt: &HostRuntime, output: &mut Option<File>, bytes: &[u8]) -> io::Result<usize>
    ensures { WritesAtMost result bytes.now }
{
    match output {
        Some(file) => file.write(bytes),
        None => io::writer(rt).write(bytes),
    }
}

/// Passes on what a file has buffered, or the standard output without one.
fn flush_to(rt: &HostRuntime, output: &mut Option<File>) -> io::Result<()> {
    match output {
        Some(file) => file.flush(),
        None => io::writer(rt).flush(),
    }
}

/// The writer of replies: to the file that `.output` names, and else to the standard output.
#[derive(Clone, Copy)]
pub struct Replies<'a> {
    rt: &'a HostRuntime,
    settings: &'a Settings,
}

impl<'a> Replies<'a> {
    /// Returns the writer of the replies of a run.
    pub fn new(rt: &'a HostRuntime, settings: &'a Settings) -> Replies<'a> {
        Replies { rt, settings }
    }
}

impl Write for Replies<'_> {
    fn write(&mut self, buf: &[u8]) -> io::Result<usize> {
        let mut output = self.settings.output.take();
        let outcome = write_to(self.rt, &mut output, buf);
        self.settings.output.set(output);
        outcome
    }

    fn flush(&mut self) -> io::Result<()> {
        let mut output = self.settings.output.take();
        let outcome = flush_to(self.rt, &mut output);
        self.settings.output.set(output);
        outcome
    }
}
