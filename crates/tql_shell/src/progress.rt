//! The progress of a run.
use crate::settings::Settings;
use crate::shown::Shown;
use std::cell::Cell;
use std::fmt;
use tql_options::options::Input;
use tql_result::reply::Verb;

/// The name of the standard input.
pub static STANDARD_INPUT: &str = "the standard input";

/// The name of a text of the command line.
static TEXT: &str = "-c";

/// The name of an input in a line on the standard error, if it is shown.
#[derive(Clone, Copy)]
pub struct Label<'a>(Option<&'a str>);

impl<'a> Label<'a> {
    /// Returns the label of a file that a command reads.
    pub fn of_file(path: &'a str) -> Label<'a> {
        Label(Some(path))
    }
}

impl fmt::Display for Label<'_> {
    fn fmt<W: fmt::Write>(&self, f: &mut fmt::Formatter<W>) -> fmt::Result {
        match self.0 {
            Some(name) => {
                let name = Shown(name);
                write!(f, "{name}: ")
            }
            None => Ok(()),
        }
    }
}

/// Returns the name of an input.
pub fn name_of(input: Input<'_>) -> &str {
    match input {
        Input::Standard => STANDARD_INPUT,
        Input::File(path) => path,
        Input::Text(_) => TEXT,
    }
}

/// Where a transaction was opened: the index of the input, and the line in it.
#[derive(Clone, Copy)]
struct Opening {
    place: usize,
    line: u64,
}

/// The line about a transaction that is open when the program ends.
#[derive(Clone, Copy)]
pub struct Uncommitted<'a> {
    name: &'a str,
    line: u64,
}

impl fmt::Display for Uncommitted<'_> {
    fn fmt<W: fmt::Write>(&self, f: &mut fmt::Formatter<W>) -> fmt::Result {
        let name = Shown(self.name);
        let line = self.line;
        write!(
            f,
            "the transaction opened on line {line} of {name} was not committed; its changes are lost"
        )
    }
}

/// The progress of a run: the number of statements so far, the input that is read, and the open transaction. Whatever
/// writes to the standard error shares it.
#[derive(Drop)]
pub struct Progress<'a> {
    inputs: &'a [Input<'a>],
    /// The index of the input that is read.
    place: Cell<usize>,
    statements: Cell<u64>,
    /// How many lines of the present input were read before the present part of it: a prompt parts it at each command.
    lines: Cell<u64>,
    /// The line of the command that ended the present part at a prompt, until somebody takes it.
    command: Cell<Option<Vec<u8>>>,
    /// Where the open transaction was opened, if one is open.
    opened: Cell<Option<Opening>>,
    /// What is set for the run.
    pub settings: Settings,
}

impl<'a> Progress<'a> {
    /// Returns the progress of a run over these inputs that has read nothing.
    pub fn new(inputs: &'a [Input<'a>], settings: Settings) -> Progress<'a> {
        Progress {
            inputs,
            place: Cell::new(0),
            statements: Cell::new(0),
            lines: Cell::new(0),
            command: Cell::new(None),
            opened: Cell::new(None),
            settings,
        }
    }

    /// Begins the input at an index.
    pub fn begin(&self, place: usize) {
        self.place.set(place);
        self.lines.set(0);
    }

    /// Ends a part of the present input, of this many lines, at the line of a command.
    pub fn end_part(&self, lines: u64, command: Vec<u8>) {
        self.lines.set(self.lines.get().saturating_add(lines));
        self.command.set(Some(command));
    }

    /// Takes the line of the command that ended the last part, if one did.
    pub fn take_command(&self) -> Option<Vec<u8>> {
        self.command.take()
    }

    /// Returns the number of statements so far, over all inputs.
    pub fn statements(&self) -> u64 {
        self.statements.get()
    }

    /// Sets the number of statements so far.
    pub fn set_statements(&self, count: u64) {
        self.statements.set(count);
    }

    /// Records what a statement on a line of the present part of the input has done to the transaction.
    pub fn note(&self, verb: Verb, line: u64) {
        match verb {
            Verb::Started => {
                let place = self.place.get();
                let line = self.lines.get().saturating_add(line);
                self.opened.set(Some(Opening { place, line }));
            }
            Verb::Committed | Verb::RolledBack => self.opened.set(None),
            _ => {}
        }
    }

    /// Returns what is lost if the program ends now: the open transaction, if there is one.
    pub fn uncommitted(&self) -> Option<Uncommitted<'a>> {
        let opening = self.opened.get()?;
        let input = self.inputs.get(opening.place)?;
        Some(Uncommitted {
            name: name_of(*input),
            line: opening.line,
        })
    }

    /// Returns the label of the input in a line: its name if there are several inputs, and otherwise nothing.
    pub fn label(&self) -> Label<'a> {
        match self.inputs.get(self.place.get()) {
            Some(input) if self.inputs.len() > 1 => Label(Some(name_of(*input))),
            _ => Label(None),
        }
    }
}
