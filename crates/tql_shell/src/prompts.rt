//! Prompts at a terminal before each read of a script, and the commands that may be typed there besides statements.
use crate::progress::Progress;
use std::io::{self, Read};
use std::str;
use std::time::Instant;
use tql_prompt::command::{Verb, command_in};
use tql_prompt::typed::{NOTHING_TYPED, Typed};

/// The text that `.help` writes.
static HELP: &str =
    "tql: each statement ends with `;`, and may take several lines. Commands stand alone on a line:
     .tables            the names of the tables
     .schema [TABLE]    the CREATE TABLE of each table
     .read FILE         runs a file of statements
     .format FORMAT     writes replies as table, box, csv, json or jsonl
     .output [FILE]     writes replies to a file; without FILE to the terminal again
     .width N           the width of the terminal, 20 to 10000: a wider table is shown as records
     .timer on|off      how long the statements of a line took
     .echo on|off       each statement before its reply, in the formats table and box
     .plans on|off      the access paths of each query
     .help              this text; so does help
     .quit              leaves; so do quit, exit and Ctrl-D. Ctrl-C ends the program at once
     The language is described in LANGUAGE.md: in docs/ of the sources, or in share/doc/tql/ where tql is installed.
     `tql --help` describes the command line.";

/// Returns how many lines end in these bytes.
fn line_ends(bytes: &[u8]) -> u64 {
    let mut count = 0u64;
    for byte in bytes {
        if *byte == b'\n' {
            count = count.saturating_add(1);
        }
    }
    count
}

/// A reader at a terminal. Before each read it writes a prompt to the standard error, for a statement or for more of
/// one, and at the end of the input a line feed. Commands may be typed where nothing has begun. `.help` is answered on
/// the standard error, and `.quit` ends the input; while a transaction is open, the first of these says so and ends
/// nothing. Another command ends this part of the input, and the progress keeps it: whoever reads obeys it, and reads
/// the next part by a new reader.
#[derive(Drop)]
pub struct Prompted<'a, R> {
    rt: &'a HostRuntime,
    reader: R,
    typed: Typed,
    progress: &'a Progress<'a>,
    /// Whether the last command was `.quit` and was not obeyed.
    is_warned: bool,
    /// When the last line was read.
    started: Option<Instant>,
    /// How many lines of this part of the script were read.
    lines: u64,
    /// How many statements were answered before the last line.
    statements: u64,
}

impl<'a, R: Read + Drop> Prompted<'a, R> {
    /// Returns a reader from which nothing was read yet.
    pub fn new(rt: &'a HostRuntime, reader: R, progress: &'a Progress<'a>) -> Prompted<'a, R> {
        Prompted {
            rt,
            reader,
            typed: NOTHING_TYPED,
            progress,
            is_warned: false,
            started: None,
            lines: 0,
            statements: 0,
        }
    }

    /// Writes how long the last line took, if that is wanted.
    fn tell_time(&mut self) {
        let Some(started) = self.started.take() else {
            return;
        };
        let is_answered = self.progress.statements() != self.statements;
        if !self.progress.settings.timer.get() || !is_answered {
            return;
        }
        if let Ok(time) = started.elapsed(self.rt) {
            let (seconds, millis) = (time.as_secs(), time.subsec_millis());
            let _ = eprintln!(self.rt; "time: {seconds}.{millis:03} s");
        }
    }

    /// Writes the prompt.
    fn prompt(&mut self) {
        self.tell_time();
        let prompt = self.typed.prompt();
        let _ = eprint!(self.rt; "{prompt}");
    }

    /// Returns what the command asks for that was read, if nothing had begun before.
    fn verb_in(&self, bytes: &[u8]) -> Option<Verb> {
        if !self.typed.is_empty() {
            return None;
        }
        let line = str::from_utf8(bytes).ok()?;
        let command = command_in(line)?;
        Some(command.verb)
    }

    /// Whether `.quit` ends the input. With a transaction open it says so the first time, and the next one ends it.
    fn quits(&mut self) -> bool {
        if self.is_warned || self.progress.uncommitted().is_none() {
            return true;
        }
        self.is_warned = true;
        let _ = eprintln!(self.rt;
            "tql: a transaction is open: COMMIT keeps its changes; quit once more to leave without them"
        );
        false
    }

    /// Records the bytes that were read of the script, and ends the last line at the end of the input.
    fn keep(&mut self, bytes: &[u8]) {
        if bytes.is_empty() {
            let _ = eprintln!(self.rt; "");
        }
        self.typed = self.typed.after_all(bytes);
        self.lines = self.lines.saturating_add(line_ends(bytes));
        self.is_warned = false;
        self.statements = self.progress.statements();
        self.started = Instant::now(self.rt).ok();
    }

    /// Keeps the line of a command, which ends this part of the input. Returns whether there was memory for it.
    fn keep_line(&mut self, bytes: &[u8]) -> bool {
        self.is_warned = false;
        let mut line = Vec::new(self.rt.alloc());
        let is_kept = line.extend_from_slice(bytes).is_ok();
        if is_kept {
            self.progress.end_part(self.lines, line);
        } else {
            let _ = eprintln!(self.rt; "tql: out of memory");
        }
        is_kept
    }

    /// Obeys a command that the reader itself obeys. Returns whether the input ends here.
    fn ends_at(&mut self, verb: Verb, bytes: &[u8]) -> bool {
        match verb {
            Verb::Quit => self.quits(),
            Verb::Help => {
                let _ = eprintln!(self.rt; "{HELP}");
                false
            }
            _ => self.keep_line(bytes),
        }
    }
}

impl<R: Read + Drop> Read for Prompted<'_, R> {
    fn read(&mut self, buf: &mut [u8]) -> io::Result<usize> {
        for _ in 0..u64::MAX {
            self.prompt();
            let count = self.reader.read(buf)?;
            let bytes = buf.get(..count).unwrap_or(b"");
            match self.verb_in(bytes) {
                None => {
                    self.keep(bytes);
                    return Ok(count);
                }
                Some(verb) => {
                    if self.ends_at(verb, bytes) {
                        return Ok(0);
                    }
                }
            }
        }
        Ok(0)
    }
}
