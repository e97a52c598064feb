//! Lines on the standard error about the answers of a run.
ghost use Rattle.std.specs.Prelude.{None};

use crate::progress::{Label, Progress};
use std::{fmt, str};
use tql_detail::detail::Detail;
use tql_options::options::Format;
use tql_result::answer::Answer;
use tql_result::reply::{Reply, Verb};
use tql_run::complaint::Complaint;
use tql_run::listener::Listener;
use tql_run::pushed::Pushed;
use tql_value::refusal::Refusal;

/// Which lines a run writes to the standard error.
#[derive(Clone, Copy)]
pub struct Style {
    /// The format of the replies.
    pub format: Format,
    /// Whether no line is written about statements that are done or refused.
    pub quiet: bool,
}

impl Style {
    /// Whether the words of statements that are done, which the replies leave out, are written.
    fn says_done(self) -> bool {
        !self.quiet && (self.format == Format::Csv || self.format == Format::Jsonl)
    }
}

/// A refusal, to be written as one line without its place: the refusal, and the words and the hint of its detail.
#[derive(Drop)]
struct Shortly<'a> {
    refusal: Refusal,
    detail: Option<&'a Detail>,
}

impl fmt::Display for Shortly<'_> {
    fn fmt<W: fmt::Write>(&self, f: &mut fmt::Formatter<W>) -> fmt::Result {
        let text = self.refusal.text();
        match self.detail {
            Some(detail) => write!(f, "{text}: {detail}"),
            None => write!(f, "{text}"),
        }
    }
}

/// Writes a line to the standard error for each refused statement and, in formats for tables alone, for each other
/// statement that has no table. For a refused statement from a prompt, it writes the line of the fault with a caret
/// below the place, and then why. A line that cannot be written is lost. It also counts the statements, including
/// statements that no responder answers, such as one that is too long.
#[derive(Drop)]
pub struct Complaints<'a, E: Eprint> {
    rt: &'a E,
    style: Style,
    progress: &'a Progress<'a>,
    label: Label<'a>,
    /// How many statements the earlier inputs had.
    before: u64,
}

impl<'a, E: Eprint> Complaints<'a, E> {
    /// Returns a listener to the input that begins now.
    pub fn new(
        rt: &'a E,
        style: Style,
        progress: &'a Progress<'a>,
        label: Label<'a>,
    ) -> Complaints<'a, E> {
        Complaints {
            rt,
            style,
            progress,
            label,
            before: progress.statements(),
        }
    }

    /// Whether no line is written for a refusal. For plain tables it is written even if the reply could not be pushed.
    fn is_silent(&self, pushed: &Pushed) -> bool {
        self.style.quiet || (self.style.format != Format::Table && pushed.outcome().is_err())
    }

    /// Writes why a statement from a prompt is refused, after the lines about the place.
    fn point(&self, refusal: Refusal, detail: Option<&Detail>) {
        if let Some(lines) = self.progress.settings.place.take() {
            let lines = str::from_utf8(lines.as_slice()).unwrap_or("");
            let _ = eprintln!(self.rt; "{lines}");
        }
        let refused = Shortly { refusal, detail };
        let _ = eprintln!(self.rt; "{refused}");
    }

    /// Writes the line of a refused statement.
    fn complain(&self, complaint: &Complaint<'_>) {
        let label = self.label;
        let _ = eprintln!(self.rt; "tql: {label}{complaint}");
    }

    /// Writes the words of a statement that is done.
    fn say_done(&self, verb: Verb, count: Option<u64>) {
        let words = verb.text();
        let _ = match count {
            None => eprintln!(self.rt; "{words}"),
            Some(n) => eprintln!(self.rt; "{words} {n}"),
        };
    }
}

impl<E: Eprint> Listener for Complaints<'_, E> {
    ghost heard = { λ _. None };

    fn wants_details(&self) -> bool {
        !self.style.quiet
    }

    fn waits(&self) -> bool {
        !self.style.quiet
    }

    fn refused(
        &mut self,
        statement: u64,
        line: u64,
        refusal: Refusal,
        detail: Option<&Detail>,
        pushed: &Pushed,
    ) {
        let statement = self.before.saturating_add(statement);
        self.progress.set_statements(statement);
        if self.is_silent(pushed) {
            return;
        }
        if self.progress.settings.is_prompted.get() {
            return self.point(refusal, detail);
        }
        self.complain(&Complaint {
            statement,
            line,
            refusal,
            detail,
        });
    }

    fn answered(&mut self, line: u64, answer: &Answer, pushed: &Pushed) {
        if let Answer::Replied(Reply::Done(verb, _)) = answer {
            self.progress.note(*verb, line);
        }
        if !self.style.says_done() || pushed.outcome().is_err() {
            return;
        }
        match answer {
            Answer::Replied(Reply::Done(verb, count)) => self.say_done(*verb, *count),
            Answer::Accepted => {
                let _ = eprintln!(self.rt; "OK");
            }
            Answer::Replied(_) => {}
        }
    }
}
