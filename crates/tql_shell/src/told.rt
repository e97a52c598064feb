//! An engine that tells more than its replies.
use crate::engine::Engine;
use crate::progress::Progress;
use crate::settings::Replies;
use std::io::Write;
use std::str;
use tql_detail::detail::Detail;
use tql_detail::place::Place;
use tql_memory::Memory;
use tql_prompt::caret::caret_lines;
use tql_result::answer::Answer;
use tql_run::responder::Responder;
use tql_value::refusal::Refusal;

/// An engine that, as the settings say, writes the text of each statement before it answers, and a line to the standard
/// error for each query: the access path of each table reference, also for the query of an INSERT. For statements from
/// a prompt it makes the lines about the place of a fault. What cannot be written is lost, and so is that for which
/// there is no memory. It counts the statements that it answers.
#[derive(Drop)]
pub struct Told<'a> {
    rt: &'a HostRuntime,
    engine: Engine,
    progress: &'a Progress<'a>,
}

impl<'a> Told<'a> {
    /// Returns an engine that writes to these devices, in a run of this progress.
    pub fn new(rt: &'a HostRuntime, engine: Engine, progress: &'a Progress<'a>) -> Told<'a> {
        Told {
            rt,
            engine,
            progress,
        }
    }

    /// Returns the engine.
    pub fn engine(&self) -> &Engine {
        &self.engine
    }

    /// Writes the access paths of a query.
    fn tell_plans(&self, number: u64, text: &[u8]) {
        if let Some(words) = self.engine.plan_told(text) {
            let label = self.progress.label();
            let _ = eprintln!(self.rt; "tql: {label}statement {number}: {words}");
        }
    }

    /// Writes the text of a statement.
    fn echo(&self, text: &[u8]) {
        let mut replies = Replies::new(self.rt, &self.progress.settings);
        let _ = replies.write_all(text);
        let _ = replies.write_all(b";\n");
    }

    /// Keeps the lines about the place of a fault in the text of a statement. A place in the blanks at its end becomes
    /// the end of its last word.
    fn keep_place(&self, text: &[u8], place: Place) {
        let settings = &self.progress.settings;
        let text = str::from_utf8(text).unwrap_or("").trim_ascii_end();
        let end = Place::behind(text.as_bytes());
        let is_past = place.line > end.line
            || (place.line == end.line && place.column > end.column);
        let place = if is_past { end } else { place };
        let width = settings.width.get();
        if let Ok(lines) = caret_lines(self.rt.alloc(), text, place.line, place.column, width) {
            settings.place.set(Some(lines.into_bytes()));
        }
    }
}

impl Responder for Told<'_> {
    ghost use Rattle.tql_run.specs.Ending.{Responds};
    ghost use Rattle.tql_engine_state.specs.Stands.{StandsFor};
    ghost use Rattle.tql_run.proofs.Faults.{responds_refuse};

    ghost stands = { λ p. StandsFor p.engine };

    ghost answering = { Responds };

    fn memory(&self) -> Memory {
        self.engine.memory()
    }

    fn answer(&mut self, text: &[u8]) -> Answer {
        let number = self.progress.statements().saturating_add(1);
        self.progress.set_statements(number);
        if self.progress.settings.plans.get() {
            self.tell_plans(number, text);
        }
        if self.progress.settings.is_echoed.get() {
            self.echo(text);
        }
        self.engine.answer(text)
    }

    fn detail(&self, text: &[u8], refusal: Refusal) -> Option<Detail> {
        self.progress.settings.place.set(None);
        let detail = self.engine.detail(text, refusal)?;
        if let Some(place) = detail.place {
            if self.progress.settings.is_prompted.get() {
                self.keep_place(text, place);
            }
        }
        Some(detail)
    }

    ghost refuses = { responds_refuse };
}
