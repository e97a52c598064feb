//! Answers as JSON.
ghost use Rattle.std.specs.Prelude.{◌≡◌, ◌+◌, min, [], option_map, string_bytes};
ghost use Rattle.tql_result.specs.Devices.{Pushes, held};
ghost use Rattle.tql_result.specs.Replies.{answer_of, IsPrintableAnswer};
ghost use Rattle.tql_result_forms.specs.Diagnostics.{fault_of};
ghost use Rattle.tql_run.specs.Runs.{is_refused as refused_of};
ghost use Rattle.tql_run.specs.Texts.{Writes};
ghost use Rattle.tql_run_forms.specs.Forms.{json_texts, json_wrote, most_numbers};
ghost use Rattle.tql_run_forms.specs.Faults.{json_of, line_of_detail, fault_of_detail, listed as listed_of};

use crate::kinds::is_refused;
use tql_detail::detail::Detail;
use tql_detail::place::Place;
use tql_memory::Memory;
use tql_result::answer::Answer;
use tql_result::device::DeviceFault;
use tql_result::sink::Sink;
use tql_result_forms::json::{Diagnostic, write_json_answer};
use tql_run::form::Form;

/// Returns the words of a text, if there is one.
fn words_of(text: &Option<String<Memory>>) -> Option<&str>
    ensures { option_map (λ s. s.now) result ≡ option_map string_bytes text.now }
{
    match text {
        Some(text) => Some(text.as_str()),
        None => None,
    }
}

/// Returns the line of a fault, or the line of its statement if the place of the fault is not known.
fn line_of(line: u64, detail: Option<&Detail>) -> u64
    ensures { result ≡ line_of_detail line detail.entry }
{
    match detail {
        Some(detail) => match detail.place {
            Some(place) => place.line,
            None => line,
        },
        None => line,
    }
}

/// Returns the column of a place, if it is known.
fn column_of(place: Option<Place>) -> Option<u64>
    ensures { result ≡ option_map (λ p. p.column) place }
{
    match place {
        Some(place) => Some(place.column),
        None => None,
    }
}

/// Returns the names, or None for an empty list.
fn listed(names: &[String<Memory>]) -> Option<&[String<Memory>]>
    ensures { option_map (λ l. l.now) result ≡ listed_of names.now }
{
    if names.is_empty() { None } else { Some(names) }
}

/// Returns the known details of a fault.
fn diagnostic_of(detail: Option<&Detail>) -> Diagnostic<'_>
    ensures { fault_of result ≡ fault_of_detail detail.entry }
{
    match detail {
        Some(detail) => Diagnostic {
            column: column_of(detail.place),
            detail: Some(detail.words.as_str()),
            hint: words_of(&detail.hint),
            constraint: words_of(&detail.constraint),
            columns: listed(detail.columns.as_slice()),
            row: detail.row,
        },
        None => Diagnostic::NONE,
    }
}

/// Pushes an answer as a line of JSON, with the detail of a refusal.
fn push_answer<O: Sink>(
    sink: &mut O,
    statement: u64,
    line: u64,
    answer: &Answer,
    detail: Option<&Detail>,
) -> Result<(), DeviceFault>
    requires { IsPrintableAnswer (answer_of answer.now) }
    ensures { Pushes (json_of statement line detail.entry (answer_of answer.now)) result
        (held O.written O.kept sink.old) (held O.written O.kept sink.new) (O.failures sink.old) (O.failures sink.new) }
{
    if is_refused(answer) {
        let line = line_of(line, detail);
        write_json_answer(sink, statement, line, answer, diagnostic_of(detail))
    } else {
        write_json_answer(sink, statement, line, answer, Diagnostic::NONE)
    }
}

/// Writes every answer as a line of JSON, as `write_json_answer` does. The statement number counts the answers that the
/// form has written, across scripts, and saturates at 2^64 - 1. The line of a refusal is that of the fault if it is
/// known.
#[derive(Clone, Copy, Debug)]
pub struct JsonForm {
    /// The number of answers written.
    statements: u64,
}

impl JsonForm {
    /// Returns a form that has written nothing.
    pub fn new() -> JsonForm
        ensures { ⟦<JsonForm as Form>⟧.wrote result [] }
    {
        JsonForm { statements: 0 }
    }
}

impl Form for JsonForm {
    ghost wrote = { λ f. json_wrote f.statements };

    ghost texts = { json_texts };

    ghost reported = { refused_of };

    fn wants_details(&self) -> bool {
        true
    }

    fn is_reported(&self, answer: &Answer) -> bool {
        is_refused(answer)
    }

    fn write<O: Sink>(
        &mut self,
        sink: &mut O,
        _statement: u64,
        line: u64,
        answer: &Answer,
        detail: Option<&Detail>,
    ) -> Result<(), DeviceFault>
        requires { IsPrintableAnswer (answer_of answer.now) }
        ensures writes { Writes json_texts (json_wrote self.old.statements) (json_wrote self.new.statements)
            _statement line (answer_of answer.now) result
            (held O.written O.kept sink.old) (held O.written O.kept sink.new)
            (O.failures sink.old) (O.failures sink.new) }
        ensures exact { Pushes (json_of (min (self.old.statements + 1) most_numbers) line detail.entry
            (answer_of answer.now)) result
            (held O.written O.kept sink.old) (held O.written O.kept sink.new)
            (O.failures sink.old) (O.failures sink.new) }
    {
        self.statements = self.statements.saturating_add(1);
        push_answer(sink, self.statements, line, answer, detail)
    }
}
