//! The text of an answer as one JSON object on one line.
ghost use Rattle.std.specs.Prelude.{◌≡◌, ◌∷◌, ◌++◌, [], codes, decimal, drop, map, option_map, string_bytes};
ghost use Rattle.std.specs.List.{flat_map};
ghost use Rattle.tql_spec.specs.Answer.{Replied};
ghost use Rattle.tql_result_laws.specs.Json.{string, member, known, name_array, done_members};
ghost use Rattle.tql_result_laws.specs.Json.{table_members, refusal_members, members_of, json_text};
ghost use Rattle.tql_result_forms.specs.Diagnostics.{fault_of, place_members, constraint_members};
ghost use Rattle.tql_spec.specs.Machine.{Refused};
ghost use Rattle.tql_spec.specs.Text.{wording};
ghost use Rattle.tql_value.specs.Refusals.{refusal_of};
ghost use Rattle.tql_value.specs.Points.{ArePrintable};
ghost use Rattle.tql_result.specs.Devices.{Pushes, held};
ghost use Rattle.tql_result.specs.Replies.{plain_verb, table_rows, headings_of, answer_of, reply_of};
ghost use Rattle.tql_result.specs.Replies.{IsPrintableReply, IsPrintableAnswer};

use crate::escape::push_string;
use crate::json_rows::{push_names, push_rows};
use tql_memory::Memory;
use tql_result::answer::Answer;
use tql_result::device::DeviceFault;
use tql_result::number::push_decimal;
use tql_result::pieces::push_all;
use tql_result::reply::{Reply, Verb};
use tql_result::sink::Sink;
use tql_value::refusal::Refusal;
use tql_value::value::ResultTable;

/// The known details of the fault of a refused statement, in addition to its number, text and line. Unknown ones are
/// `None`.
#[derive(Clone, Copy, Debug)]
pub struct Diagnostic<'a> {
    /// The column on the line, counted in characters from 1.
    pub column: Option<u64>,
    /// What is wrong there.
    pub detail: Option<&'a str>,
    /// What to write instead.
    pub hint: Option<&'a str>,
    /// The name of the constraint that a row violates.
    pub constraint: Option<&'a str>,
    /// The names of the columns in which the row fails.
    pub columns: Option<&'a [String<Memory>]>,
    /// The number of the row in the statement, counted from 1.
    pub row: Option<u64>,
}

impl Diagnostic<'_> {
    /// A diagnostic without any details.
    pub const NONE: Diagnostic<'static> = Diagnostic {
        column: None,
        detail: None,
        hint: None,
        constraint: None,
        columns: None,
        row: None,
    };
}

/// Returns the words of a refusal, without its number.
fn words(refusal: Refusal) -> &'static [u8]
    ensures { result.now ≡ drop 4 (wording (refusal_of refusal)) }
{
    match refusal.text().as_bytes() {
        [_, _, _, _, words @ ..] => words,
        _ => b"",
    }
}

/// Pushes the beginning of an object: the statement number and the line.
fn push_place<S: Sink>(sink: &mut S, statement: u64, line: u64) -> Result<(), DeviceFault>
    ensures { Pushes (123 ∷ member (codes "statement") (decimal statement)
        ++ 44 ∷ 32 ∷ member (codes "line") (decimal line)) result
        (held S.written S.kept sink.old) (held S.written S.kept sink.new) (S.failures sink.old) (S.failures sink.new) }
{
    push_all(sink, b"{\"statement\": ")?;
    push_decimal(sink, statement)?;
    push_all(sink, b", \"line\": ")?;
    push_decimal(sink, line)
}

/// Pushes a comma and the name of a member.
fn push_name<S: Sink>(sink: &mut S, name: &[u8]) -> Result<(), DeviceFault>
    ensures { Pushes (44 ∷ 32 ∷ (string name.now ++ (58 ∷ 32 ∷ []))) result
        (held S.written S.kept sink.old) (held S.written S.kept sink.new) (S.failures sink.old) (S.failures sink.new) }
{
    push_all(sink, b", ")?;
    push_string(sink, name)?;
    push_all(sink, b": ")
}

/// Pushes a comma, a name and a number, if the number is known.
fn push_number<S: Sink>(sink: &mut S, name: &[u8], number: Option<u64>) -> Result<(), DeviceFault>
    ensures { Pushes (flat_map (λ m. 44 ∷ 32 ∷ m) (known name.now decimal number [])) result
        (held S.written S.kept sink.old) (held S.written S.kept sink.new) (S.failures sink.old) (S.failures sink.new) }
{
    match number {
        None => Ok(()),
        Some(number) => {
            push_name(sink, name)?;
            push_decimal(sink, number)
        }
    }
}

/// Pushes a comma, a name and a text, if the text is known.
fn push_text<S: Sink>(sink: &mut S, name: &[u8], text: Option<&str>) -> Result<(), DeviceFault>
    ensures { Pushes (flat_map (λ m. 44 ∷ 32 ∷ m) (known name.now string (option_map (λ s. s.now) text.entry) []))
        result (held S.written S.kept sink.old) (held S.written S.kept sink.new)
        (S.failures sink.old) (S.failures sink.new) }
{
    match text {
        None => Ok(()),
        Some(text) => {
            push_name(sink, name)?;
            push_string(sink, text.as_bytes())
        }
    }
}

/// Pushes the names of the columns of a fault, if they are known.
fn push_columns<S: Sink>(
    sink: &mut S,
    columns: Option<&[String<Memory>]>,
) -> Result<(), DeviceFault>
    ensures { Pushes (flat_map (λ m. 44 ∷ 32 ∷ m)
        (known (codes "columns") name_array (option_map (λ l. map string_bytes l.now) columns.entry) [])) result
        (held S.written S.kept sink.old) (held S.written S.kept sink.new) (S.failures sink.old) (S.failures sink.new) }
{
    match columns {
        None => Ok(()),
        Some(columns) => {
            push_name(sink, b"columns")?;
            push_names(sink, columns)
        }
    }
}

/// Pushes the members of the reply to a statement that was executed.
fn push_done<S: Sink>(sink: &mut S, verb: Verb, count: Option<u64>) -> Result<(), DeviceFault>
    ensures { Pushes (flat_map (λ m. 44 ∷ 32 ∷ m) (done_members (plain_verb verb) count)) result
        (held S.written S.kept sink.old) (held S.written S.kept sink.new) (S.failures sink.old) (S.failures sink.new) }
{
    push_all(sink, b", \"reply\": ")?;
    push_string(sink, verb.text().as_bytes())?;
    push_number(sink, b"count", count)
}

/// Pushes the headings and the rows of a table.
fn push_table<S: Sink>(sink: &mut S, table: &ResultTable) -> Result<(), DeviceFault>
    requires { ArePrintable (table_rows table.now) }
    ensures { Pushes (flat_map (λ m. 44 ∷ 32 ∷ m)
        (table_members (headings_of table.now) (table_rows table.now))) result
        (held S.written S.kept sink.old) (held S.written S.kept sink.new) (S.failures sink.old) (S.failures sink.new) }
{
    push_all(sink, b", \"columns\": ")?;
    push_names(sink, table.headings.as_slice())?;
    push_all(sink, b", \"rows\": ")?;
    push_rows(sink, table.rows.as_slice())
}

/// Pushes the number and the words of a refusal.
fn push_words<S: Sink>(sink: &mut S, refusal: Refusal) -> Result<(), DeviceFault>
    ensures { Pushes (flat_map (λ m. 44 ∷ 32 ∷ m) (refusal_members (refusal_of refusal))) result
        (held S.written S.kept sink.old) (held S.written S.kept sink.new) (S.failures sink.old) (S.failures sink.new) }
{
    push_all(sink, b", \"refused\": ")?;
    push_decimal(sink, u64::from(refusal.number()))?;
    push_all(sink, b", \"text\": ")?;
    push_string(sink, words(refusal))
}

/// Pushes the place of a fault, what is wrong there, and what to write instead, as far as they are known.
fn push_fault_place<S: Sink>(sink: &mut S, diagnostic: Diagnostic<'_>) -> Result<(), DeviceFault>
    ensures { Pushes (flat_map (λ m. 44 ∷ 32 ∷ m) (place_members (fault_of diagnostic.entry))) result
        (held S.written S.kept sink.old) (held S.written S.kept sink.new) (S.failures sink.old) (S.failures sink.new) }
{
    push_number(sink, b"column", diagnostic.column)?;
    push_text(sink, b"detail", diagnostic.detail)?;
    push_text(sink, b"hint", diagnostic.hint)
}

/// Pushes the constraint that a row violates, the columns, and the number of the row, as far as they are known.
fn push_fault_row<S: Sink>(sink: &mut S, diagnostic: Diagnostic<'_>) -> Result<(), DeviceFault>
    ensures { Pushes (flat_map (λ m. 44 ∷ 32 ∷ m) (constraint_members (fault_of diagnostic.entry))) result
        (held S.written S.kept sink.old) (held S.written S.kept sink.new) (S.failures sink.old) (S.failures sink.new) }
{
    push_text(sink, b"constraint", diagnostic.constraint)?;
    push_columns(sink, diagnostic.columns)?;
    push_number(sink, b"row", diagnostic.row)
}

/// Pushes a refusal and the known details of its fault.
fn push_refusal<S: Sink>(
    sink: &mut S,
    refusal: Refusal,
    diagnostic: Diagnostic<'_>,
) -> Result<(), DeviceFault>
    ensures { Pushes (flat_map (λ m. 44 ∷ 32 ∷ m)
        (members_of (fault_of diagnostic.entry) (Replied (Refused (refusal_of refusal))))) result
        (held S.written S.kept sink.old) (held S.written S.kept sink.new) (S.failures sink.old) (S.failures sink.new) }
{
    push_words(sink, refusal)?;
    push_fault_place(sink, diagnostic)?;
    push_fault_row(sink, diagnostic)
}

/// Pushes the members of a reply.
fn push_reply<S: Sink>(
    sink: &mut S,
    reply: &Reply,
    diagnostic: Diagnostic<'_>,
) -> Result<(), DeviceFault>
    requires { IsPrintableReply (reply_of reply.now) }
    ensures { Pushes (flat_map (λ m. 44 ∷ 32 ∷ m)
        (members_of (fault_of diagnostic.entry) (Replied (reply_of reply.now)))) result
        (held S.written S.kept sink.old) (held S.written S.kept sink.new) (S.failures sink.old) (S.failures sink.new) }
{
    match reply {
        Reply::Done(verb, count) => push_done(sink, *verb, *count),
        Reply::Table(table) => push_table(sink, table),
        Reply::Refused(refusal) => push_refusal(sink, *refusal, diagnostic),
    }
}

/// Pushes the members of an answer.
fn push_answer<S: Sink>(
    sink: &mut S,
    answer: &Answer,
    diagnostic: Diagnostic<'_>,
) -> Result<(), DeviceFault>
    requires { IsPrintableAnswer (answer_of answer.now) }
    ensures { Pushes (flat_map (λ m. 44 ∷ 32 ∷ m)
        (members_of (fault_of diagnostic.entry) (answer_of answer.now))) result
        (held S.written S.kept sink.old) (held S.written S.kept sink.new) (S.failures sink.old) (S.failures sink.new) }
{
    match answer {
        Answer::Replied(reply) => push_reply(sink, reply, diagnostic),
        Answer::Accepted => push_all(sink, b", \"reply\": \"OK\""),
    }
}

/// Pushes an answer as one JSON object (RFC 8259) on one line: the statement number, a line number, and the contents of
/// the answer. The caller gives both numbers, counted from 1. The line is that of the fault if it is known.
///
/// - `reply` and `count`: the words of a statement that was executed, and the number of rows that it changed, for
/// statements that count rows. A statement that was only checked and has no fault has the reply `OK`.
/// - `columns` and `rows`: the headings of a table, and its rows.
/// - `refused` and `text`: the number of a refusal and its words. The known ones of `column`, `detail`, `hint`,
/// `constraint`, `columns` and `row` in `diagnostic` follow. Other answers ignore `diagnostic`.
///
/// A number is a JSON number, NULL is `null`, and a text is a string. A date is the string `YYYY-MM-DD`. A timestamp is
/// the string `YYYY-MM-DD HH:MM:SS`, followed by a point and six digits unless its microseconds are zero. The literals
/// `DATE '..'` and `TIMESTAMP '..'` accept these strings. Allocates no memory.
///
/// # Errors
///
/// Fails if the sink fails. A prefix of the text has then been pushed.
pub fn write_json_answer<S: Sink>(
    sink: &mut S,
    statement: u64,
    line: u64,
    answer: &Answer,
    diagnostic: Diagnostic<'_>,
) -> Result<(), DeviceFault>
    requires { IsPrintableAnswer (answer_of answer.now) }
    ensures { Pushes (json_text statement line (fault_of diagnostic.entry) (answer_of answer.now)) result
        (held S.written S.kept sink.old) (held S.written S.kept sink.new) (S.failures sink.old) (S.failures sink.new) }
{
    push_place(sink, statement, line)?;
    push_answer(sink, answer, diagnostic)?;
    push_all(sink, b"}\n")
}
