//! Lines about the printed texts of replies and answers.
ghost use Rattle.std.specs.Prelude.{IsTrue};
ghost use Rattle.tql_result.specs.Replies.{answer_of, IsPrintableAnswer};

use crate::line::Line;
use crate::parts::{rows, sides, two};
use crate::stop::Stop;
use crate::values::refusal;
use tql_memory::Memory;
use tql_result::answer::{Answer, write_answer};
use tql_result::print::{is_printable_reply, write_reply};
use tql_result::reply::{Reply, Verb};
use tql_result::table::is_printable_table;
use tql_result::vec_sink::VecSink;
use tql_result_box::box_table::write_box_table;
use tql_result_forms::csv::write_csv_table;
use tql_result_forms::json::{Diagnostic, write_json_answer};
use tql_result_forms::jsonl::write_json_rows;
use tql_value::value::ResultTable;

/// The names of the verbs.
static VERBS: [(&str, Verb); 12] = [
    ("CreatedTable", Verb::CreatedTable),
    ("DroppedTable", Verb::DroppedTable),
    ("Inserted", Verb::Inserted),
    ("Updated", Verb::Updated),
    ("Deleted", Verb::Deleted),
    ("Started", Verb::Started),
    ("Committed", Verb::Committed),
    ("RolledBack", Verb::RolledBack),
    ("ClockSet", Verb::ClockSet),
    ("Pruned", Verb::Pruned),
    ("OpenedReader", Verb::OpenedReader),
    ("ClosedReader", Verb::ClosedReader),
];

fn verb(word: &str) -> Result<Verb, Stop> {
    for &(name, verb) in &VERBS {
        if name == word {
            return Ok(verb);
        }
    }
    Err(Stop::Form)
}

/// Parses the reply of a statement that is done, with a number of rows or without.
fn done(input: &str) -> Result<Reply, Stop> {
    let (word, number) = two(input)?;
    Ok(Reply::Done(verb(word)?, number.parse().ok()))
}

/// Parses headings with `, ` between them.
fn headings(memory: Memory, text: &str) -> Result<Vec<String<Memory>, Memory>, Stop> {
    let mut headings = Vec::new(memory);
    for name in text.split(", ") {
        headings.push(String::from_str(memory, name)?)?;
    }
    Ok(headings)
}

/// Parses a table: its headings, and its rows.
fn table(memory: Memory, input: &str) -> Result<Reply, Stop> {
    let (names, behind) = sides(input)?;
    let headings = headings(memory, names)?;
    let rows = rows(memory, behind)?;
    Ok(Reply::Table(ResultTable { headings, rows }))
}

/// Parses the answer that a line is about.
fn answer_about(memory: Memory, subject: &str, input: &str) -> Result<Answer, Stop> {
    Ok(Answer::Replied(match subject {
        "accepted" => return Ok(Answer::Accepted),
        "done" => done(input)?,
        "refused" => Reply::Refused(refusal(input)?),
        _ => table(memory, input)?,
    }))
}

/// Writes a table in the form that a command names.
fn write_table(
    sink: &mut VecSink,
    memory: Memory,
    command: &str,
    table: &ResultTable,
) -> Result<(), Stop> {
    if !is_printable_table(table) {
        return Err(Stop::NoText);
    }
    Ok(match command {
        "csv" => write_csv_table(sink, table)?,
        "jsonl" => write_json_rows(sink, table)?,
        "box" => write_box_table(memory, sink, table)?,
        _ => return Err(Stop::Form),
    })
}

/// Writes an answer as it is printed, or a table in the form that a command names.
fn write_plain(
    sink: &mut VecSink,
    memory: Memory,
    command: &str,
    answer: &Answer,
) -> Result<(), Stop> {
    match answer {
        Answer::Accepted => Ok(write_answer(sink, answer)?),
        Answer::Replied(Reply::Table(table)) if command != "rows" => {
            write_table(sink, memory, command, table)
        }
        Answer::Replied(reply) if is_printable_reply(reply) => Ok(write_reply(sink, reply)?),
        _ => Err(Stop::NoText),
    }
}

/// The number and the line of each statement whose answer is printed as JSON.
const STATEMENT: u64 = 3;

const LINE: u64 = 7;

/// Whether an answer has a text.
fn is_printable_answer(answer: &Answer) -> bool
    ensures { IsTrue result → IsPrintableAnswer (answer_of answer.now) }
{
    match answer {
        Answer::Replied(reply) => is_printable_reply(reply),
        Answer::Accepted => true,
    }
}

/// Writes an answer as a line of JSON.
fn write_json(sink: &mut VecSink, answer: &Answer, diagnostic: Diagnostic<'_>) -> Result<(), Stop> {
    if !is_printable_answer(answer) {
        return Err(Stop::NoText);
    }
    Ok(write_json_answer(sink, STATEMENT, LINE, answer, diagnostic)?)
}

/// Returns a text, unless it is `-`.
fn known(text: &str) -> Option<&str> {
    if text == "-" { None } else { Some(text) }
}

/// Returns the diagnostic of a refusal. The text has the column of its fault, its row and the detail, each `-` if
/// unknown. The constraint has these columns. It and the hint have the name, unless it is `-`.
fn diagnostic<'a>(
    columns: &'a [String<Memory>],
    name: &'a str,
    text: &'a str,
) -> Result<Diagnostic<'a>, Stop> {
    let (column, others) = two(text)?;
    let (row, detail) = two(others)?;
    let name = known(name);
    Ok(Diagnostic {
        column: column.parse().ok(),
        detail: known(detail),
        hint: name,
        constraint: name,
        columns: if name.is_some() { Some(columns) } else { None },
        row: row.parse().ok(),
    })
}

/// Writes a refusal as a line of JSON. The input is the name of its constraint and of the only column of it, the number
/// of the refusal, and its diagnostic.
fn write_fault(sink: &mut VecSink, memory: Memory, input: &str) -> Result<(), Stop> {
    let (name, others) = two(input)?;
    let (number, others) = two(others)?;
    let refusal = refusal(number)?;
    let columns = headings(memory, name)?;
    let diagnostic = diagnostic(&columns, name, others)?;
    write_json(sink, &Answer::Replied(Reply::Refused(refusal)), diagnostic)
}

/// Writes the answer that a line is about, in the form that its command names.
fn write_line(sink: &mut VecSink, memory: Memory, line: &Line<'_>) -> Result<(), Stop> {
    if line.command == "json_fault" {
        return write_fault(sink, memory, line.input);
    }
    let subject = line.command.strip_prefix("json_");
    let answer = answer_about(memory, subject.unwrap_or(line.command), line.input)?;
    match subject {
        Some(_) => write_json(sink, &answer, Diagnostic::NONE),
        None => write_plain(sink, memory, line.command, &answer),
    }
}

/// Answers a line about a reply.
pub fn answer(memory: Memory, line: &Line<'_>, out: &mut String) -> Result<(), Stop> {
    let mut sink = VecSink::new(Vec::new(memory));
    write_line(&mut sink, memory, line)?;
    let bytes = sink.into_bytes();
    out.push_str(str::from_utf8(&bytes).ok().ok_or(Stop::Form)?)?;
    Ok(())
}
