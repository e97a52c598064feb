//! An example program that uses the engine as a library. It runs a script and prints the refused statements. Then it
//! queries the payments as the table had them at the end of March and now, and adds up the rows of each answer. It also
//! prints the tables and the kinds of a query's columns, puts values into a statement, and has two sessions take turns.
#![tactic(auto)]

use std::alloc::AllocError;
use std::io;
use tql::{
    Answer, Engine, Fault, Kind, Memory, Notes, Reply, ResultTable, Session, SliceSource, Summary,
    TableDef, VecSink, View, date_text, is_day, is_printable, literal, memory_within, read_date,
    run,
};

/// The maximal number of bytes of memory that the engine may have in use.
const MOST_BYTES: usize = 64 << 20;

/// The script, with the moments of entry. The last line has a misspelt table name.
const ENTERED: &[u8] = b"
CREATE TABLE pay (employee INTEGER, cents INTEGER, s TIMESTAMP GENERATED ALWAYS AS ROW START,
  e TIMESTAMP GENERATED ALWAYS AS ROW END, PERIOD FOR SYSTEM_TIME (s, e)) WITH SYSTEM VERSIONING;
CREATE TABLE notes (day DATE, words VARCHAR(40));
AT TIMESTAMP '2011-03-28 09:00:00';
INSERT INTO pay VALUES (1, 300000), (2, 250000);
AT TIMESTAMP '2011-04-04 09:00:00';
INSERT INTO pay VALUES (2, 12000);
INSERT INTO play VALUES (3, 8000);
";

/// The queries: the table as of the end of March, and now.
static QUESTIONS: [&[u8]; 2] = [
    b"SELECT * FROM pay FOR SYSTEM_TIME AS OF TIMESTAMP '2011-03-31 23:59:59'",
    b"SELECT * FROM pay",
];

/// The most statements that end in one part of a session's bytes.
const MOST_ANSWERS: usize = 4;

/// Returns the sum of a column of whole numbers, by its number from 0. Other values are ignored.
fn total(table: &ResultTable, column: usize) -> i64 {
    let mut total = 0i64;
    for row in &table.rows {
        if let Some(View::Int(number)) = row.get(column).map(|value| value.view()) {
            total = total.saturating_add(number);
        }
    }
    total
}

/// Prints a reply: the number of the rows that a query returns, and the sum of their cents.
fn print_reply(rt: &impl Print, reply: &Reply) -> io::Result<()> {
    match reply {
        Reply::Table(table) => println!(rt;
            "{} payments, {} cents",
            table.rows.len(),
            total(table, 1)
        ),
        Reply::Refused(refusal) => println!(rt; "refused: {}", refusal.text()),
        Reply::Done(_, _) => println!(rt; "done"),
    }
}

/// Asks a question, and prints the reply.
fn ask(rt: &impl Print, engine: &mut Engine, question: &[u8]) -> io::Result<()> {
    print_reply(rt, &engine.step(question))
}

/// Prints each refused statement: its number, its line and the refusal.
fn print_notes(rt: &impl Print, notes: &Notes) -> io::Result<()> {
    for note in &notes.kept {
        let text = note.refusal.text();
        println!(rt; "statement {}, line {}: {text}", note.statement, note.line)?;
    }
    Ok(())
}

/// Prints the detail of each refusal: what is wrong, and the hint.
fn print_details(rt: &impl Print, notes: &Notes) -> io::Result<()> {
    for told in &notes.told {
        let words = told.detail.words.as_str();
        let hint = match &told.detail.hint {
            Some(hint) => hint.as_str(),
            None => "none",
        };
        println!(rt; "statement {}: {words}; hint: {hint}", told.statement)?;
    }
    Ok(())
}

/// Prints the refused statements, and how the run ended.
fn print_run(rt: &impl Print, notes: &Notes, end: Result<Summary, Fault>) -> io::Result<()> {
    print_notes(rt, notes)?;
    print_details(rt, notes)?;
    match end {
        Ok(summary) => {
            println!(rt;
                "{} statements, {} refused",
                summary.statements, summary.refused
            )
        }
        Err(_) => println!(rt; "out of memory"),
    }
}

/// Runs the script, and notes the refused statements.
fn run_script(memory: Memory, engine: &mut Engine, notes: &mut Notes) -> Result<Summary, Fault> {
    let mut source = SliceSource::new(ENTERED);
    let mut sink = VecSink::new(Vec::new(memory));
    run(engine, &mut source, &mut sink, notes)
}

/// Runs the script, and prints the refused statements and the number of all statements.
fn enter(rt: &impl Print, memory: Memory, engine: &mut Engine) -> io::Result<()> {
    let mut notes = Notes::new(memory);
    let end = run_script(memory, engine, &mut notes);
    print_run(rt, &notes, end)
}

/// Returns the name of a kind.
fn kind_name(kind: Kind) -> &'static str {
    match kind {
        Kind::Int => "integer",
        Kind::Text => "text",
        Kind::Day => "date",
        Kind::Moment => "timestamp",
    }
}

/// Prints a table's name, and its columns with their kinds.
fn print_table(rt: &impl Print, definition: &TableDef) -> io::Result<()> {
    print!(rt; "{}:", definition.name())?;
    for column in definition.columns() {
        print!(rt; " {} {}", column.name.as_str(), kind_name(column.kind))?;
    }
    println!(rt; "")
}

/// Prints all tables.
fn print_tables(rt: &impl Print, engine: &Engine) -> io::Result<()> {
    for place in 0..engine.table_count() {
        if let Some(definition) = engine.table_definition(place) {
            print_table(rt, definition)?;
        }
    }
    Ok(())
}

/// Prints kinds of columns.
fn print_each(rt: &impl Print, kinds: &[Kind]) -> io::Result<()> {
    print!(rt; "kinds:")?;
    for kind in kinds {
        print!(rt; " {}", kind_name(*kind))?;
    }
    println!(rt; "")
}

/// Prints the kinds of a query's columns.
fn print_kinds(rt: &impl Print, engine: &Engine, question: &[u8]) -> io::Result<()> {
    match &engine.column_kinds(question) {
        Ok(Some(kinds)) => print_each(rt, kinds),
        Ok(None) => println!(rt; "no question"),
        Err(refusal) => println!(rt; "refused: {}", refusal.text()),
    }
}

/// Appends the literal of a value to a statement. A day or a moment outside of the calendar has none.
fn push_literal(statement: &mut String<Memory>, value: View<'_>) -> Result<(), AllocError> {
    if !is_printable(value) {
        return Ok(());
    }
    let text = literal(*statement.allocator(), value)?;
    statement.push_str(text.as_str())
}

/// Appends a note of a day to an INSERT. The words become a literal, whatever characters they contain.
fn push_note(statement: &mut String<Memory>, day: View<'_>, words: &str) -> Result<(), AllocError> {
    statement.push_str("INSERT INTO notes VALUES (")?;
    push_literal(statement, day)?;
    statement.push_str(", ")?;
    push_literal(statement, View::Text(words))?;
    statement.push_str(")")
}

/// Prints a statement, or why it is refused.
fn print_entry(rt: &impl Print, statement: &str, reply: &Reply) -> io::Result<()> {
    match reply {
        Reply::Refused(refusal) => println!(rt; "refused: {}", refusal.text()),
        Reply::Done(_, _) | Reply::Table(_) => println!(rt; "{statement}"),
    }
}

/// Runs a statement, and prints it.
fn enter_statement(rt: &impl Print, engine: &mut Engine, statement: &str) -> io::Result<()> {
    print_entry(rt, statement, &engine.step(statement.as_bytes()))
}

/// Inserts a note of a day.
fn enter_note(
    rt: &impl Print,
    memory: Memory,
    engine: &mut Engine,
    day: &str,
    words: &str,
) -> io::Result<()> {
    let Some(day) = read_date(day) else {
        return println!(rt; "no day: {day}");
    };
    let mut statement = String::new(memory);
    push_note(&mut statement, View::Day(day), words)?;
    enter_statement(rt, engine, statement.as_str())
}

/// Prints a day, if it is one.
fn print_day(rt: &impl Print, memory: Memory, day: i64) -> io::Result<()> {
    if !is_day(day) {
        return Ok(());
    }
    let text = date_text(memory, day)?;
    println!(rt; "{}", text.as_str())
}

/// Prints the days in the first column of a table.
fn print_days(rt: &impl Print, memory: Memory, table: &ResultTable) -> io::Result<()> {
    for row in &table.rows {
        if let Some(View::Day(day)) = row.get(0).map(|value| value.view()) {
            print_day(rt, memory, day)?;
        }
    }
    Ok(())
}

/// Prints the days of the notes.
fn ask_days(rt: &impl Print, memory: Memory, engine: &mut Engine) -> io::Result<()> {
    match &engine.step(b"SELECT day FROM notes") {
        Reply::Table(table) => print_days(rt, memory, table),
        Reply::Refused(_) | Reply::Done(_, _) => Ok(()),
    }
}

/// Prints the next answer of a clerk's session, if a statement is whole.
fn print_next(
    rt: &impl Print,
    engine: &mut Engine,
    session: &mut Session,
    clerk: &str,
) -> io::Result<()> {
    match &session.next_answer(engine) {
        Some(Answer::Replied(reply)) => {
            print!(rt; "{clerk}: ")?;
            print_reply(rt, reply)
        }
        _ => Ok(()),
    }
}

/// Feeds a clerk's session the next part of its bytes, and prints the answers that are due.
fn take_turn(
    rt: &impl Print,
    engine: &mut Engine,
    session: &mut Session,
    clerk: &str,
    part: &[u8],
) -> io::Result<()> {
    session.feed(part);
    for _ in 0..MOST_ANSWERS {
        print_next(rt, engine, session, clerk)?;
    }
    Ok(())
}

/// Two clerks work at one engine. A statement of Ann's arrives in two parts, and takes effect when it is whole: by then
/// Bob has opened a transaction, which belongs to the engine. So his ROLLBACK takes back her payment too.
fn work_together(rt: &impl Print, memory: Memory, engine: &mut Engine) -> io::Result<()> {
    let mut ann = Session::new(memory)?;
    let mut bob = Session::new(memory)?;
    take_turn(rt, engine, &mut ann, "Ann", b"INSERT INTO pay VALUES (4, ")?;
    let opens = b"START TRANSACTION; INSERT INTO pay VALUES (5, 500);";
    take_turn(rt, engine, &mut bob, "Bob", opens)?;
    let rest = b"400); SELECT * FROM pay WHERE employee > 3;";
    take_turn(rt, engine, &mut ann, "Ann", rest)?;
    take_turn(rt, engine, &mut bob, "Bob", b"ROLLBACK; COMMIT;")?;
    take_turn(rt, engine, &mut ann, "Ann", b"SELECT * FROM pay;")
}

fn main(rt: HostRuntime) -> io::Result<()> {
    let memory = memory_within(rt.alloc(), MOST_BYTES)?;
    let mut engine = Engine::new(memory);
    enter(&rt, memory, &mut engine)?;
    for question in &QUESTIONS {
        ask(&rt, &mut engine, question)?;
    }
    print_tables(&rt, &engine)?;
    print_kinds(
        &rt,
        &engine,
        b"SELECT employee, MIN(s) AS first FROM pay GROUP BY employee",
    )?;
    print_kinds(&rt, &engine, b"SELECT wages FROM pay")?;
    enter_note(
        &rt,
        memory,
        &mut engine,
        "2011-04-04",
        "O'Hara's books; settled -- so far",
    )?;
    ask_days(&rt, memory, &mut engine)?;
    work_together(&rt, memory, &mut engine)
}
