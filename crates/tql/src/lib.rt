//! The engine as a library: an in-memory bitemporal table engine whose answers are proved correct.
//!
//! Create the memory in which everything is kept, and an engine in it. Give it a script, or one statement after
//! another, and read the replies. All data is freed when the engine is dropped.
//!
//! `Engine::step` takes one statement, without its `;`. A `;` ends a statement of a script, and is not part of it. In a
//! text for `step`, a `;` outside quotes and comments is refused as not a statement.
//!
//! `run` runs a script. It reads the script from a `Source` and writes the replies to a `Sink`: `SliceSource` and
//! `VecSink` in memory, `StdSource` and `StdSink` over files and streams. A `Listener` receives the refused statements,
//! their lines and, if known, the `Detail` of each. A detail has the `place`, what is wrong (`words`) and what to write
//! (`hint`). For a row that fails it has the `constraint`, its `columns` and the number of the `row`. If a transaction
//! is open that must not be (`in_transaction`), it has the line that opened it (`since`). `Notes` records this;
//! `Silence` ignores it. `run_in` writes the replies in another `Form` (`CsvForm`, `JsonForm`, `JsonlForm`,
//! `BoxForm`), and can stop at the first refusal. `run_bytes` is the simple form: it runs a script in memory. A host
//! that receives its bytes in parts uses a `Session`, which gives each answer as soon as its statement is complete.
//! `write_csv_table` writes a table as comma-separated values, and `write_json_rows` writes it as JSON Lines.
//! `write_json_answer` writes an answer as JSON; the `Diagnostic` of a refusal has the parts of a detail.
//!
//! To keep the database, a host gives `run_in` or `Session::next_kept` a `JournalSink`, over a `Log` and an `Out`, such
//! as `FileLog` and `StdOut`. `read_journal` finds the journal that a file begins with; a run of it restores the
//! database.
//!
//! `literal` makes a literal of a value for a statement; it doubles each quote. `Engine::table_count` and
//! `Engine::table_definition` return the tables with their columns and kinds. `Engine::column_kinds` returns the kinds
//! of a query's columns before it runs, and `Engine::plan_told` describes its access paths. Days and moments are
//! numbers (`View::Day`, `View::Moment`). `read_date` and `read_timestamp` parse their texts, `date_text` and
//! `timestamp_text` format them, and `day_parts` and `moment_parts` return their parts.
//!
//! `docs/LANGUAGE.md` describes the language. The contract of each function states what is proved about it.
//!
//! # Examples
//!
//! These are lines of the program `crates/embedding`, whose output the gate compares. An engine, with limited memory:
//!
//! ```text
//! let memory = memory_within(rt.alloc(), MOST_BYTES)?;
//! let mut engine = Engine::new(memory);
//! ```
//!
//! `run`: a script, whose refused statements are noted.
//!
//! ```text
//! let mut source = SliceSource::new(ENTERED);
//! let mut sink = VecSink::new(Vec::new(memory));
//! run(engine, &mut source, &mut sink, notes)
//! ```
//!
//! `Notes`: the refused statements, and the details.
//!
//! ```text
//! for note in &notes.kept {
//!     let text = note.refusal.text();
//!     println!(rt; "statement {}, line {}: {text}", note.statement, note.line)?;
//! }
//! ```
//!
//! ```text
//! let words = told.detail.words.as_str();
//! let hint = match &told.detail.hint {
//!     Some(hint) => hint.as_str(),
//!     None => "none",
//! };
//! ```
//!
//! `Engine::step` and `Reply`: a query, or any other statement.
//!
//! ```text
//! match &engine.step(b"SELECT day FROM notes") {
//!     Reply::Table(table) => print_days(rt, memory, table),
//!     Reply::Refused(_) | Reply::Done(_, _) => Ok(()),
//! }
//! ```
//!
//! `ResultTable` and `View`: the numbers in a column of an answer.
//!
//! ```text
//! for row in &table.rows {
//!     if let Some(View::Int(number)) = row.get(column).map(|value| value.view()) {
//!         total = total.saturating_add(number);
//!     }
//! }
//! ```
//!
//! `literal`: a value in a statement, whatever characters it has. A day or a moment outside of the calendar has none.
//!
//! ```text
//! if !is_printable(value) {
//!     return Ok(());
//! }
//! let text = literal(*statement.allocator(), value)?;
//! statement.push_str(text.as_str())
//! ```
//!
//! `read_date` and `date_text`: a day from its text, and its text.
//!
//! ```text
//! let Some(day) = read_date(day) else {
//!     return println!(rt; "no day: {day}");
//! };
//! ```
//!
//! ```text
//! if !is_day(day) {
//!     return Ok(());
//! }
//! let text = date_text(memory, day)?;
//! println!(rt; "{}", text.as_str())
//! ```
//!
//! `Engine::table_definition`: the tables, and their columns.
//!
//! ```text
//! for place in 0..engine.table_count() {
//!     if let Some(definition) = engine.table_definition(place) {
//!         print_table(rt, definition)?;
//!     }
//! }
//! ```
//!
//! ```text
//! print!(rt; "{}:", definition.name())?;
//! for column in definition.columns() {
//!     print!(rt; " {} {}", column.name.as_str(), kind_name(column.kind))?;
//! }
//! ```
//!
//! `Engine::column_kinds`: the kinds of a query's columns, before it runs.
//!
//! ```text
//! match &engine.column_kinds(question) {
//!     Ok(Some(kinds)) => print_each(rt, kinds),
//!     Ok(None) => println!(rt; "no question"),
//!     Err(refusal) => println!(rt; "refused: {}", refusal.text()),
//! }
//! ```
#![tactic(auto)]

pub use tql_catalog::constraint::{Key, Reference};
pub use tql_catalog::definition::{Application, Column, System};
pub use tql_catalog::table_def::TableDef;
pub use tql_detail::detail::Detail;
pub use tql_detail::place::Place;
pub use tql_engine::runner::{run, run_bytes, run_in};
pub use tql_journal::found::{Found, Rest};
pub use tql_journal::reader::{ReadFault, read_journal};
pub use tql_journal::seal::Seal;
pub use tql_journal_desk::journal::Journal;
pub use tql_journal_desk::log::{FileLog, Log};
pub use tql_journal_desk::out::{Out, StdOut};
pub use tql_journal_desk::sink::JournalSink;
pub use tql_literal::literal::literal;
pub use tql_literal::points::{date_text, timestamp_text};
pub use tql_memory::{Memory, memory, memory_within};
pub use tql_result::answer::Answer;
pub use tql_result::cell::is_printable;
pub use tql_result::device::DeviceFault;
pub use tql_result::reply::{Reply, Verb};
pub use tql_result::sink::Sink;
pub use tql_result::std_sink::StdSink;
pub use tql_result::vec_sink::VecSink;
pub use tql_result_box::box_table::write_box_table;
pub use tql_result_forms::csv::write_csv_table;
pub use tql_result_forms::json::{Diagnostic, write_json_answer};
pub use tql_result_forms::jsonl::write_json_rows;
pub use tql_run::complaint::Complaint;
pub use tql_run::device::{Input, Source};
pub use tql_run::form::{Form, PlainForm};
pub use tql_run::listener::Listener;
pub use tql_run::note::{Note, Told};
pub use tql_run::notes::Notes;
pub use tql_run::pushed::Pushed;
pub use tql_run::runner::{Fault, Summary};
pub use tql_run::session::Session;
pub use tql_run::silence::Silence;
pub use tql_run::slice_source::SliceSource;
pub use tql_run::std_source::StdSource;
pub use tql_run_forms::accepted_form::AcceptedForm;
pub use tql_run_forms::box_form::BoxForm;
pub use tql_run_forms::csv_form::CsvForm;
pub use tql_run_forms::json_form::JsonForm;
pub use tql_run_forms::jsonl_form::JsonlForm;
use tql_tree_index::tree_index::TreeIndex;
pub use tql_value::calendar::{DayParts, MomentParts, day_parts, is_day, is_moment, moment_parts};
pub use tql_value::literal::{read_date, read_timestamp};
pub use tql_value::refusal::Refusal;
pub use tql_value::value::{Kind, ResultTable, Value, View};

/// The engine. Balanced trees keep its closed versions and find rows by their values and periods.
pub type Engine = tql_engine::engine::Engine<TreeIndex>;
