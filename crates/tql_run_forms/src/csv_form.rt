//! Answers as comma-separated values.
ghost use Rattle.std.specs.Prelude.{◌≡◌, not, [], ◌∷◌};
ghost use Rattle.std.specs.List.{list_any};
ghost use Rattle.tql_value.specs.Points.{ArePrintable};
ghost use Rattle.tql_result_laws.specs.Csv.{csv_text};
ghost use Rattle.tql_result.specs.Devices.{Pushes, held};
ghost use Rattle.tql_result.specs.Replies.{answer_of, headings_of, table_rows, IsPrintableAnswer};
ghost use Rattle.tql_run_forms.specs.Forms.{is_table as table_of, csv_part, csv_answer, csv_texts};

use crate::kinds::is_table;
use tql_detail::detail::Detail;
use tql_result::answer::Answer;
use tql_result::device::DeviceFault;
use tql_result::pieces::push_all;
use tql_result::reply::Reply;
use tql_result::sink::Sink;
use tql_result_forms::csv::write_csv_table;
use tql_run::form::Form;
use tql_value::value::ResultTable;

/// Pushes a table that is not the first, after an empty line.
fn push_next_table<O: Sink>(sink: &mut O, table: &ResultTable) -> Result<(), DeviceFault>
    requires { ArePrintable (table_rows table.now) }
    ensures { Pushes (13 ∷ 10 ∷ csv_text (headings_of table.now) (table_rows table.now)) result
        (held O.written O.kept sink.old) (held O.written O.kept sink.new) (O.failures sink.old) (O.failures sink.new) }
{
    push_all(sink, b"\r\n")?;
    write_csv_table(sink, table)
}

/// Pushes a table, after an empty line if another table came before it.
fn push_table<O: Sink>(
    sink: &mut O,
    has_table: bool,
    table: &ResultTable,
) -> Result<(), DeviceFault>
    requires { ArePrintable (table_rows table.now) }
    ensures { Pushes (csv_part has_table (headings_of table.now) (table_rows table.now)) result
        (held O.written O.kept sink.old) (held O.written O.kept sink.new) (O.failures sink.old) (O.failures sink.new) }
{
    if has_table {
        push_next_table(sink, table)
    } else {
        write_csv_table(sink, table)
    }
}

/// Pushes an answer if it is a table; other answers have an empty text.
fn push_answer<O: Sink>(sink: &mut O, has_table: bool, answer: &Answer) -> Result<(), DeviceFault>
    requires { IsPrintableAnswer (answer_of answer.now) }
    ensures { Pushes (csv_answer has_table (answer_of answer.now)) result
        (held O.written O.kept sink.old) (held O.written O.kept sink.new) (O.failures sink.old) (O.failures sink.new) }
{
    match answer {
        Answer::Replied(Reply::Table(table)) => push_table(sink, has_table, table),
        _ => Ok(()),
    }
}

/// Writes tables as comma-separated values, as `write_csv_table` does, with an empty line between tables. Other answers
/// are left out.
#[derive(Clone, Copy, Debug)]
pub struct CsvForm {
    has_table: bool,
}

impl CsvForm {
    /// Returns a form that has written nothing.
    pub fn new() -> CsvForm
        ensures { ⟦<CsvForm as Form>⟧.wrote result [] }
    {
        CsvForm { has_table: false }
    }
}

impl Form for CsvForm {
    ghost wrote = { λ f answers. f.has_table ≡ list_any table_of answers };

    ghost texts = { csv_texts };

    ghost reported = { λ a. not (table_of a) };

    fn wants_details(&self) -> bool {
        false
    }

    fn is_reported(&self, answer: &Answer) -> bool {
        !is_table(answer)
    }

    fn write<O: Sink>(
        &mut self,
        sink: &mut O,
        _statement: u64,
        _line: u64,
        answer: &Answer,
        _detail: Option<&Detail>,
    ) -> Result<(), DeviceFault> {
        let outcome = push_answer(sink, self.has_table, answer);
        self.has_table |= is_table(answer);
        outcome
    }
}
