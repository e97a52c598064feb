//! Answers for people: tables in boxes, and other answers in plain text.
ghost use Rattle.std.specs.Prelude.{⊤, List, ℕ, IsFalse};
ghost use Rattle.tql_result.specs.Devices.{Pushes, held};
ghost use Rattle.tql_result.specs.Replies.{answer_of, headings_of, table_rows, IsPrintableAnswer};
ghost use Rattle.tql_value.specs.Points.{ArePrintable};
ghost use Rattle.tql_run.specs.Runs.{is_refused as refused_of};
ghost use Rattle.tql_run_forms.specs.Forms.{is_table as table_of, IsBox, IsBoxAnswer, box_texts};

use crate::accepted_form::push_accepted;
use crate::kinds::is_refused;
use tql_detail::detail::Detail;
use tql_memory::Memory;
use tql_result::answer::Answer;
use tql_result::device::DeviceFault;
use tql_result::reply::Reply;
use tql_result::sink::Sink;
use tql_result_box::box_table::write_box_table;
use tql_run::form::Form;
use tql_value::value::ResultTable;

/// Pushes a table in a box.
fn push_box<O: Sink>(memory: Memory, sink: &mut O, table: &ResultTable) -> Result<(), DeviceFault>
    requires { ArePrintable (table_rows table.now) }
    ensures { (text : List ℕ) × IsBox (headings_of table.now) (table_rows table.now) text × Pushes text result
        (held O.written O.kept sink.old) (held O.written O.kept sink.new) (O.failures sink.old) (O.failures sink.new) }
{
    write_box_table(memory, sink, table)
}

/// Pushes an answer that is not a table: nothing for a refusal, and otherwise the text of `write_answer`.
fn push_other<O: Sink>(sink: &mut O, answer: &Answer) -> Result<(), DeviceFault>
    requires printable { IsPrintableAnswer (answer_of answer.now) }
    requires other { IsFalse (table_of (answer_of answer.now)) }
    ensures { (text : List ℕ) × IsBoxAnswer (answer_of answer.now) text × Pushes text result
        (held O.written O.kept sink.old) (held O.written O.kept sink.new) (O.failures sink.old) (O.failures sink.new) }
{
    push_accepted(sink, answer)
}

/// Pushes a table in a box, and any other answer in plain text.
fn push_answer<O: Sink>(memory: Memory, sink: &mut O, answer: &Answer) -> Result<(), DeviceFault>
    requires { IsPrintableAnswer (answer_of answer.now) }
    ensures { (text : List ℕ) × IsBoxAnswer (answer_of answer.now) text × Pushes text result
        (held O.written O.kept sink.old) (held O.written O.kept sink.new) (O.failures sink.old) (O.failures sink.new) }
{
    match answer {
        Answer::Replied(Reply::Table(table)) => push_box(memory, sink, table),
        _ => push_other(sink, answer),
    }
}

/// Writes tables in boxes, as `write_box_table` does, and other answers as `write_answer` does. Refusals are left out.
#[derive(Clone, Copy)]
pub struct BoxForm {
    memory: Memory,
}

impl BoxForm {
    /// Returns a form that lays out its tables in `memory`.
    pub fn new(memory: Memory) -> BoxForm {
        BoxForm { memory }
    }
}

impl Form for BoxForm {
    ghost wrote = { λ _ _. ⊤ };

    ghost texts = { box_texts };

    ghost reported = { refused_of };

    fn wants_details(&self) -> bool {
        false
    }

    fn is_reported(&self, answer: &Answer) -> bool {
        is_refused(answer)
    }

    fn write<O: Sink>(
        &mut self,
        sink: &mut O,
        _statement: u64,
        _line: u64,
        answer: &Answer,
        _detail: Option<&Detail>,
    ) -> Result<(), DeviceFault> {
        push_answer(self.memory, sink, answer)
    }
}
