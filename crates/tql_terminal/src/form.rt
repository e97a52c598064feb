//! Answers at a terminal.
ghost use Rattle.std.specs.Prelude.{⊤, List, ℕ, IsFalse};
ghost use Rattle.tql_result.specs.Devices.{Pushes, held};
ghost use Rattle.tql_result.specs.Replies.{answer_of, headings_of, table_rows, IsPrintableAnswer};
ghost use Rattle.tql_value.specs.Points.{ArePrintable};
ghost use Rattle.tql_run.specs.Runs.{is_refused as refused_of};
ghost use Rattle.tql_run_forms.specs.Forms.{is_table as table_of};
ghost use Rattle.tql_terminal.specs.Terminal.{IsShown, IsShownAnswer, terminal_texts};

use crate::table::write_table;
use tql_detail::detail::Detail;
use tql_memory::Memory;
use tql_result::answer::Answer;
use tql_result::device::DeviceFault;
use tql_result::reply::Reply;
use tql_result::sink::Sink;
use tql_run::form::Form;
use tql_run_forms::accepted_form::push_accepted;
use tql_run_forms::kinds::is_refused;
use tql_value::value::ResultTable;

/// Pushes a table.
fn push_table<O: Sink>(
    memory: Memory,
    sink: &mut O,
    table: &ResultTable,
    width: usize,
) -> Result<(), DeviceFault>
    requires { ArePrintable (table_rows table.now) }
    ensures { (text : List ℕ) × IsShown width (headings_of table.now) (table_rows table.now) text × Pushes text result
        (held O.written O.kept sink.old) (held O.written O.kept sink.new) (O.failures sink.old) (O.failures sink.new) }
{
    write_table(memory, sink, table, width)
}

/// Pushes an answer that is not a table: nothing for a refusal, and otherwise the text of `write_answer`.
fn push_other<O: Sink>(sink: &mut O, answer: &Answer, width: usize) -> Result<(), DeviceFault>
    requires printable { IsPrintableAnswer (answer_of answer.now) }
    requires other { IsFalse (table_of (answer_of answer.now)) }
    ensures { (text : List ℕ) × IsShownAnswer width (answer_of answer.now) text × Pushes text result
        (held O.written O.kept sink.old) (held O.written O.kept sink.new) (O.failures sink.old) (O.failures sink.new) }
{
    push_accepted(sink, answer)
}

/// Pushes a table as `write_table` does, and any other answer in plain text.
fn push_answer<O: Sink>(
    memory: Memory,
    sink: &mut O,
    answer: &Answer,
    width: usize,
) -> Result<(), DeviceFault>
    requires { IsPrintableAnswer (answer_of answer.now) }
    ensures { (text : List ℕ) × IsShownAnswer width (answer_of answer.now) text × Pushes text result
        (held O.written O.kept sink.old) (held O.written O.kept sink.new) (O.failures sink.old) (O.failures sink.new) }
{
    match answer {
        Answer::Replied(Reply::Table(table)) => push_table(memory, sink, table, width),
        _ => push_other(sink, answer, width),
    }
}

/// Writes tables for a terminal of a width, as `write_table` does, and other answers as `write_answer` does. Refusals
/// are left out.
#[derive(Clone, Copy)]
pub struct TerminalForm {
    memory: Memory,
    width: usize,
}

impl TerminalForm {
    /// Returns a form for a terminal of this width, which lays out its tables in `memory`.
    pub fn new(memory: Memory, width: usize) -> TerminalForm {
        TerminalForm { memory, width }
    }
}

impl Form for TerminalForm {
    ghost wrote = { λ _ _. ⊤ };

    ghost texts = { terminal_texts };

    ghost reported = { refused_of };

    fn wants_details(&self) -> bool {
        false
    }

    fn is_reported(&self, answer: &Answer) -> bool {
        is_refused(answer)
    }

    fn write<O: Sink>(
        &mut self,
        sink: &mut O,
        _statement: u64,
        _line: u64,
        answer: &Answer,
        _detail: Option<&Detail>,
    ) -> Result<(), DeviceFault> {
        push_answer(self.memory, sink, answer, self.width)
    }
}
