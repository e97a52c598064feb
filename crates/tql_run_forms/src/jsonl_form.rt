//! Answers as JSON Lines.
ghost use Rattle.std.specs.Prelude.{not, ⊤};
ghost use Rattle.tql_result.specs.Devices.{Pushes, held};
ghost use Rattle.tql_result.specs.Replies.{answer_of, IsPrintableAnswer};
ghost use Rattle.tql_run_forms.specs.Forms.{is_table as table_of, jsonl_answer, jsonl_texts};

use crate::kinds::is_table;
use tql_detail::detail::Detail;
use tql_result::answer::Answer;
use tql_result::device::DeviceFault;
use tql_result::reply::Reply;
use tql_result::sink::Sink;
use tql_result_forms::jsonl::write_json_rows;
use tql_run::form::Form;

/// Pushes an answer if it is a table; other answers have an empty text.
fn push_answer<O: Sink>(sink: &mut O, answer: &Answer) -> Result<(), DeviceFault>
    requires { IsPrintableAnswer (answer_of answer.now) }
    ensures { Pushes (jsonl_answer (answer_of answer.now)) result
        (held O.written O.kept sink.old) (held O.written O.kept sink.new) (O.failures sink.old) (O.failures sink.new) }
{
    match answer {
        Answer::Replied(Reply::Table(table)) => write_json_rows(sink, table),
        _ => Ok(()),
    }
}

/// Writes tables as JSON Lines, as `write_json_rows` does. Other answers are left out.
#[derive(Clone, Copy, Debug)]
pub struct JsonlForm;

impl Form for JsonlForm {
    ghost wrote = { λ _ _. ⊤ };

    ghost texts = { jsonl_texts };

    ghost reported = { λ a. not (table_of a) };

    fn wants_details(&self) -> bool {
        false
    }

    fn is_reported(&self, answer: &Answer) -> bool {
        !is_table(answer)
    }

    fn write<O: Sink>(
        &mut self,
        sink: &mut O,
        _statement: u64,
        _line: u64,
        answer: &Answer,
        _detail: Option<&Detail>,
    ) -> Result<(), DeviceFault> {
        push_answer(sink, answer)
    }
}
