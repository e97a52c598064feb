//! An answer as a line of JSON.
ghost use Rattle.std.specs.Prelude.{◌≡◌, IfSome};
ghost use Rattle.tql_result.specs.Replies.{answer_of, IsPrintableAnswer};
ghost use Rattle.tql_run_forms.specs.Faults.{json_of};
ghost use Rattle.tql_host_cursor.specs.Cursors.{IsJsonShown, IsPrintableShown};

use tql_detail::detail::Detail;
use tql_memory::Memory;
use tql_result::answer::Answer;
use tql_result::vec_sink::VecSink;
use tql_run::form::Form;
use tql_run_forms::json_form::JsonForm;

/// Returns the line of JSON of an answer as of the first statement of a run, or None if its memory is refused.
fn json_line(
    memory: Memory,
    line: u64,
    answer: &Answer,
    detail: Option<&Detail>,
) -> Option<Vec<u8, Memory>>
    requires { IsPrintableAnswer (answer_of answer.now) }
    ensures { IfSome result (λ text. text.items ≡ json_of 1 line detail.entry (answer_of answer.now)) }
{
    let mut sink = VecSink::new(Vec::new(memory));
    match JsonForm::new().write(&mut sink, 1, line, answer, detail) {
        Ok(()) => Some(sink.into_bytes()),
        Err(_) => None,
    }
}

/// Returns the line of JSON of an answer, if its memory is not refused. Without an answer it is empty.
pub(crate) fn json_shown(
    memory: Memory,
    line: u64,
    answer: &Option<Answer>,
    detail: &Option<Detail>,
) -> Option<Vec<u8, Memory>>
    requires { IsPrintableShown answer.now }
    ensures { IfSome result (λ text. IsJsonShown line answer.now detail.now text.items) }
{
    match answer {
        Some(answer) => json_line(memory, line, answer, detail.as_ref()),
        None => Some(Vec::new(memory)),
    }
}
