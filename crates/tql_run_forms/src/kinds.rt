//! Kinds of answers.
ghost use Rattle.std.specs.Prelude.{◌≡◌};
ghost use Rattle.tql_result.specs.Replies.{answer_of};
ghost use Rattle.tql_run.specs.Runs.{is_refused as refused_of};
ghost use Rattle.tql_run_forms.specs.Forms.{is_table as table_of};

use tql_result::answer::Answer;
use tql_result::reply::Reply;

/// Whether an answer is a table.
pub(crate) fn is_table(answer: &Answer) -> bool
    ensures { result ≡ table_of (answer_of answer.now) }
{
    matches!(answer, Answer::Replied(Reply::Table(_)))
}

/// Whether an answer is a refusal.
pub fn is_refused(answer: &Answer) -> bool
    ensures { result ≡ refused_of (answer_of answer.now) }
{
    matches!(answer, Answer::Replied(Reply::Refused(_)))
}
