//! Responders, which answer the statements of a script.
ghost use Rattle.tql_spec.specs.Machine.{State};
ghost use Rattle.tql_spec.specs.Run.{Answering, finished};
ghost use Rattle.tql_result.specs.Replies.{answer_of, IsPrintableAnswer};
ghost use Rattle.tql_run.specs.Pieces.{RefusesFaults};
ghost use Rattle.tql_run.specs.Responding.{Answered, Standing};

use tql_detail::detail::Detail;
use tql_memory::Memory;
use tql_result::answer::Answer;
use tql_value::refusal::Refusal;

/// Answers the statements of a script in order. A responder may represent states of the reference model. Its answers
/// are all of one kind: the replies of the model, or whether each statement is accepted.
pub trait Responder {
    /// The states of the reference model that it represents.
    ghost stands: { Self → Standing };

    /// The relation between statements and its answers.
    ghost answering: { Answering };

    /// Returns the memory in which a run with this responder allocates.
    fn memory(&self) -> Memory;

    /// Answers one finished statement, given its text without the closing `;`. Accepts any bytes.
    fn answer(&mut self, text: &[u8]) -> Answer
        ensures answered { (s : State) → stands self.old s
            → Answered answering s (finished text.now) (answer_of result) (stands self.new) }
        ensures printable { IsPrintableAnswer (answer_of result) };

    /// Returns the detail of the refusal of the statement with this text, which was the last one answered. Returns None
    /// if nothing more is known or the memory for the detail is refused.
    fn detail(&self, text: &[u8], refusal: Refusal) -> Option<Detail>;

    /// A statement that is too long or has no closing `;` is refused.
    ghost refuses: { RefusesFaults answering };
}
