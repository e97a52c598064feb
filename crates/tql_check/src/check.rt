//! Checks statements: each one is parsed on its own, over the whole grammar, and none is run.
ghost use Rattle.std.specs.Prelude.{⊤, List};
ghost use Rattle.tql_spec.specs.Answer as run;
ghost use Rattle.tql_spec.specs.Machine.{State};
ghost use Rattle.tql_spec.specs.Run.{Checks, finished};
ghost use Rattle.tql_result.specs.Replies.{answer_of, IsPrintableAnswer};
ghost use Rattle.tql_run.specs.Hearing.{hearing_change};
ghost use Rattle.tql_run.specs.Runs.{Runs, source_change, sink_change};
ghost use Rattle.tql_run.specs.RunsIn.{RunsIn, manner};
ghost use Rattle.tql_run.specs.Texts.{style_after, written_after};
ghost use Rattle.tql_run.proofs.Faults.{checks_refuse};

use tql_detail::detail::Detail;
use tql_memory::Memory;
use tql_result::answer::Answer;
use tql_result::reply::Reply;
use tql_result::sink::Sink;
use tql_run::device::Source;
use tql_run::form::{Form, PlainForm};
use tql_run::listener::Listener;
use tql_run::responder::Responder;
use tql_run::runner::{Fault, Summary, run_in};
use tql_syntax::text::read_text;
use tql_syntax_fault::told::{depth_detail, syntax_detail};
use tql_syntax_fault::unfinished::unfinished_detail;
use tql_syntax_tree::width::is_too_wide;
use tql_value::refusal::Refusal;

/// Checks one finished statement, given its text without the closing `;`. Accepts any bytes. The statement is accepted,
/// or refused for its first fault: more than 1,048,576 bytes, invalid UTF-8, more than 64 parentheses open at once, a
/// syntax error, or more than 64 columns or 8 table references. It is also refused when out of memory.
pub fn check(memory: Memory, text: &[u8]) -> Answer
    ensures answered { (s : State) → Checks s (finished text.now) (answer_of result) s }
    ensures printable { IsPrintableAnswer (answer_of result) }
{
    match read_text(memory, text) {
        Ok(tree) if is_too_wide(&tree.statement) => {
            Answer::Replied(Reply::Refused(Refusal::TooManyColumnsOrTables))
        }
        Ok(_) => Answer::Accepted,
        Err(refusal) => Answer::Replied(Reply::Refused(refusal)),
    }
}

/// A responder that checks the statements of a script. It represents every state, since its answers do not depend on
/// the state.
#[derive(Drop)]
pub struct Checker {
    memory: Memory,
}

impl Checker {
    /// Returns a checker that allocates in `memory`.
    pub fn new(memory: Memory) -> Checker {
        Checker { memory }
    }
}

impl Responder for Checker {
    ghost stands = { λ _ _. ⊤ };

    ghost answering = { Checks };

    fn memory(&self) -> Memory {
        self.memory
    }

    fn answer(&mut self, text: &[u8]) -> Answer {
        check(self.memory, text)
    }

    fn detail(&self, text: &[u8], refusal: Refusal) -> Option<Detail> {
        match refusal {
            Refusal::NotAStatement => syntax_detail(self.memory, text),
            Refusal::NestedTooDeep => depth_detail(self.memory, text),
            Refusal::UnfinishedStatement => unfinished_detail(self.memory, text),
            _ => None,
        }
    }

    ghost refuses = { checks_refuse };
}

/// Checks the statements of a script in order, without running them. Each one is checked as soon as it is whole, and
/// its answer is written in a form to the sink. The source is pulled only when no whole statement is left and the sink
/// is flushed. A device failure ends the check as it ends a run. If `bail` is set, the first refusal stops the check;
/// otherwise a refused statement does not. The listener is notified of each answer. The summary counts the answers and
/// the refusals among them.
pub fn check_script_in<I: Source<O>, O: Sink, L: Listener, F: Form>(
    memory: Memory,
    source: &mut I,
    sink: &mut O,
    listener: &mut L,
    form: &mut F,
    bail: bool,
) -> Result<Summary, Fault>
    ensures { (before : List run.Answer) → F.wrote form.old before → (s : State)
        → RunsIn (manner Checks (style_after before F.texts F.reported) bail) s (λ _. ⊤)
        (written_after before (F.wrote form.new))
        (source_change I.left I.failures I.ended source.old source.new)
        (sink_change O.written O.failures O.flushed O.flushes_fail sink.old sink.new)
        (hearing_change L.heard listener.old listener.new) result }
{
    let mut checker = Checker::new(memory);
    run_in(&mut checker, source, sink, listener, form, bail)
}

/// Checks a script as `check_script_in` does, in the plain form. A refused statement does not stop the check.
pub fn check_script<I: Source<O>, O: Sink, L: Listener>(
    memory: Memory,
    source: &mut I,
    sink: &mut O,
    listener: &mut L,
) -> Result<Summary, Fault>
    ensures { (s : State) → Runs Checks s (λ _. ⊤)
        (source_change I.left I.failures I.ended source.old source.new)
        (sink_change O.written O.failures O.flushed O.flushes_fail sink.old sink.new)
        (hearing_change L.heard listener.old listener.new) result }
{
    check_script_in(memory, source, sink, listener, &mut PlainForm, false)
}
