//! A responder that counts bytes.
ghost use Rattle.std.specs.Prelude.{⊤};

use tql_detail::detail::Detail;
use tql_detail::place::Place;
use tql_memory::Memory;
use tql_result::answer::Answer;
use tql_result::reply::{Reply, Verb};
use tql_run::responder::Responder;
use tql_value::refusal::Refusal;

/// Counts the bytes of each statement, and refuses the statement `no`.
#[derive(Drop)]
pub struct Lengths {
    pub memory: Memory,
}

impl Responder for Lengths {
    ghost stands = { λ _ _. ⊤ };

    ghost answering = { λ _ _ _ _. ⊤ };

    fn memory(&self) -> Memory {
        self.memory
    }

    fn answer(&mut self, text: &[u8]) -> Answer {
        Answer::Replied(if text == b"no".as_slice() {
            Reply::Refused(Refusal::NotAStatement)
        } else {
            Reply::Done(Verb::Inserted, Some(text.len() as u64))
        })
    }

    fn detail(&self, _text: &[u8], _refusal: Refusal) -> Option<Detail> {
        let mut detail = Detail::of(String::from_str(self.memory, "no").ok()?);
        detail.place = Some(Place::first());
        Some(detail)
    }

    ghost refuses = { record { at_once = λ _ _ _ _. tt; for_memory = λ _ _ _. tt } };
}
