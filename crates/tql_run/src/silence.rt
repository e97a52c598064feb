//! A listener that keeps nothing.
ghost use Rattle.std.specs.Prelude.{None};

use crate::listener::Listener;
use crate::pushed::Pushed;
use tql_detail::detail::Detail;
use tql_result::answer::Answer;
use tql_value::refusal::Refusal;

/// A listener that ignores every answer.
#[derive(Clone, Copy, Debug)]
pub struct Silence;

impl Listener for Silence {
    ghost heard = { λ _. None };

    fn wants_details(&self) -> bool {
        false
    }

    fn waits(&self) -> bool {
        false
    }

    fn refused(
        &mut self,
        _statement: u64,
        _line: u64,
        _refusal: Refusal,
        _detail: Option<&Detail>,
        _pushed: &Pushed,
    ) {}

    fn answered(&mut self, _line: u64, _answer: &Answer, _pushed: &Pushed) {}
}
