//! The reasons why a line has no answer of its own.
use std::alloc::{AllocError, AllocFailed};
use tql_result::device::DeviceFault;
use tql_value::refusal::Refusal;

/// The reason why a line has no answer of its own.
#[derive(Clone, Copy)]
pub enum Stop {
    /// The line does not have the form that its command requires.
    Form,
    /// The answer has a value that has no text.
    NoText,
    /// The command was refused.
    Refused(Refusal),
}

impl Stop {
    /// Returns the text that is written as the answer.
    pub fn text(self) -> &'static str {
        match self {
            Stop::Form => "this is not how the line is written",
            Stop::NoText => "no text",
            Stop::Refused(refusal) => refusal.text(),
        }
    }
}

impl From<Refusal> for Stop {
    fn from(refusal: Refusal) -> Self {
        Stop::Refused(refusal)
    }
}

impl From<AllocError> for Stop {
    fn from(_error: AllocError) -> Self {
        Stop::Refused(Refusal::OutOfMemory)
    }
}

/// A sink into a vector fails only for lack of memory.
impl From<DeviceFault> for Stop {
    fn from(_fault: DeviceFault) -> Self {
        Stop::Refused(Refusal::OutOfMemory)
    }
}

impl<T: Drop> From<AllocFailed<T>> for Stop {
    fn from(_failed: AllocFailed<T>) -> Self {
        Stop::Refused(Refusal::OutOfMemory)
    }
}
