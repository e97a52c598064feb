//! A sink that keeps nothing.
ghost use Rattle.std.specs.Prelude.{◌≡◌, None, IsFalse, false};

use tql_result::device::DeviceFault;
use tql_result::sink::Sink;

/// A sink that takes all bytes and keeps nothing.
#[derive(Drop)]
pub struct Unkept {
    flushed: bool,
}

impl Unkept {
    /// Returns a sink that was given nothing. It does not count as flushed.
    pub fn new() -> Unkept
        ensures { IsFalse (⟦<Unkept as Sink>⟧.flushed result) }
    {
        Unkept { flushed: false }
    }
}

impl Sink for Unkept {
    ghost written = { λ _. None };

    ghost failures = { λ _. 0 };

    ghost flushed = { λ s. s.flushed };

    ghost flushes_fail = { false };

    ghost kept = { λ _. None };

    fn keep(&mut self, _text: &[u8]) {}

    fn push(&mut self, bytes: &[u8]) -> Result<usize, DeviceFault> {
        self.flushed = false;
        Ok(bytes.len())
    }

    fn flush(&mut self) -> Result<(), DeviceFault> {
        self.flushed = true;
        Ok(())
    }

    fn faults(&self) -> u64 {
        0
    }
}
