//! A sink over a standard library writer.
ghost use Rattle.std.specs.Prelude.{◌≡◌, None, IsFalse, true};
ghost use Rattle.tql_result.specs.Devices.{HasFailed};

use crate::device::DeviceFault;
use crate::sink::Sink;
use std::io::Write;

/// A sink over a standard library writer. It counts failed writes, non-empty writes that take no bytes, and failed
/// flushes. It counts as flushed from a successful flush of its writer until the next push.
#[derive(Drop)]
pub struct StdSink<W> {
    writer: W,
    failures: u64,
    flushed: bool,
}

impl<W: Write + Drop> StdSink<W> {
    /// Returns a sink that has counted no failure. It does not count as flushed, since the writer may have buffered
    /// bytes.
    pub fn new(writer: W) -> StdSink<W>
        ensures written { ⟦<StdSink<W> as Sink>⟧.written result ≡ W.contents writer }
        ensures failures { ⟦<StdSink<W> as Sink>⟧.failures result ≡ 0 }
        ensures flushed { IsFalse (⟦<StdSink<W> as Sink>⟧.flushed result) }
    {
        StdSink {
            writer,
            failures: 0,
            flushed: false,
        }
    }

    /// Returns the writer. It may still buffer bytes that the sink was given.
    pub fn into_writer(self) -> W
        ensures { W.contents result ≡ ⟦<StdSink<W> as Sink>⟧.written self }
    {
        self.writer
    }

    fn fail(&mut self) -> DeviceFault
        ensures writer { self.new.writer ≡ self.old.writer }
        ensures failures { HasFailed self.old.failures self.new.failures }
        ensures flushed { self.new.flushed ≡ self.old.flushed }
    {
        self.failures = self.failures.saturating_add(1);
        DeviceFault
    }
}

impl<W: Write + Drop> Sink for StdSink<W> {
    ghost written = { λ s. W.contents s.writer };

    ghost failures = { λ s. s.failures };

    ghost flushed = { λ s. s.flushed };

    ghost flushes_fail = { true };

    ghost kept = { λ _. None };

    fn keep(&mut self, _text: &[u8]) {}

    fn push(&mut self, bytes: &[u8]) -> Result<usize, DeviceFault> {
        self.flushed = false;
        match self.writer.write(bytes) {
            Ok(0) if !bytes.is_empty() => {
                self.fail();
                Ok(0)
            }
            Ok(taken) => Ok(taken),
            Err(_) => Err(self.fail()),
        }
    }

    fn flush(&mut self) -> Result<(), DeviceFault> {
        self.flushed = self.writer.flush().is_ok();
        if !self.flushed {
            return Err(self.fail());
        }
        Ok(())
    }

    fn faults(&self) -> u64 {
        self.failures
    }
}
