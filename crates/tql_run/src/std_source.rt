//! A source over a standard library reader.
ghost use Rattle.std.specs.Prelude.{◌≡◌, ◌≢◌, IfErr, IsFalse};
ghost use Rattle.std.specs.IoError.{error_kind};
ghost use Rattle.std.specs.Io.{ReadsAtMost};
ghost use Rattle.std.specs.Io.KnownBytes.{ReadConsumes};
ghost use Rattle.tql_result.specs.Devices.{HasFailed};

use crate::device::{Input, Source};
use std::io::{self, Error, ErrorKind, Read};
use tql_result::device::DeviceFault;
use tql_result::sink::Sink;

/// Reads once, and repeats a read that a signal interrupts. Gives up after 2^64 - 1 interrupted reads.
fn read_again<R: Read>(reader: &mut R, buffer: &mut [u8]) -> io::Result<usize>
    ensures bound { ReadsAtMost result buffer.new }
    ensures bytes { ReadConsumes (R.remaining reader.old) (R.remaining reader.new) result buffer.new }
    ensures again { IfErr result (λ e. error_kind e ≢ ErrorKind.Interrupted) }
{
    for _ in 0..u64::MAX {
        match reader.read(buffer) {
            Ok(count) => return Ok(count),
            Err(error) if error.kind() == ErrorKind::Interrupted => {}
            Err(error) => return Err(error),
        }
    }
    Err(Error::from(ErrorKind::TimedOut))
}

/// A source over a standard library reader. An interrupted read is repeated, and a failed read is counted.
#[derive(Drop)]
pub struct StdSource<R> {
    reader: R,
    failures: u64,
    ended: bool,
}

impl<R: Read + Drop> StdSource<R> {
    /// Returns a source that has counted no failure and has not reported the end of its input.
    pub fn new(reader: R) -> StdSource<R>
        ensures left { ⟦<StdSource<R> as Input>⟧.left result ≡ R.remaining reader }
        ensures failures { ⟦<StdSource<R> as Input>⟧.failures result ≡ 0 }
        ensures ended { IsFalse (⟦<StdSource<R> as Input>⟧.ended result) }
    {
        StdSource {
            reader,
            failures: 0,
            ended: false,
        }
    }

    fn fail(&mut self) -> DeviceFault
        ensures reader { self.new.reader ≡ self.old.reader }
        ensures failures { HasFailed self.old.failures self.new.failures }
        ensures ended { IsFalse self.new.ended }
    {
        self.ended = false;
        self.failures = self.failures.saturating_add(1);
        DeviceFault
    }
}

impl<R: Read + Drop> Input for StdSource<R> {
    ghost left = { λ s. R.remaining s.reader };

    ghost failures = { λ s. s.failures };

    ghost ended = { λ s. s.ended };

    fn faults(&self) -> u64 {
        self.failures
    }
}

impl<R: Read + Drop, O: Sink> Source<O> for StdSource<R> {
    fn pull(&mut self, _sink: &O, buffer: &mut [u8]) -> Result<usize, DeviceFault> {
        match read_again(&mut self.reader, buffer) {
            Ok(count) => {
                self.ended = count == 0 && !buffer.is_empty();
                Ok(count)
            }
            Err(_) => Err(self.fail()),
        }
    }
}
