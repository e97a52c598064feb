//! A sink into a vector of bytes.
ghost use Rattle.std.specs.Prelude.{◌≡◌, ◌≤◌, Some, None, [], length, take, IfOk, OnErr, IsErr, IsFalse, false};
ghost use Rattle.tql_result.specs.Devices.{Appends, Counts, is_failed_push};

use crate::device::DeviceFault;
use crate::sink::Sink;
use std::alloc::AllocError;
use tql_memory::Memory;

/// A sink into a vector of bytes. A push takes all its bytes. If their memory is refused, it takes none, counts a
/// failure, and keeps the allocator's error. There is no other reason for a push to fail. A flush has nothing to pass
/// on and always succeeds.
#[derive(Drop)]
pub struct VecSink {
    bytes: Vec<u8, Memory>,
    failures: u64,
    flushed: bool,
    /// The outcome of the allocation for the last push.
    grown: Result<(), AllocError>,
}

impl VecSink {
    /// Returns a sink that appends to these bytes. It has counted no failure, and does not count as flushed.
    pub fn new(bytes: Vec<u8, Memory>) -> VecSink
        ensures written { ⟦<VecSink as Sink>⟧.written result ≡ Some bytes.entry.items }
        ensures failures { ⟦<VecSink as Sink>⟧.failures result ≡ 0 }
        ensures flushed { IsFalse (⟦<VecSink as Sink>⟧.flushed result) }
    {
        VecSink {
            bytes,
            failures: 0,
            flushed: false,
            grown: Ok(()),
        }
    }

    /// Returns the bytes that the sink contains.
    pub fn into_bytes(self) -> Vec<u8, Memory>
        ensures { ⟦<VecSink as Sink>⟧.written self ≡ Some result.items }
    {
        self.bytes
    }
}

impl Sink for VecSink {
    ghost written = { λ s. Some s.bytes.items };

    ghost failures = { λ s. s.failures };

    ghost flushed = { λ s. s.flushed };

    ghost flushes_fail = { false };

    ghost kept = { λ _. None };

    fn keep(&mut self, _text: &[u8]) {}

    fn push(&mut self, bytes: &[u8]) -> Result<usize, DeviceFault>
        ensures within { IfOk result (λ n. n ≤ length bytes.now) }
        ensures taken { IfOk result
            (λ n. Appends (Some self.old.bytes.items) (take n bytes.now) (Some self.new.bytes.items)) }
        ensures kept { OnErr result (Appends (Some self.old.bytes.items) [] (Some self.new.bytes.items)) }
        ensures counted { Counts (is_failed_push result (length bytes.now)) self.old.failures self.new.failures }
        ensures unflushed { IsFalse self.new.flushed }
        ensures all { IfOk result (λ n. n ≡ length bytes.now) }
        ensures memory { OnErr result (IsErr self.new.grown) }
    {
        self.flushed = false;
        self.grown = self.bytes.extend_from_slice(bytes);
        match self.grown {
            Ok(()) => Ok(bytes.len()),
            Err(_) => {
                self.failures = self.failures.saturating_add(1);
                Err(DeviceFault)
            }
        }
    }

    fn flush(&mut self) -> Result<(), DeviceFault> {
        self.flushed = true;
        Ok(())
    }

    fn faults(&self) -> u64 {
        self.failures
    }
}
