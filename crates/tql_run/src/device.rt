//! The source of the bytes of a script.
ghost use Rattle.std.specs.Prelude.{◌≡◌, ◌≤◌, ◌<◌, ℕ, Bool, List, [], Option, length, take};
ghost use Rattle.std.specs.Prelude.{IfOk, OnErr, IsTrue, is_err};
ghost use Rattle.tql_result.specs.Devices.{Counts};
ghost use Rattle.tql_run.specs.Runs.{Gives, IsAtEnd, is_end};

use tql_result::device::DeviceFault;
use tql_result::sink::Sink;

/// The state of a source. It counts its failures, which shows that no failure of a run came from elsewhere.
pub trait Input {
    /// The bytes that are left, if they are known. If they are not known, nothing is claimed about them.
    ghost left: { Self → Option (List ℕ) };

    /// The number of failures counted so far.
    ghost failures: { Self → ℕ };

    /// Whether the last pull reported the end of the input.
    ghost ended: { Self → Bool };

    /// Returns the number of pulls that have failed. The count saturates at 2^64 - 1.
    fn faults(&self) -> u64
        ensures { result ≡ failures self.now };
}

/// A source of script bytes for a run whose answers are pushed into a sink of type `O`. A user at the other end, for
/// example at a terminal, may wait for an answer before sending more. For that reason, a pull requires a flushed sink.
pub trait Source<O: Sink>: Input {
    /// Copies the next bytes to the front of the buffer and returns their number. Zero for a non-empty buffer means the
    /// end of the input. On an error, no bytes are consumed. The sink is only read.
    fn pull(&mut self, sink: &O, buffer: &mut [u8]) -> Result<usize, DeviceFault>
        requires flushed { IsTrue (O.flushed sink.now) }
        ensures within { IfOk result (λ n. n ≤ length buffer.old) }
        ensures given { IfOk result (λ n. Gives (Self.left self.old) (take n buffer.new) (Self.left self.new)) }
        ensures at_end { IfOk result (λ n. n ≡ 0 → 0 < length buffer.old → IsAtEnd (Self.left self.new)) }
        ensures kept { OnErr result (Gives (Self.left self.old) [] (Self.left self.new)) }
        ensures counted { Counts (is_err result) (Self.failures self.old) (Self.failures self.new) }
        ensures told { Self.ended self.new ≡ is_end result (length buffer.old) };
}
