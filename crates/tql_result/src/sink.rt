//! The sink for the bytes of replies.
ghost use Rattle.std.specs.Prelude.{◌≡◌, ◌≤◌, ℕ, Bool, List, [], Option, length, take};
ghost use Rattle.std.specs.Prelude.{IfOk, OnErr, IsFalse, IsTrue, is_ok, is_err};
ghost use Rattle.tql_result.specs.Devices.{Appends, Counts, is_failed_push, with_text};

use crate::device::DeviceFault;

/// A sink for bytes. It counts its failures, which shows that no failure of a run came from elsewhere.
pub trait Sink {
    /// The bytes that it contains. If they are not known, nothing is claimed about them.
    ghost written: { Self → Option (List ℕ) };

    /// The number of failures counted so far.
    ghost failures: { Self → ℕ };

    /// Whether it has passed on all bytes that it took: there was a flush since the last push, and the last flush
    /// succeeded.
    ghost flushed: { Self → Bool };

    /// Whether a flush may fail.
    ghost flushes_fail: { Bool };

    /// The texts of the statements that it was given to keep, oldest first. If they are not known, nothing is claimed
    /// about them.
    ghost kept: { Self → Option (List (List ℕ)) };

    /// Takes the text of a statement that was done and that a journal keeps, before any byte of its reply is pushed. A
    /// sink without a journal ignores it. A sink that cannot keep it fails every later push and flush.
    fn keep(&mut self, text: &[u8])
        ensures kept { kept self.new ≡ with_text text.now (kept self.old) }
        ensures written { written self.new ≡ written self.old }
        ensures failures { failures self.new ≡ failures self.old };

    /// Takes bytes from the front and returns their number. Taking none of a non-empty slice is a failure. An error is
    /// a failure too, and takes no bytes.
    fn push(&mut self, bytes: &[u8]) -> Result<usize, DeviceFault>
        ensures within { IfOk result (λ n. n ≤ length bytes.now) }
        ensures taken { IfOk result
            (λ n. Appends (written self.old) (take n bytes.now) (written self.new)) }
        ensures kept { OnErr result (Appends (written self.old) [] (written self.new)) }
        ensures counted { Counts (is_failed_push result (length bytes.now))
            (failures self.old) (failures self.new) }
        ensures unflushed { IsFalse (flushed self.new) }
        ensures texts { kept self.new ≡ kept self.old };

    /// Passes on the bytes that the sink has buffered.
    fn flush(&mut self) -> Result<(), DeviceFault>
        ensures kept { Appends (written self.old) [] (written self.new) }
        ensures counted { Counts (is_err result) (failures self.old) (failures self.new) }
        ensures passed_on { flushed self.new ≡ is_ok result }
        ensures allowed { OnErr result (IsTrue flushes_fail) }
        ensures texts { kept self.new ≡ kept self.old };

    /// Returns the number of pushes and flushes that have failed. The count saturates at 2^64 - 1.
    fn faults(&self) -> u64
        ensures { result ≡ failures self.now };
}
