//! Where replies go.
ghost use Rattle.std.specs.Prelude.{◌≤◌, List, ℕ, Option, None, IfOk, OnErr, length, take, []};
ghost use Rattle.tql_journal_desk.specs.Order.{Steps, Sends};

use std::io::Write;
use tql_result::device::DeviceFault;

/// Where replies go once the statements that they answer are durable.
pub trait Out {
    /// The bytes that have left. If they are not known, nothing is claimed about them.
    ghost sent: { Self → Option (List ℕ) };

    /// Sends bytes from the front and returns their number. An error sends none.
    fn send(&mut self, bytes: &[u8]) -> Result<usize, DeviceFault>
        ensures within { IfOk result (λ n. n ≤ length bytes.now) }
        ensures ok { IfOk result (λ n. Steps (Sends (take n bytes.now)) (sent self.old) (sent self.new)) }
        ensures err { OnErr result (Steps (Sends []) (sent self.old) (sent self.new)) };

    /// Passes on the bytes that it has buffered.
    fn flush(&mut self) -> Result<(), DeviceFault>
        ensures { Steps (Sends []) (sent self.old) (sent self.new) };
}

/// A standard library writer. What was written to it is not known to a proof.
#[derive(Drop)]
pub struct StdOut<W> {
    writer: W,
}

impl<W: Write + Drop> StdOut<W> {
    /// Returns the place for replies over a writer.
    pub fn new(writer: W) -> StdOut<W> {
        StdOut { writer }
    }
}

impl<W: Write + Drop> Out for StdOut<W> {
    ghost sent = { λ _. None };

    fn send(&mut self, bytes: &[u8]) -> Result<usize, DeviceFault> {
        match self.writer.write(bytes) {
            Ok(count) => Ok(count),
            Err(_) => Err(DeviceFault),
        }
    }

    fn flush(&mut self) -> Result<(), DeviceFault> {
        match self.writer.flush() {
            Ok(()) => Ok(()),
            Err(_) => Err(DeviceFault),
        }
    }
}
