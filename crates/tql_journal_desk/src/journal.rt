//! A journal that is written to a log.
ghost use Rattle.std.specs.Prelude.{◌≡◌, ◌≤◌, [], IfOk, OnOk, OnErr, IsErr, IsTrue, IsFalse};
ghost use Rattle.std.specs.Prelude.{vec_len, vec_capacity};
ghost use Rattle.tql_journal.specs.Seals.{HoldsBytes};
ghost use Rattle.tql_journal_desk.specs.Order.{Steps, Notes, Pushes, Appended, HasNotAppended};
ghost use Rattle.tql_journal_desk.specs.Journals.{Puts, KeepsOne, Settles};

use crate::log::Log;
use std::alloc::AllocError;
use tql_journal::seal::Seal;
use tql_memory::Memory;
use tql_result::device::DeviceFault;

/// The number of bytes of the journal that are buffered at most.
const ROOM: usize = 65_536;

/// Appends bytes to a log, unless the journal has failed.
fn append_to<L: Log>(log: &mut L, bytes: &[u8], failed: bool) -> Result<(), DeviceFault>
    ensures ok { OnOk result (Steps (Appended bytes.now) (L.content log.old) (L.content log.new)) }
    ensures err { OnErr result (Steps HasNotAppended (L.content log.old) (L.content log.new)) }
    ensures failed { IsTrue failed → IsErr result }
{
    if failed {
        Err(DeviceFault)
    } else {
        log.append(bytes)
    }
}

/// A journal that is written to a log. After a failed append or sync it has failed for good: nothing more is written,
/// and `settle` fails.
#[derive(Drop)]
pub struct Journal<L> {
    log: L,
    seal: Seal,
    /// Bytes that are not in the log yet.
    lines: Vec<u8, Memory>,
    /// Whether something was kept since the last sync.
    owes: bool,
    failed: bool,
    ghost room: { 65_536 ≤ vec_capacity lines },
    ghost most: { vec_len lines ≤ 65_536 },
}

impl<L: Log + Drop> Journal<L> {
    /// Continues the journal that is in the log and that the seal holds. All of it has to be durable. The only error is
    /// a failed allocation, of a buffer of 65,536 bytes.
    pub fn new(log: L, seal: Seal, memory: Memory) -> Result<Journal<L>, AllocError>
        ensures log { IfOk result (λ j. j.log ≡ log) }
        ensures seal { IfOk result (λ j. j.seal ≡ seal) }
        ensures lines { IfOk result (λ j. j.lines.items ≡ []) }
        ensures owes { IfOk result (λ j. IsFalse j.owes) }
        ensures failed { IfOk result (λ j. IsFalse j.failed) }
    {
        let lines = Vec::with_capacity(memory, ROOM)?;
        Ok(Journal {
            log,
            seal,
            lines,
            owes: false,
            failed: false,
        })
    }

    /// Whether a write or a sync failed. Nothing is kept from then on.
    pub fn has_failed(&self) -> bool
        ensures { result ≡ self.now.failed }
    {
        self.failed
    }

    /// Appends bytes to the log, unless the journal has failed.
    fn append(&mut self, bytes: &[u8])
        requires { self.old.lines.items ≡ [] }
        ensures puts { Steps (Puts bytes.now self.new.failed self.old.lines.items self.new.lines.items)
            (L.content self.old.log) (L.content self.new.log) }
        ensures failed { IsTrue self.old.failed → IsTrue self.new.failed }
        ensures seal { self.new.seal ≡ self.old.seal }
        ensures owes { self.new.owes ≡ self.old.owes }
        ensures lines { self.new.lines ≡ self.old.lines }
    {
        self.failed = append_to(&mut self.log, bytes, self.failed).is_err();
    }

    /// Writes the buffered bytes.
    fn write_lines(&mut self)
        ensures puts { Steps (Puts [] self.new.failed self.old.lines.items self.new.lines.items)
            (L.content self.old.log) (L.content self.new.log) }
        ensures failed { IsTrue self.old.failed → IsTrue self.new.failed }
        ensures seal { self.new.seal ≡ self.old.seal }
        ensures owes { self.new.owes ≡ self.old.owes }
        ensures lines { self.new.lines.items ≡ [] }
    {
        self.failed = append_to(&mut self.log, self.lines.as_slice(), self.failed).is_err();
        self.lines.clear();
    }

    /// Adds bytes to the journal.
    fn put(&mut self, bytes: &[u8])
        ensures puts { Steps (Puts bytes.now self.new.failed self.old.lines.items self.new.lines.items)
            (L.content self.old.log) (L.content self.new.log) }
        ensures failed { IsTrue self.old.failed → IsTrue self.new.failed }
        ensures seal { self.new.seal ≡ self.old.seal }
        ensures owes { self.new.owes ≡ self.old.owes }
    {
        if bytes.len() <= ROOM - self.lines.len() {
            let _taken = self.lines.extend_from_slice(bytes);
        } else {
            self.write_lines();
            if bytes.len() <= ROOM {
                let _taken = self.lines.extend_from_slice(bytes);
            } else {
                self.append(bytes);
            }
        }
    }

    /// Keeps a statement. It allocates nothing, and cannot fail: a failure shows at the next `settle`.
    pub fn keep(&mut self, text: &[u8])
        ensures keeps { Steps (KeepsOne text.now self.new.failed (HoldsBytes self.old.seal) (HoldsBytes self.new.seal)
            self.old.lines.items self.new.lines.items) (L.content self.old.log) (L.content self.new.log) }
        ensures failed { IsTrue self.old.failed → IsTrue self.new.failed }
        ensures owes { IsTrue self.new.owes }
    {
        self.log.note_kept(text);
        let digits = self.seal.close(text);
        self.put(text);
        self.put(b";\n-- ");
        self.put(digits.as_slice());
        self.put(b"\n");
        self.owes = true;
    }

    /// Notes that bytes of a reply are pushed.
    pub(crate) fn note_pushed(&mut self, bytes: &[u8])
        ensures content { Steps (Notes (Pushes bytes.now)) (L.content self.old.log) (L.content self.new.log) }
        ensures seal { self.new.seal ≡ self.old.seal }
        ensures lines { self.new.lines ≡ self.old.lines }
        ensures owes { self.new.owes ≡ self.old.owes }
        ensures failed { self.new.failed ≡ self.old.failed }
    {
        self.log.note_pushed(bytes);
    }

    /// Makes durable what was kept. If nothing was kept since the last time, it does nothing.
    pub fn settle(&mut self) -> Result<(), DeviceFault>
        ensures settles { Steps (Settles self.old.owes self.new.failed self.old.lines.items self.new.lines.items)
            (L.content self.old.log) (L.content self.new.log) }
        ensures failed { IsTrue self.old.failed → IsTrue self.new.failed }
        ensures seal { self.new.seal ≡ self.old.seal }
        ensures ok { OnOk result (IsFalse self.new.failed) }
        ensures owes { OnOk result (IsFalse self.new.owes) }
        ensures err { OnErr result (IsTrue self.new.failed) }
    {
        if self.owes {
            self.write_lines();
            if !self.failed {
                self.failed = self.log.sync().is_err();
            }
            self.owes = self.failed;
        }
        if self.failed {
            Err(DeviceFault)
        } else {
            Ok(())
        }
    }
}
