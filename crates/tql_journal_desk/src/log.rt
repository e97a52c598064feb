//! The file that a journal is written to.
ghost use Rattle.std.specs.Prelude.{List, Option, None, OnOk, OnErr};
ghost use Rattle.tql_journal_desk.specs.Order.{Content, Steps, Notes, Keeps, Pushes};
ghost use Rattle.tql_journal_desk.specs.Order.{Appended, HasNotAppended, Synced, HasNotSynced};

use std::fs::File;
use std::io::Write;
use tql_result::device::DeviceFault;

/// A file that is only appended to.
pub trait Log {
    /// What has happened, the bytes that it was given, and those that a crash leaves, at least. If they are not known,
    /// nothing is claimed about them.
    ghost content: { Self → Option Content };

    /// Notes that a statement is kept. Only proofs speak of it: a log in a file does nothing here.
    fn note_kept(&mut self, text: &[u8])
        ensures { Steps (Notes (Keeps text.now)) (content self.old) (content self.new) };

    /// Notes that bytes of a reply are pushed. Only proofs speak of it: a log in a file does nothing here.
    fn note_pushed(&mut self, bytes: &[u8])
        ensures { Steps (Notes (Pushes bytes.now)) (content self.old) (content self.new) };

    /// Appends all bytes. After an error, some of them may be in the file.
    fn append(&mut self, bytes: &[u8]) -> Result<(), DeviceFault>
        ensures ok { OnOk result (Steps (Appended bytes.now) (content self.old) (content self.new)) }
        ensures err { OnErr result (Steps HasNotAppended (content self.old) (content self.new)) };

    /// Makes all bytes durable.
    fn sync(&mut self) -> Result<(), DeviceFault>
        ensures ok { OnOk result (Steps Synced (content self.old) (content self.new)) }
        ensures err { OnErr result (Steps HasNotSynced (content self.old) (content self.new)) };
}

/// A file that was opened to append. What it contains after a crash is not known to a proof.
#[derive(Drop)]
pub struct FileLog {
    file: File,
}

impl FileLog {
    /// Returns the log in a file that was opened to append.
    pub fn new(file: File) -> FileLog {
        FileLog { file }
    }
}

impl Log for FileLog {
    ghost content = { λ _. None };

    fn note_kept(&mut self, _text: &[u8]) {}

    fn note_pushed(&mut self, _bytes: &[u8]) {}

    fn append(&mut self, bytes: &[u8]) -> Result<(), DeviceFault> {
        match self.file.write_all(bytes) {
            Ok(()) => Ok(()),
            Err(_) => Err(DeviceFault),
        }
    }

    fn sync(&mut self) -> Result<(), DeviceFault> {
        match self.file.sync_data() {
            Ok(()) => Ok(()),
            Err(_) => Err(DeviceFault),
        }
    }
}
