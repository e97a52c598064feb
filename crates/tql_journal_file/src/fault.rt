//! Why a file cannot be used as a journal.
ghost use Rattle.std.specs.Prelude.{◌≡◌};
ghost use Rattle.tql_journal_file.specs.Damages.{damage_of};

use std::alloc::AllocError;
use std::{fmt, io};
use tql_journal::found::Found;
use tql_journal::reader::ReadFault;
use tql_run::runner::Fault;
use tql_value::refusal::Refusal;

/// How far a file is a journal that is no beginning of one.
#[derive(Clone, Copy, PartialEq, Eq, Debug)]
pub struct Damage {
    /// The first line that is not what was written, counted from 1.
    pub line: u64,
    /// The number of statements before it.
    pub statements: u64,
    /// The number of bytes before it.
    pub end: u64,
}

impl Damage {
    /// Returns how far a file is a journal.
    pub fn of(found: &Found) -> Damage
        ensures { result ≡ damage_of found.now }
    {
        Damage {
            line: found.lines.saturating_add(1),
            statements: found.statements,
            end: found.end,
        }
    }
}

/// Why a file cannot be used as a journal.
#[derive(Drop)]
pub enum JournalFault {
    /// What the system answered.
    System(io::Error),
    /// Why it was not read.
    Unread(ReadFault),
    /// An allocation of a buffer failed.
    Memory(AllocError),
    /// It is a folder, a pipe or a device.
    NoFile,
    /// Another program has locked it.
    InUse,
    /// It is no beginning of a journal.
    Damaged(Damage),
    /// The statement that begins on this line was refused.
    Refused(u64, Refusal),
    /// The statement that begins on this line is none that a journal keeps.
    Unkept(u64),
    /// The run of it stopped.
    Stopped(Fault),
    /// The ROLLBACK of an open transaction could not be kept.
    Unwritten(Fault),
}

impl From<AllocError> for JournalFault {
    fn from(error: AllocError) -> JournalFault {
        JournalFault::Memory(error)
    }
}

impl From<io::Error> for JournalFault {
    fn from(error: io::Error) -> JournalFault {
        JournalFault::System(error)
    }
}

impl From<ReadFault> for JournalFault {
    fn from(fault: ReadFault) -> JournalFault {
        JournalFault::Unread(fault)
    }
}

impl fmt::Display for Damage {
    fn fmt<W: fmt::Write>(&self, f: &mut fmt::Formatter<W>) -> fmt::Result {
        let (line, statements, end) = (self.line, self.statements, self.end);
        if end == 0 {
            return f.write_str("line 1 is not '-- tql journal 1', so it is no journal");
        }
        write!(
            f,
            "from line {line} on it is not what was written; its first {statements} statements, {end} bytes, are"
        )
    }
}

/// Writes what follows the name of the file in a message.
impl fmt::Display for JournalFault {
    fn fmt<W: fmt::Write>(&self, f: &mut fmt::Formatter<W>) -> fmt::Result {
        match self {
            JournalFault::System(error) => write!(f, ": {error}"),
            JournalFault::Unread(ReadFault::Device(error)) => write!(f, ": {error}"),
            JournalFault::Memory(_) => f.write_str(": out of memory"),
            JournalFault::Unread(ReadFault::Memory(_)) => f.write_str(": out of memory"),
            JournalFault::NoFile => f.write_str(": it is no regular file"),
            JournalFault::InUse => f.write_str(" is in use by another program"),
            JournalFault::Damaged(damage) => write!(f, ": {damage}"),
            JournalFault::Refused(line, refusal) => {
                let text = refusal.text();
                write!(f, ", line {line}: {text}")
            }
            JournalFault::Unkept(line) => write!(
                f,
                ", line {line}: no journal keeps a statement that changes nothing"
            ),
            JournalFault::Stopped(_) => f.write_str(": it cannot be run"),
            JournalFault::Unwritten(_) => f.write_str(": it cannot be written"),
        }
    }
}
