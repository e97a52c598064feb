//! The reading of a file as a journal.
use crate::fault::JournalFault;
use std::fs::{self, File};
use std::os::unix::fs::MetadataExt;
use tql_journal::found::Found;
use tql_journal::reader::read_journal;
use tql_memory::{Memory, memory_within};

/// Returns memory for the buffers of a journal. As those of a program, they are not within a bound of the engine.
pub(crate) fn buffers(rt: &HostRuntime) -> Result<Memory, JournalFault> {
    let memory = memory_within(rt.alloc(), usize::MAX)?;
    Ok(memory)
}

/// Refuses a path that names a folder, a pipe or a device. A file may be missing.
pub(crate) fn refuse_others(rt: &HostRuntime, path: &str) -> Result<(), JournalFault> {
    match fs::metadata(rt, path) {
        Ok(metadata) if !metadata.is_file() => Err(JournalFault::NoFile),
        _ => Ok(()),
    }
}

/// Reads a file as a journal, from where it is on, and looks up a line of 64 digits.
pub(crate) fn read_file(
    rt: &HostRuntime,
    file: &mut File,
    line: &str,
) -> Result<Found, JournalFault> {
    let memory = buffers(rt)?;
    let found = read_journal(file, memory, line.as_bytes())?;
    Ok(found)
}

/// Returns what is found in the file of this name, and whether it has this line. Nothing is locked, run or written.
pub fn found_in(rt: &HostRuntime, path: &str, line: &str) -> Result<Found, JournalFault> {
    refuse_others(rt, path)?;
    let mut file = File::open(rt, path)?;
    read_file(rt, &mut file, line)
}

/// Whether two paths name the same file, which exists.
pub fn is_same_file(rt: &HostRuntime, path: &str, other: &str) -> bool {
    match (fs::metadata(rt, path), fs::metadata(rt, other)) {
        (Ok(one), Ok(two)) => one.dev() == two.dev() && one.ino() == two.ino(),
        _ => false,
    }
}
