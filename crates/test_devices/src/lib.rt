//! Devices that the test crates share: readers and writers with limited transfers that fail or end at a given call, and
//! an index that fails every lookup for lack of memory.
#![tactic(auto)]

pub mod mute;

use std::alloc::Global;
use std::io::{self, Error, ErrorKind, Read, Write};

/// The devices and the memory of a run of a script.
#[derive(Clone, Copy)]
pub struct Setting {
    /// The maximal number of bytes that a read returns, and that a write accepts.
    pub size: usize,
    pub taken: usize,
    /// The number of reads that return bytes. After them the input ends, whatever is left.
    pub giving: u64,
    /// The number of reads, of writes and of flushes that succeed.
    pub reads: u64,
    pub writes: u64,
    pub flushes: u64,
    /// The number of allocations that succeed.
    pub granted: u64,
}

/// Devices that do not fail, and unlimited memory.
pub const SOUND: Setting = Setting {
    size: usize::MAX,
    taken: usize::MAX,
    giving: u64::MAX,
    reads: u64::MAX,
    writes: u64::MAX,
    flushes: u64::MAX,
    granted: u64::MAX,
};

impl Setting {
    /// Returns a reader of a script.
    pub fn reader<'a>(&self, script: &'a [u8]) -> Chunks<'a> {
        Chunks {
            left: script,
            size: self.size,
            giving_left: self.giving,
            reads_left: self.reads,
            interrupts: 0,
            interrupts_left: 0,
        }
    }

    /// Returns an empty writer.
    pub fn writer(&self, alloc: Global) -> Kept {
        Kept {
            bytes: Vec::new(alloc),
            size: self.taken,
            writes_left: self.writes,
            flushes_left: self.flushes,
            failed_writes: 0,
            failed_flushes: 0,
        }
    }
}

/// A reader that returns at most `size` bytes at once. It fails if no reads are left, and reports the end of the input
/// if `giving_left` is 0. Each read is interrupted `interrupts` times first.
#[derive(Drop)]
pub struct Chunks<'a> {
    pub left: &'a [u8],
    pub size: usize,
    pub giving_left: u64,
    pub reads_left: u64,
    pub interrupts: u64,
    pub interrupts_left: u64,
}

impl Read for Chunks<'_> {
    fn read(&mut self, buf: &mut [u8]) -> io::Result<usize> {
        if let Some(left) = self.interrupts_left.checked_sub(1) {
            self.interrupts_left = left;
            return Err(Error::from(ErrorKind::Interrupted));
        }
        self.interrupts_left = self.interrupts;
        let Some(reads_left) = self.reads_left.checked_sub(1) else {
            return Err(Error::from(ErrorKind::BrokenPipe));
        };
        self.reads_left = reads_left;
        let Some(giving_left) = self.giving_left.checked_sub(1) else {
            return Ok(0);
        };
        self.giving_left = giving_left;
        let count = self.size.min(self.left.len()).min(buf.len());
        let (given, left) = self.left.split_at(count);
        buf[..count].copy_from_slice(given);
        self.left = left;
        Ok(count)
    }
}

/// A writer that accepts at most `size` bytes at once, and fails if no writes, or no flushes, are left. It counts the
/// writes that failed or accepted none of some bytes, and the flushes that failed.
#[derive(Drop)]
pub struct Kept {
    pub bytes: Vec<u8>,
    pub size: usize,
    pub writes_left: u64,
    pub flushes_left: u64,
    pub failed_writes: u64,
    pub failed_flushes: u64,
}

impl Write for Kept {
    fn write(&mut self, buf: &[u8]) -> io::Result<usize> {
        let Some(writes_left) = self.writes_left.checked_sub(1) else {
            self.failed_writes = self.failed_writes.saturating_add(1);
            return Err(Error::from(ErrorKind::BrokenPipe));
        };
        self.writes_left = writes_left;
        let (taken, _) = buf.split_at(self.size.min(buf.len()));
        self.bytes.extend_from_slice(taken)?;
        if taken.is_empty() && !buf.is_empty() {
            self.failed_writes = self.failed_writes.saturating_add(1);
        }
        Ok(taken.len())
    }

    fn flush(&mut self) -> io::Result<()> {
        let Some(flushes_left) = self.flushes_left.checked_sub(1) else {
            self.failed_flushes = self.failed_flushes.saturating_add(1);
            return Err(Error::from(ErrorKind::BrokenPipe));
        };
        self.flushes_left = flushes_left;
        Ok(())
    }
}
