//! A window on a file: the bytes that were read and not passed yet.
ghost use Rattle.std.specs.Prelude.{◌≡◌, ◌≤◌, ◌-◌, List, [], length, take, drop, IfOk};
ghost use Rattle.tql_journal.specs.Windows.{Fills};

use std::alloc::AllocError;
use std::io::{self, ErrorKind, Read};
use std::marker::Model;
use tql_memory::Memory;

/// The number of bytes that a window has room for: the longest text, 1,048,576; its `;`, a line feed and its line, 70;
/// and a part of 65,536.
const ROOM: usize = 1_114_182;

/// The length of the longest file in bytes, 2^63 - 1.
const LONGEST_FILE: u64 = 9_223_372_036_854_775_807;

/// The bytes of a file that were read and not passed yet. It keeps at most 1,114,182 bytes.
#[derive(Drop)]
pub(crate) struct Window {
    bytes: Vec<u8, Memory>,
    start: usize,
    stop: usize,
    /// The number of bytes that were read.
    total: u64,
}

impl Model for Window {
    ghost use Rattle.std.specs.Prelude.{◌≡◌, ◌≤◌, ◌+◌, ◌-◌, ◌^◌, take, drop, vec_len};
    ghost use Rattle.tql_journal.specs.Windows.{Seen};

    ghost Value = { Seen };

    ghost view = { λ w. record { bytes = take (w.stop - w.start) (drop w.start w.bytes.items); total = w.total } };

    ghost invariant = { λ w. (w.start ≤ w.stop) × (w.stop ≤ vec_len w.bytes) × (vec_len w.bytes ≡ 1_114_182)
        × (w.total ≤ 2 ^ 63 + 1_114_182) };
}

/// Moves some of the bytes to the front.
fn move_to_front(bytes: &mut [u8], start: usize, stop: usize)
    requires order { start ≤ stop }
    requires within { stop ≤ length bytes.old }
    ensures length { length bytes.new ≡ length bytes.old }
    ensures front { take (stop - start) bytes.new ≡ take (stop - start) (drop start bytes.old) }
{
    bytes.copy_within(start..stop, 0);
}

impl Window {
    /// Returns a window at the beginning of a file. The only error is a failed allocation.
    pub(crate) fn new(memory: Memory) -> Result<Window, AllocError>
        ensures bytes { IfOk result (λ w. w.bytes ≡ List.[]) }
        ensures total { IfOk result (λ w. w.total ≡ 0) }
    {
        let mut bytes = Vec::new(memory);
        bytes.resize(ROOM, 0u8)?;
        Ok(Window {
            bytes,
            start: 0,
            stop: 0,
            total: 0,
        })
    }

    /// Returns the bytes.
    pub(crate) fn view(&self) -> &[u8]
        ensures { result.now ≡ self.now.bytes }
    {
        &self.bytes[self.start..self.stop]
    }

    /// Returns the number of bytes that were read.
    pub(crate) fn total(&self) -> u64
        ensures { result ≡ self.now.total }
    {
        self.total
    }

    /// Passes bytes.
    pub(crate) fn skip(&mut self, count: usize)
        requires { count ≤ length self.old.bytes }
        ensures bytes { self.new.bytes ≡ drop count self.old.bytes }
        ensures total { self.new.total ≡ self.old.total }
    {
        self.start += count;
    }

    /// Reads on until the window is full or the file ends, and returns whether the file has ended. A file of more than
    /// 2^63 - 1 bytes is an error.
    pub(crate) fn fill<R: Read>(&mut self, reader: &mut R) -> io::Result<bool>
        ensures { IfOk result (λ is_ended. Fills (R.remaining reader.old) (R.remaining reader.new) is_ended
            self.old self.new) }
    {
        move_to_front(self.bytes.as_mut_slice(), self.start, self.stop);
        self.stop -= self.start;
        self.start = 0;
        while self.stop < ROOM {
            if self.total > LONGEST_FILE {
                return Err(io::Error::from(ErrorKind::FileTooLarge));
            }
            let count = reader.read(&mut self.bytes.as_mut_slice()[self.stop..])?;
            if count == 0 {
                return Ok(true);
            }
            self.stop += count;
            self.total += count as u64;
        }
        Ok(false)
    }
}
