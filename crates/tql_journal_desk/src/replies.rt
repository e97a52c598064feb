//! Replies that are held back.
ghost use Rattle.std.specs.Prelude.{◌≡◌, ◌≤◌, ◌-◌, ◌==◌, [], ◌++◌, min, length, IfOk, OnOk, vec_len, vec_capacity};
ghost use Rattle.tql_journal_desk.specs.Order.{Steps};
ghost use Rattle.tql_journal_desk.specs.Held.{held_of, Leaves};

use crate::out::Out;
use std::alloc::AllocError;
use tql_memory::Memory;
use tql_result::device::DeviceFault;

/// The number of bytes of replies that are held at most.
const ROOM: usize = 65_536;

/// Replies that are held back, and where they go.
#[derive(Drop)]
pub(crate) struct Replies<O> {
    out: O,
    /// Bytes of replies, of which the first `sent` have left.
    bytes: Vec<u8, Memory>,
    sent: usize,
    ghost room: { 65_536 ≤ vec_capacity bytes },
    ghost within: { sent ≤ vec_len bytes },
    ghost most: { vec_len bytes ≤ 65_536 },
}

impl<O: Out + Drop> Replies<O> {
    /// Returns a place for replies that holds none. The only error is a failed allocation, of a buffer of 65,536 bytes.
    pub(crate) fn new(out: O, memory: Memory) -> Result<Replies<O>, AllocError>
        ensures out { IfOk result (λ r. r.out ≡ out) }
        ensures held { IfOk result (λ r. held_of r.sent r.bytes.items ≡ []) }
    {
        let bytes = Vec::with_capacity(memory, ROOM)?;
        Ok(Replies {
            out,
            bytes,
            sent: 0,
        })
    }

    /// Whether there is no room for a byte.
    pub(crate) fn is_full(&self) -> bool
        ensures { result ≡ (vec_len self.now.bytes == 65_536) }
    {
        self.bytes.len() == ROOM
    }

    /// Returns how many of `count` bytes there is room for.
    pub(crate) fn fitting(&self, count: usize) -> usize
        ensures { result ≡ min count (65_536 - vec_len self.now.bytes) }
    {
        let room = ROOM - self.bytes.len();
        if count <= room { count } else { room }
    }

    /// Holds bytes of a reply for which there is room.
    pub(crate) fn hold(&mut self, bytes: &[u8])
        requires { length bytes.now ≤ 65_536 - vec_len self.old.bytes }
        ensures out { self.new.out ≡ self.old.out }
        ensures held { held_of self.new.sent self.new.bytes.items
            ≡ held_of self.old.sent self.old.bytes.items ++ bytes.now }
    {
        let _taken = self.bytes.extend_from_slice(bytes);
    }

    /// Sends the bytes that are held.
    pub(crate) fn send(&mut self) -> Result<(), DeviceFault>
        ensures leaves { Steps (Leaves (held_of self.old.sent self.old.bytes.items)
            (held_of self.new.sent self.new.bytes.items)) (O.sent self.old.out) (O.sent self.new.out) }
        ensures empty { OnOk result (self.new.bytes.items ≡ []) }
    {
        while self.sent < self.bytes.len() {
            let count = self.out.send(&self.bytes.as_slice()[self.sent..])?;
            if count == 0 {
                return Err(DeviceFault);
            }
            self.sent += count;
        }
        self.sent = 0;
        self.bytes.clear();
        Ok(())
    }

    /// Passes on what has left to where it goes.
    pub(crate) fn flush(&mut self) -> Result<(), DeviceFault>
        ensures leaves { Steps (Leaves [] []) (O.sent self.old.out) (O.sent self.new.out) }
        ensures sent { self.new.sent ≡ self.old.sent }
        ensures bytes { self.new.bytes ≡ self.old.bytes }
    {
        self.out.flush()
    }
}
