//! The part of a stream that is not scanned yet.
ghost use Rattle.std.specs.Prelude.{◌≡◌, ◌≤◌, length, drop, IfOk, [], List};
ghost use Rattle.tql_spec.specs.Words.{is_empty};
ghost use Rattle.tql_splitter.specs.Plain.{plain_front};
ghost use Rattle.tql_splitter.specs.Ready.{TakesByte};

use crate::scan_state::plain_length;
use crate::splitter::LONGEST_PART;
use std::alloc::AllocError;
use std::marker::Model;
use tql_memory::Memory;

/// The bytes that were fed but not scanned yet: one part at most.
#[derive(Drop)]
pub(crate) struct Ready {
    bytes: Vec<u8, Memory>,
    next: usize,
}

impl Model for Ready {
    ghost use Rattle.std.specs.Prelude.{◌≤◌, ℕ, List, drop, vec_len, vec_capacity};

    ghost Value = { List ℕ };

    ghost view = { λ r. drop r.next r.bytes.items };

    ghost invariant = { λ r. (r.next ≤ vec_len r.bytes) × (65_536 ≤ vec_capacity r.bytes) };
}

impl Ready {
    /// Creates an empty buffer with room for one part. The only error is a failed allocation.
    pub(crate) fn new(memory: Memory) -> Result<Ready, AllocError>
        ensures { IfOk result (λ r. r ≡ List.[]) }
    {
        let bytes = Vec::with_capacity(memory, LONGEST_PART)?;
        Ok(Ready { bytes, next: 0 })
    }

    /// Replaces the content with a part. It allocates nothing, as there is room for a part.
    pub(crate) fn fill(&mut self, part: &[u8])
        requires { length part.now ≤ 65_536 }
        ensures { self.new ≡ part.now }
    {
        self.next = 0;
        self.bytes.clear();
        let _taken = self.bytes.extend_from_slice(part);
    }

    /// Removes and returns the next byte.
    pub(crate) fn take(&mut self) -> Option<u8>
        ensures { TakesByte self.old result self.new }
    {
        let byte = *self.bytes.get(self.next)?;
        self.next += 1;
        Some(byte)
    }

    /// Returns the plain bytes at the front.
    pub(crate) fn plain(&self) -> &[u8]
        ensures { result.now ≡ plain_front self.now }
    {
        let (_, left) = self.bytes.as_slice().split_at(self.next);
        let (run, _) = left.split_at(plain_length(left));
        run
    }

    /// Skips `count` bytes.
    pub(crate) fn skip(&mut self, count: usize)
        requires { count ≤ length self.old }
        ensures { self.new ≡ drop count self.old }
    {
        self.next += count;
    }

    /// Whether no byte is left.
    pub(crate) fn is_empty(&self) -> bool
        ensures { result ≡ is_empty self.now }
    {
        let bytes = self.bytes.as_slice();
        self.next == bytes.len()
    }
}
