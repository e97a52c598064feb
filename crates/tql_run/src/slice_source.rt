//! A source over bytes in memory.
ghost use Rattle.std.specs.Prelude.{◌≡◌, Some, IsFalse};

use crate::device::{Input, Source};
use tql_result::device::DeviceFault;
use tql_result::sink::Sink;

/// A source over bytes in memory. Its remaining bytes are known, and it never fails.
#[derive(Drop)]
pub struct SliceSource<'a> {
    left: &'a [u8],
    /// The maximum number of bytes in a pull; 0 counts as 1.
    size: usize,
    ended: bool,
}

impl<'a> SliceSource<'a> {
    /// Returns a source of these bytes. Each pull fills the buffer as far as possible.
    pub fn new(bytes: &'a [u8]) -> SliceSource<'a>
        ensures left { ⟦<SliceSource<'a> as Input>⟧.left result ≡ Some bytes.now }
        ensures failures { ⟦<SliceSource<'a> as Input>⟧.failures result ≡ 0 }
        ensures ended { IsFalse (⟦<SliceSource<'a> as Input>⟧.ended result) }
    {
        SliceSource::in_pieces(bytes, usize::MAX)
    }

    /// Returns a source of these bytes. Each pull gives at most `size` bytes; a size of 0 counts as 1.
    pub fn in_pieces(bytes: &'a [u8], size: usize) -> SliceSource<'a>
        ensures left { ⟦<SliceSource<'a> as Input>⟧.left result ≡ Some bytes.now }
        ensures failures { ⟦<SliceSource<'a> as Input>⟧.failures result ≡ 0 }
        ensures ended { IsFalse (⟦<SliceSource<'a> as Input>⟧.ended result) }
    {
        SliceSource {
            left: bytes,
            size,
            ended: false,
        }
    }
}

impl Input for SliceSource<'_> {
    ghost left = { λ s. Some s.left.now };

    ghost failures = { λ _. 0 };

    ghost ended = { λ s. s.ended };

    fn faults(&self) -> u64 {
        0
    }
}

impl<O: Sink> Source<O> for SliceSource<'_> {
    fn pull(&mut self, _sink: &O, buffer: &mut [u8]) -> Result<usize, DeviceFault> {
        let count = self.size.max(1).min(self.left.len()).min(buffer.len());
        let (given, left) = self.left.split_at(count);
        buffer[..count].copy_from_slice(given);
        self.left = left;
        self.ended = count == 0 && !buffer.is_empty();
        Ok(count)
    }
}
