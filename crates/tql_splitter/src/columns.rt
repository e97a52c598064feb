//! Columns: the number of characters before a byte on its line.

/// Whether a byte may begin a UTF-8 character, that is, it is not a continuation byte.
fn begins_character(byte: u8) -> bool {
    byte & 0xc0 != 0x80
}

/// Three columns: of the next byte to scan, of the pending text's first byte, and of the first byte of the text that
/// was returned last.
#[derive(Clone, Copy, Debug)]
pub(crate) struct Columns {
    passed: u64,
    begun: u64,
    given: u64,
}

impl Columns {
    /// Returns the columns at the start of a script.
    pub(crate) fn new() -> Columns {
        Columns {
            passed: 0,
            begun: 0,
            given: 0,
        }
    }

    /// Returns the column of the text that was returned last.
    pub(crate) fn given(self) -> u64 {
        self.given
    }

    /// Records that a text may begin at the next byte.
    pub(crate) fn begin(&mut self) {
        self.begun = self.passed;
    }

    /// Records that the pending text is returned.
    pub(crate) fn give(&mut self) {
        self.given = self.begun;
    }

    /// Advances past a byte; a line feed resets the column. The count saturates at 2^64 - 1.
    pub(crate) fn pass(&mut self, byte: u8) {
        if byte == b'\n' {
            self.passed = 0;
        } else if begins_character(byte) {
            self.passed = self.passed.saturating_add(1);
        }
    }

    /// Advances past `count` ASCII bytes, none of them a line feed. The count saturates at 2^64 - 1.
    pub(crate) fn pass_ascii(&mut self, count: usize) {
        self.passed = self.passed.saturating_add(count as u64);
    }
}
