//! Places in a script, or in a part of it.

/// Whether a byte is the first byte of a UTF-8 character.
fn begins_character(byte: u8) -> bool {
    byte & 0xc0 != 0x80
}

/// A line and a character in it, both counted from 1. Both saturate at 2^64 - 1.
#[derive(Clone, Copy, PartialEq, Eq, Debug)]
pub struct Place {
    pub line: u64,
    pub column: u64,
}

impl Place {
    /// Returns the first place of a text.
    pub fn first() -> Place {
        Place { line: 1, column: 1 }
    }

    /// Returns the place after a byte at this place.
    fn next(self, byte: u8) -> Place {
        if byte == b'\n' {
            Place {
                line: self.line.saturating_add(1),
                column: 1,
            }
        } else if begins_character(byte) {
            Place {
                line: self.line,
                column: self.column.saturating_add(1),
            }
        } else {
            self
        }
    }

    /// Returns the place after these bytes, which are a prefix of a text.
    pub fn behind(bytes: &[u8]) -> Place {
        let mut place = Place::first();
        for byte in bytes {
            place = place.next(*byte);
        }
        place
    }

    /// Returns this place of a text as a place in the script. The text begins on line `line`, after `before` characters
    /// of that line.
    pub fn within(self, line: u64, before: u64) -> Place {
        let column = if self.line == 1 {
            self.column.saturating_add(before)
        } else {
            self.column
        };
        Place {
            line: self.line.saturating_sub(1).saturating_add(line),
            column,
        }
    }
}
