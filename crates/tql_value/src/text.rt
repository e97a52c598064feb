//! A text in memory of its own.
ghost use Rattle.std.specs.Prelude.{◌≡◌, IfOk};
ghost use Rattle.tql_spec.specs.Datum.{characters as characters_of};

use std::alloc::AllocError;
use std::marker::Model;
use tql_memory::Memory;

/// A text that owns its memory. Its model is the list of its UTF-8 bytes.
#[derive(Drop, Debug)]
pub struct Text {
    inner: String<Memory>,
}

impl Model for Text {
    ghost use Rattle.std.specs.Prelude.{List, ℕ, string_bytes};

    ghost Value = { List ℕ };

    ghost view = { λ t. string_bytes t.inner };
}

impl Text {
    /// Copies a text into memory of its own.
    pub fn copy_of(memory: Memory, text: &str) -> Result<Text, AllocError>
        ensures { IfOk result (λ t. t ≡ text.now) }
    {
        Ok(Text {
            inner: String::from_str(memory, text)?,
        })
    }

    /// Returns the text for reading.
    pub fn as_str(&self) -> &str
        ensures { result.now ≡ self.now }
    {
        self.inner.as_str()
    }
}

/// Returns the number of characters of a text.
pub fn characters(text: &str) -> usize
    ensures { result ≡ characters_of text.now }
{
    text.chars().count()
}

impl From<String<Memory>> for Text {
    ghost use Rattle.std.specs.Prelude.{◌≡◌, string_bytes};

    ghost from_gives = { λ s t. t ≡ string_bytes s };

    fn from(inner: String<Memory>) -> Self {
        Text { inner }
    }
}

impl Clone for Text {
    ghost use Rattle.std.specs.Prelude.{◌≡◌};

    ghost is_clone = { λ s t. t ≡ s };

    fn clone(&self) -> Result<Text, AllocError> {
        Ok(Text {
            inner: self.inner.clone()?,
        })
    }
}
