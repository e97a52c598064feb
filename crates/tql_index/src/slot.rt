//! The entries of an index.
ghost use Rattle.std.specs.Prelude.{◌≡◌};
ghost use Rattle.tql_index.specs.Slots.{entry_of};
ghost use Rattle.tql_index.specs.Tree.{entry_cmp};

use crate::span::Span;
use std::cmp::Ordering;

/// A span and its number.
#[derive(Clone, Copy)]
pub struct Slot {
    /// The span.
    pub span: Span,
    /// The number.
    pub id: usize,
}

impl Slot {
    /// Compares two entries: by start, then by end, then by number.
    pub fn compare(self, other: Slot) -> Ordering
        ensures { result ≡ entry_cmp (entry_of self) (entry_of other) }
    {
        self.span.compare(other.span).then(self.id.cmp(&other.id))
    }
}
