//! Names in a list: tests for a given name and for repeated names.
ghost use Rattle.std.specs.Prelude.{◌≡◌, ℕ, List, is_some, map};
ghost use Rattle.tql_spec.specs.Creation as creation;

use crate::about::{About, Cause};
use crate::scope::Known;
use crate::texts::{Word, is_same_text};

/// An item with a name.
pub trait HasName {
    /// The bytes of the name.
    ghost named: { Self → List ℕ };

    /// Returns the name.
    fn name(&self) -> &str
        ensures { result.now ≡ named self.now };

    /// Returns the byte offset of the name in the statement's text.
    fn start(&self) -> u32;
}

impl HasName for Word {
    ghost use Rattle.std.specs.Prelude.{string_bytes};

    ghost named = { λ w. string_bytes w.text };

    fn name(&self) -> &str {
        self.text.as_str()
    }

    fn start(&self) -> u32 {
        self.start
    }
}

impl HasName for Known<'_> {
    ghost named = { λ k. k.name.now };

    fn name(&self) -> &str {
        self.name
    }

    fn start(&self) -> u32 {
        self.start
    }
}

/// Whether an item has the name.
pub fn has_name<T: HasName>(items: &[T], name: &str) -> bool
    ensures { result ≡ creation.has_name name.now (map T.named items.now) }
{
    for item in items {
        if is_same_text(name, item.name()) {
            return true;
        }
    }
    false
}

/// Returns the first item whose name a later item has too.
pub fn repeated<T: HasName>(items: &[T]) -> Option<&T>
    ensures { is_some result ≡ creation.repeats (map T.named items.now) }
{
    let mut left = items;
    while let [item, others @ ..] = left {
        if has_name(others, item.name()) {
            return Some(item);
        }
        left = others;
    }
    None
}

/// Returns the cause and place of the fault that a name is repeated.
pub fn about_repeated<T: HasName>(repeated: Option<&T>) -> About {
    match repeated {
        Some(item) => About::at(Cause::Repeated, item.start()),
        None => About::unknown(),
    }
}
