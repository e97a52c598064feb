//! Removing the quotes of names and texts.
ghost use Rattle.std.specs.Prelude.{◌≡◌, IfOk, string_bytes};
ghost use Rattle.tql_spec.specs.FirstToken.{content};

use crate::expression::Name;
use std::alloc::AllocError;
use tql_lex::folding::{folded, unquoted};
use tql_memory::Memory;

impl Name<'_> {
    ghost use Rattle.tql_syntax_tree.specs.Expressions.{name_of};

    /// Returns the normalized name: a word in upper case, or the content of the quotes with each doubled quote once.
    /// The only error is a failed allocation.
    pub fn meant(self, memory: Memory) -> Result<String<Memory>, AllocError>
        ensures { IfOk result (λ name. string_bytes name ≡ name_of self.entry) }
    {
        if self.is_quoted {
            unquoted(memory, '"', self.text)
        } else {
            folded(memory, self.text)
        }
    }
}

/// Returns the content of a quoted literal, with each doubled quote once. The only error is a failed allocation.
pub fn quoted_text(memory: Memory, quoted: &str) -> Result<String<Memory>, AllocError>
    ensures { IfOk result (λ text. string_bytes text ≡ content 39 quoted.now) }
{
    unquoted(memory, '\'', quoted)
}
