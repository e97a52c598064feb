//! Boxing a value.
ghost use Rattle.std.specs.Prelude.{◌≡◌, IfOk};

use std::alloc::{AllocError, Allocator};

/// Boxes a value. The only error is a failed allocation.
pub(crate) fn boxed<T: Drop, A: Allocator>(memory: A, value: T) -> Result<Box<T, A>, AllocError>
    ensures { IfOk result (λ b. b.value ≡ value) }
{
    Ok(Box::new(memory, value)?)
}
