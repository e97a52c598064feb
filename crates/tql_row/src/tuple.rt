//! The values of a key.
use smallvec::SmallVec;
use tql_memory::Memory;
use tql_value::value::View;

/// The values of a row in the columns of a key, borrowed from the row. Up to three of them take no allocation.
pub type KeyTuple<'a> = SmallVec<View<'a>, 3, Memory>;
