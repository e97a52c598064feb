//! Bound table references.

use tql_value::when::When;

/// A table reference: the index of its table, the versions that it reads, and the number of its columns.
#[derive(Clone, Copy)]
pub struct Reference {
    pub table: usize,
    pub when: When,
    pub width: usize,
}
