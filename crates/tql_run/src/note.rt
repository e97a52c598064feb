//! Notes of refused statements.
use tql_detail::detail::Detail;
use tql_value::refusal::Refusal;

/// A statement that was refused.
#[derive(Clone, Copy, PartialEq, Eq, Debug)]
pub struct Note {
    /// The number of the statement in the script, counted from 1 like the replies.
    pub statement: u64,
    /// The line of the first byte of the statement, not counting blanks and comments. Counted from 1.
    pub line: u64,
    /// Why it was refused.
    pub refusal: Refusal,
}

/// The detail of a refused statement.
#[derive(Drop)]
pub struct Told {
    /// The number of the statement, as in its note.
    pub statement: u64,
    /// The place of the fault, and a description of it.
    pub detail: Detail,
}
