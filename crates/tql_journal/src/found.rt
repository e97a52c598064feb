//! What is found in a file that is read as a journal.
use crate::seal::{DIGITS, Seal};

/// What follows the longest journal that a file begins with.
#[derive(Clone, Copy, PartialEq, Eq, Debug)]
pub enum Rest {
    /// Nothing: the file is a journal, or empty.
    Nothing,
    /// A beginning of a statement with its line, or of the first line, as a crash leaves it. It was never answered.
    Torn,
    /// Bytes that no crash leaves, or among which is a line like that of a statement: something was changed.
    Damaged,
}

/// What was found in a file.
#[derive(Drop)]
pub struct Found {
    /// The seal of the longest journal that the file begins with. If it begins with none, that of an empty journal.
    pub seal: Seal,
    /// The length of that journal in bytes; 0 if there is none.
    pub end: u64,
    /// The number of its statements.
    pub statements: u64,
    /// The number of its lines. What follows it begins on the line after these.
    pub lines: u64,
    /// The digits of its last line, if it has a statement.
    pub last: Option<[u8; DIGITS]>,
    /// Whether the line that was looked up is one of a statement in it.
    pub has_line: bool,
    /// What follows it.
    pub rest: Rest,
    /// The number of bytes that were read: all of the file, unless it is damaged.
    pub size: u64,
}
