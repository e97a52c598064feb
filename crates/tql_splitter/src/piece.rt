//! The pieces that a script is split into.

/// The next piece of a script.
#[derive(Clone, Copy)]
pub enum Piece<'a> {
    /// A statement's text, without its `;`.
    Text(&'a [u8]),
    /// A statement of more than 1,048,576 bytes.
    TooLong,
    /// A statement of more than 65,536 bytes for which an allocation failed.
    NoMemory,
    /// The text at the end of the input, without a `;` after it.
    Unfinished(&'a [u8]),
}
