//! Open readers, and queries of them.
use crate::query::BoundQuery;
use tql_memory::Memory;

/// An open reader.
#[derive(Drop)]
pub struct Reader {
    /// The name as the statement that opened it spells it, after folding: a word in upper case, or the content of the
    /// quotes.
    pub name: String<Memory>,
    /// The moment of the last commit before it was opened, in microseconds since 1970-01-01. None if there was no
    /// commit.
    pub pin: Option<i64>,
}

/// READ.
#[derive(Drop)]
pub struct ReaderQuery {
    /// The name of the reader, after folding.
    pub reader: String<Memory>,
    /// The query, answered as of the reader's pin.
    pub query: BoundQuery,
}
