//! Memory that is kept back from statements that may keep memory when they have ended, so that if these fill the rest,
//! others still run. It is no block: while such a statement runs, it may not reach the last bytes of the limit.
//!
//! A DELETE keeps its rows as history, so it could fill all that it may take. Therefore it may not take the last `LAST`
//! bytes of the reserve. A query may, but for the last `FREEING` bytes: these are for statements that free memory. So
//! queries, PRUNE HISTORY, DROP TABLE and CLOSE READER run in any case.
ghost use Rattle.std.specs.Prelude.{◌≡◌};
ghost use Rattle.tql_syntax_tree.specs.Statements.{statement_of};
ghost use Rattle.tql_engine_step.specs.Lending.{kept_from};

use tql_memory::Memory;
use tql_syntax_tree::statement::Statement;

/// The number of bytes that DELETE may not take: enough to read and to run a text of 4,096 bytes.
pub(crate) const LAST: usize = 65_536;

/// The number of these bytes that queries may not take either.
const FREEING: usize = 32_768;

/// Returns how many bytes of the reserve stay kept back from a statement that was refused for memory and runs once
/// more. Returns None if the statement may keep memory when it has ended, so that nothing is lent to it.
pub(crate) fn kept_from(reserve: usize, statement: &Statement<'_>) -> Option<usize>
    ensures { result ≡ kept_from reserve (statement_of statement.now) }
{
    match statement {
        Statement::Create(_)
        | Statement::Insert(_)
        | Statement::Update(_)
        | Statement::OpenReader(_) => None,
        Statement::Delete(delete) => match &delete.portion {
            Some(_) => None,
            None => Some(reserve.min(LAST)),
        },
        Statement::Query(_)
        | Statement::Read(_, _)
        | Statement::At(_)
        | Statement::StartTransaction => Some(reserve.min(FREEING)),
        Statement::DropTable(_)
        | Statement::Prune(_)
        | Statement::CloseReader(_)
        | Statement::Commit
        | Statement::Rollback => Some(0),
    }
}

/// Whether the memory that a statement keeps or frees is counted, given how many bytes stayed kept back from it. That
/// of a query is not: its reply takes memory, and does not keep it.
pub(crate) fn is_counted(reserve: usize, kept: usize) -> bool {
    kept != reserve.min(FREEING)
}

/// Whether a block of one byte is granted.
pub(crate) fn has_room(memory: Memory) -> bool {
    Box::new(memory, 0u8).is_ok()
}

/// Returns how many bytes statements keep of the reserve, after one that was lent memory: `before` and `after` are the
/// bytes in use before and after it.
pub(crate) fn lent_after(lent: usize, before: usize, after: usize) -> usize {
    lent.saturating_add(after).saturating_sub(before)
}

/// Returns how many bytes stay kept back from a statement that may keep memory. What DELETEs have kept of the reserve
/// is not held against it, and `LAST` more bytes, in which it can be read.
pub(crate) fn kept_now(reserve: usize, lent: usize) -> usize {
    if lent == 0 {
        reserve
    } else {
        reserve
            .saturating_sub(lent)
            .saturating_sub(LAST)
            .max(reserve.min(3 * LAST))
    }
}

/// Returns how many bytes the text of a CLOSE READER may take to be read, with a name of `length` bytes: its text has
/// up to twice as many if each character of it is quoted, in a buffer that grows to twice its length; and the name is
/// copied.
pub(crate) fn room_to_close(length: usize) -> usize {
    length.saturating_mul(8).saturating_add(8_192)
}
