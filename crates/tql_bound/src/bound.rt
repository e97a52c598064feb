//! Bound statements: names are resolved to the indexes of tables and columns.
use crate::change::{Insertion, Modification, QueryInsertion};
use crate::query::BoundQuery;
use crate::reader::ReaderQuery;
use tql_catalog::table_def::TableDef;
use tql_memory::Memory;

/// A bound statement.
#[derive(Drop)]
pub enum Bound {
    /// CREATE TABLE.
    CreateTable(TableDef),
    /// DROP TABLE of the table at this index.
    DropTable(usize),
    /// INSERT of tuples.
    Insert(Insertion),
    /// INSERT from a query.
    InsertFrom(QueryInsertion),
    /// UPDATE and DELETE.
    Modify(Modification),
    /// SELECT.
    AnswerQuery(BoundQuery),
    /// AT, with the moment in microseconds since 1970-01-01.
    SetClock(i64),
    /// PRUNE HISTORY, with the moment in microseconds since 1970-01-01.
    Prune(i64),
    /// OPEN READER, with the reader's name.
    OpenReader(String<Memory>),
    /// READ.
    Read(ReaderQuery),
    /// CLOSE READER, with the reader's name.
    CloseReader(String<Memory>),
    /// START TRANSACTION.
    Start,
    /// COMMIT.
    Commit,
    /// ROLLBACK.
    Rollback,
}
