//! The reply to a statement: done, a table, or a refusal.
use tql_value::refusal::Refusal;
use tql_value::value::ResultTable;

/// What a statement did: the words at the beginning of its reply.
#[derive(Clone, Copy, PartialEq, Eq, Debug)]
pub enum Verb {
    /// `CREATE TABLE`
    CreatedTable,
    /// `DROP TABLE`
    DroppedTable,
    /// `INSERT`
    Inserted,
    /// `UPDATE`
    Updated,
    /// `DELETE`
    Deleted,
    /// `START TRANSACTION`
    Started,
    /// `COMMIT`
    Committed,
    /// `ROLLBACK`
    RolledBack,
    /// `AT`
    ClockSet,
    /// `PRUNE HISTORY`
    Pruned,
    /// `OPEN READER`
    OpenedReader,
    /// `CLOSE READER`
    ClosedReader,
}

/// The reply to a statement.
pub enum Reply {
    /// The statement was executed. The number of rows is given for statements that count rows.
    Done(Verb, Option<u64>),
    /// The result table of a query.
    Table(ResultTable),
    /// The statement was refused, and nothing has changed.
    Refused(Refusal),
}

impl Drop for Reply {
    fn drop(self) {
        match self {
            Reply::Done(_, _) | Reply::Refused(_) => {}
            Reply::Table(rows) => drop(rows),
        }
    }
}

impl Verb {
    ghost use Rattle.std.specs.Prelude.{◌≡◌};
    ghost use Rattle.tql_spec.specs.Text.{verb_text};
    ghost use Rattle.tql_result.specs.Replies.{plain_verb};

    /// Returns the words as printed.
    pub fn text(self) -> &'static str
        ensures { result.now ≡ verb_text (plain_verb self) }
    {
        match self {
            Verb::CreatedTable => "CREATE TABLE",
            Verb::DroppedTable => "DROP TABLE",
            Verb::Inserted => "INSERT",
            Verb::Updated => "UPDATE",
            Verb::Deleted => "DELETE",
            Verb::Started => "START TRANSACTION",
            Verb::Committed => "COMMIT",
            Verb::RolledBack => "ROLLBACK",
            Verb::ClockSet => "AT",
            Verb::Pruned => "PRUNE HISTORY",
            Verb::OpenedReader => "OPEN READER",
            Verb::ClosedReader => "CLOSE READER",
        }
    }
}
