//! What a fault is about: its cause and its place in the statement. The crate `tql_bind_message` builds the message of
//! a refusal from it. No contract depends on it.
use tql_value::value::Kind;

/// Why a statement is refused.
#[derive(Clone, Copy, PartialEq, Eq, Debug)]
pub enum Cause {
    /// The cause is not known.
    Unknown,
    /// No table has the name at `at`.
    NoTable,
    /// A table already has the name at `at`.
    TableThere,
    /// A new table references itself by the name at `at`.
    OwnParent,
    /// No column has the name at `at`.
    NoColumn,
    /// Several columns have the name at `at`: `to` and `also` are the table references of the first two.
    Ambiguous,
    /// The name at `at` is that of a period, and a column is required.
    PeriodForColumn,
    /// No period has the name at `at`.
    NoPeriod,
    /// Not exactly one period, and nothing else, has the name at `at`.
    NotOnePeriod,
    /// SYSTEM_TIME, with the table at `at` or without one, is a period of no table reference.
    NoSystemTime,
    /// SYSTEM_TIME is a period of several table references.
    AmbiguousSystemTime,
    /// The name at `at` is used twice in a list.
    Repeated,
    /// The operand at `at` is of `kind`, and a number is required.
    NoNumber,
    /// The operand at `at` is of `kind`, and the one at `to` of `other`.
    KindsDiffer,
    /// The number at `at` does not fit in 64 bits.
    NumberTooLarge,
    /// The literal at `at` is not a date.
    NoDay,
    /// The literal at `at` is not a timestamp.
    NoMoment,
    /// A point in time that is given for the table or the period at `at` is not a date or not a timestamp.
    NoPoint,
    /// The aggregate at `at` is not allowed there.
    AggregateHere,
    /// The length of the type of the column at `at` is out of range.
    BadLength,
    /// All columns of the table at `at` are generated.
    AllGenerated,
    /// The period at `at` is the second of its sort.
    SecondPeriod,
    /// The table at `at` is WITH SYSTEM VERSIONING and has no PERIOD FOR SYSTEM_TIME.
    NoSystemPeriod,
    /// The table at `at` has a PERIOD FOR SYSTEM_TIME and is not WITH SYSTEM VERSIONING.
    NoVersioning,
    /// The table at `at` has `count` columns ROW START and `wanted` columns ROW END; it needs one of each, or none.
    WrongGenerated,
    /// The primary key at `at` is the second.
    SecondPrimary,
    /// There are 1,000 tables.
    TooManyTables,
    /// The columns of a period at `at` and `to`, of `kind` and `other`, are not both DATE and not both TIMESTAMP.
    NoEnds,
    /// The columns of a system period at `at` and `to`, of `kind` and `other`, are not both TIMESTAMP.
    NoSystemEnds,
    /// The period at `at` names one column twice, or a generated one.
    WrongEnds,
    /// The system period at `at` does not name the column ROW START and then the column ROW END.
    WrongSystemEnds,
    /// The column at `at` is generated, and is in a key or a reference.
    GeneratedInList,
    /// A column of the list at `at` is one of the period that the list names.
    PeriodColumnInList,
    /// The list at `at` has `count` columns, and the list at `to` that it references `wanted`.
    ListsDiffer,
    /// The points of the period at `at` and those of the period at `to` that it references are of different types.
    PeriodsDiffer,
    /// One side of the reference at `at` names a period, and the other does not.
    HalfPeriod,
    /// The columns at `at` are not a key of the table at `to`, whose number is `count`.
    NoKey,
    /// A CHECK uses a generated column.
    GeneratedInCheck,
    /// The table at `at` has FOR SYSTEM_TIME and is not system-versioned.
    NotVersioned,
    /// Two table references of FROM have the name at `at`.
    SameReference,
    /// The output column at `at` uses a column that is not in GROUP BY and not inside an aggregate.
    LooseColumn,
    /// HAVING has an aggregate inside an aggregate, or uses a column that is not in GROUP BY and not inside one.
    LooseHaving,
    /// A grouped query selects `*`.
    GroupedStar,
    /// The output column at `at` has an aggregate inside an aggregate.
    NestedAggregate,
    /// No output column has the heading at `at`.
    NoHeading,
    /// Several output columns have the heading at `at`.
    AmbiguousHeading,
    /// A position in ORDER BY is not from 1 to `wanted`.
    NoPosition,
    /// The row at `at` has `count` values for `wanted` columns.
    CellCount,
    /// The value at `at` is of `kind`, and its column, whose number is `count`, of `other`.
    CellKind,
    /// The query has `count` output columns, and the table at `at` takes `wanted`.
    OutputCount,
    /// The output column of number `count` is of `kind`, and the column of the table at `at` that it fills of `other`.
    OutputKind,
    /// The generated column at `at` is given a value.
    GeneratedAssigned,
    /// The column at `at` is set, and belongs to the period whose portion is changed.
    PeriodAssigned,
    /// FOR PORTION OF names SYSTEM_TIME.
    PortionOfSystem,
    /// The points of the period at `at` are of `kind`, and a point of the portion is of another type.
    PortionKind,
    /// The start of the portion of the period at `at` is not before its end.
    PortionNotRising,
    /// The table whose number is `count` references the table at `at`.
    TableReferenced,
    /// 256 readers are already open, and the one at `at` would be another.
    TooManyReaders,
    /// No reader of the name at `at` is open.
    NoReader,
    /// A reader of the name at `at` is already open.
    ReaderThere,
    /// The reader at `at` reads a table that is not system-versioned.
    PlainRead,
    /// The point in time is before the horizon.
    BeforeHorizon,
}

/// A cause and its details: byte offsets in the text of the statement, numbers, and the types of two operands. Offset 0
/// means an unknown place, since the first word of a statement is never at fault.
#[derive(Clone, Copy, Debug)]
pub struct About {
    pub cause: Cause,
    pub at: u32,
    pub to: u32,
    pub also: u32,
    pub count: u32,
    pub wanted: u32,
    pub kind: Option<Kind>,
    pub other: Option<Kind>,
}

/// Returns a number as 32 bits, saturating.
fn narrowed(number: usize) -> u32 {
    match u32::try_from(number) {
        Ok(number) => number,
        Err(_) => u32::MAX,
    }
}

impl About {
    /// Returns a fault whose cause and place are unknown.
    pub fn unknown() -> About {
        About::at(Cause::Unknown, 0)
    }

    /// Returns a cause with its place.
    pub fn at(cause: Cause, at: u32) -> About {
        About {
            cause,
            at,
            to: at,
            also: at,
            count: 0,
            wanted: 0,
            kind: None,
            other: None,
        }
    }

    /// Adds a second place.
    pub fn and(self, to: u32) -> About {
        About { to, ..self }
    }

    /// Adds two types.
    pub fn kinds(self, kind: Option<Kind>, other: Option<Kind>) -> About {
        About {
            kind,
            other,
            ..self
        }
    }

    /// Adds two numbers.
    pub fn counts(self, count: usize, wanted: usize) -> About {
        About {
            count: narrowed(count),
            wanted: narrowed(wanted),
            ..self
        }
    }
}
