//! The wording of each cause: what is wrong, and after a semicolon what to write. In braces: `at`, `to` and `also` are
//! the words of the statement at these offsets; `kind` and `other` are types; `values` and `columns` are the number
//! `count` of these, `wanted columns` and `wanted` the number `wanted`; `number` is `count` counted from 1; `table` is
//! the table whose number is `count`, and `keys` says which keys it has.
use tql_bind_expr::about::Cause;

/// Returns what the wording of a cause says is wrong, and what it says to write.
pub fn parts(cause: Cause) -> (&'static str, &'static str) {
    let wording = wording(cause);
    wording.split_once("; ").unwrap_or((wording, ""))
}

/// Returns the wording of a cause.
fn wording(cause: Cause) -> &'static str {
    match cause {
        Cause::NoTable => "no table {at}",
        Cause::TableThere => "table {at} already exists",
        Cause::OwnParent => "table {at} cannot reference itself",
        Cause::NoColumn => "no column {at}",
        Cause::Ambiguous =>
            "{at} is a column of {to} and of {also}; write the table before it, as in {to}.{at}",
        Cause::PeriodForColumn => "{at} is a period, not a column; name one of its columns",
        Cause::NoPeriod => "no period {at}",
        Cause::NotOnePeriod => "{at} does not name exactly one period",
        Cause::NoSystemTime => "no table here has the period SYSTEM_TIME",
        Cause::AmbiguousSystemTime =>
            "several tables have the period SYSTEM_TIME; write the table before it",
        Cause::Repeated => "the name {at} is used twice",
        Cause::SameReference => "two table references are named {at}; give one another name by AS",
        Cause::NoHeading => "no output column is named {at}",
        Cause::AmbiguousHeading =>
            "several output columns are named {at}; give one another name by AS",
        Cause::NoPosition => "ORDER BY takes a position from 1 to {wanted}",
        _ => of_type(cause),
    }
}

/// Returns the wording of a cause that is a type or a number of values, or of any later one.
fn of_type(cause: Cause) -> &'static str {
    match cause {
        Cause::NoNumber => "{at} is {kind}, and INTEGER is required",
        Cause::KindsDiffer => "{at} is {kind} and {to} is {other}",
        Cause::NoEnds =>
            "{at} is {kind} and {to} is {other}; the ends of a period are both DATE or both TIMESTAMP",
        Cause::NoSystemEnds =>
            "{at} is {kind} and {to} is {other}; the ends of SYSTEM_TIME are both TIMESTAMP",
        Cause::ListsDiffer =>
            "{columns} from {at} on reference {wanted} from {to} on; write as many in both lists",
        Cause::PeriodsDiffer => "the points of the periods {at} and {to} are of different types",
        Cause::CellCount => "this row has {values} for {wanted columns}",
        Cause::CellKind => "{at} is {kind} and its column is {other}",
        Cause::OutputCount => "the query has {columns} and {at} takes {wanted}",
        Cause::OutputKind =>
            "column {number} of the query is {kind} and the column of {at} that it fills is {other}",
        Cause::PortionKind =>
            "the points of the period are {kind}; write both ends of the portion as {kind} literals",
        Cause::BadLength =>
            "the type of {at} is out of range; VARCHAR takes a length from 1 to 65535, TIMESTAMP a precision up to 12",
        _ => of_value(cause),
    }
}

/// Returns the wording of a cause that is a value, or of any later one.
fn of_value(cause: Cause) -> &'static str {
    match cause {
        Cause::NumberTooLarge =>
            "{at} is out of range; INTEGER is from -9223372036854775808 to 9223372036854775807",
        Cause::NoDay =>
            "{at} is not a date; write DATE 'YYYY-MM-DD', from 0001-01-01 to 9999-12-31",
        Cause::NoMoment =>
            "{at} is not a timestamp; write TIMESTAMP 'YYYY-MM-DD HH:MM:SS', from year 0001 to 9999",
        Cause::NoPoint =>
            "a point in time is not valid; write TIMESTAMP 'YYYY-MM-DD HH:MM:SS', or DATE 'YYYY-MM-DD' for days",
        Cause::PortionNotRising =>
            "the portion of {at} does not end after it starts; write FROM the earlier point TO the later",
        Cause::BeforeHorizon => "the point in time is before the horizon of PRUNE HISTORY",
        _ => of_form(cause),
    }
}

/// Returns the wording of a cause that is a form of a query or of a change, or of any later one.
fn of_form(cause: Cause) -> &'static str {
    match cause {
        Cause::AggregateHere =>
            "{at} is not allowed here; an aggregate belongs in the select list or in HAVING",
        Cause::LooseColumn =>
            "the output column at {at} uses a column that is not grouped; add it to GROUP BY or aggregate it",
        Cause::LooseHaving =>
            "HAVING uses a column that is not grouped, or an aggregate inside an aggregate",
        Cause::GroupedStar => "* is not allowed in a grouped query; name the columns",
        Cause::NestedAggregate => "the output column at {at} has an aggregate inside an aggregate",
        Cause::NotVersioned => "{at} is not WITH SYSTEM VERSIONING; leave out FOR SYSTEM_TIME",
        Cause::GeneratedAssigned => "{at} is generated; leave it out",
        Cause::PeriodAssigned => "{at} is set by FOR PORTION OF; leave it out of SET",
        Cause::PortionOfSystem =>
            "FOR PORTION OF takes an application period, not SYSTEM_TIME; what was recorded cannot be changed",
        Cause::TableReferenced => "table {table} references {at}; drop {table} first",
        Cause::TooManyTables => "there are already 1000 tables, and no more are allowed",
        Cause::TooManyReaders => "256 readers are open; close one first",
        Cause::NoReader => "no reader {at} is open",
        Cause::ReaderThere => "reader {at} is already open",
        Cause::PlainRead => "reader {at} reads only tables WITH SYSTEM VERSIONING",
        _ => of_new_table(cause),
    }
}

/// Returns the wording of a cause that is a form of CREATE TABLE.
fn of_new_table(cause: Cause) -> &'static str {
    match cause {
        Cause::AllGenerated => "all columns of {at} are generated; add one that is not",
        Cause::SecondPeriod =>
            "{at} is of a second period; a table has one application period and one PERIOD FOR SYSTEM_TIME",
        Cause::NoSystemPeriod =>
            "{at} has no PERIOD FOR SYSTEM_TIME; write one over a column AS ROW START and a column AS ROW END",
        Cause::NoVersioning =>
            "{at} has a system period; write WITH SYSTEM VERSIONING after the last parenthesis",
        Cause::WrongGenerated =>
            "{at} has {columns} AS ROW START and {wanted} AS ROW END; write one of each, and their PERIOD",
        Cause::SecondPrimary => "the key of {at} is a second PRIMARY KEY; write UNIQUE",
        Cause::WrongEnds =>
            "{at} and {to} cannot be the ends of a period; name two columns that are not generated",
        Cause::WrongSystemEnds =>
            "{at} and {to} are not ROW START and ROW END; name the column ROW START, then the column ROW END",
        Cause::GeneratedInList => "{at} is generated; leave it out of keys and references",
        Cause::PeriodColumnInList =>
            "the list of {at} has a column of the period that it names; leave the column out",
        Cause::HalfPeriod =>
            "one list of the reference names a period; write PERIOD in both lists, or in none",
        Cause::NoKey => "the columns after REFERENCES {to} are not a key of it; {keys}",
        Cause::GeneratedInCheck => "a generated column is not allowed in CHECK",
        _ => "",
    }
}
