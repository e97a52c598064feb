//! The limits that a statement is bound under: the horizon and the open readers. They are tested on the bound
//! statement.
ghost use Rattle.std.specs.Prelude.{◌≡◌, List, map, not, string_bytes};
ghost use Rattle.std.specs.List.{list_any};
ghost use Rattle.tql_spec.specs.Horizon as spec;
ghost use Rattle.tql_spec.specs.Machine.{bound_faults};
ghost use Rattle.tql_spec.specs.Names.{refuse_for};
ghost use Rattle.tql_spec.specs.Readers as readers;
ghost use Rattle.tql_spec.specs.Words.{same_text};
ghost use Rattle.tql_catalog.specs.Tables.{definitions_of};
ghost use Rattle.tql_bound.specs.Bounds.{bound_of};
ghost use Rattle.tql_bound.specs.Queries.{bound_query_of, references_in};
ghost use Rattle.tql_bound.specs.Readers.{names_of};
ghost use Rattle.tql_bound.specs.declared.query.Join as joined;
ghost use Rattle.tql_value.specs.When.{when_of};
ghost use Rattle.tql_bind_expr.specs.Gathered.{Gathers};
ghost use Rattle.tql_bind.specs.Limited as limited;
ghost use Rattle.tql_bind.specs.Limited.{asks, limits_of};

use tql_bind_expr::about::{About, Cause};
use tql_bind_expr::faults::Faults;
use tql_bind_expr::texts::is_same_text;
use tql_bound::bound::Bound;
use tql_bound::query::{BoundQuery, Chain, Join};
use tql_bound::reader::Reader;
use tql_bound::reference::Reference;
use tql_catalog::catalog::Catalog;
use tql_value::refusal::Refusal;
use tql_value::when::When;

/// The greatest number of open readers. The limit is this project's choice.
const MOST_READERS: usize = 256;

/// The limits that a statement is bound under.
#[derive(Clone, Copy)]
pub struct Limits<'a> {
    /// The earliest moment that a query may read, in microseconds since 1970-01-01.
    pub horizon: i64,
    /// The open readers.
    pub readers: &'a [Reader],
}

/// Whether the moment to read, or the start of the range, is before the horizon. True even if the range is empty.
fn is_before(when: When, limits: &Limits<'_>) -> bool
    ensures { result ≡ spec.is_before limits.now.horizon (when_of when) }
{
    match when {
        When::Now => false,
        When::AsOf(moment) => moment < limits.horizon,
        When::FromTo(start, _) => start < limits.horizon,
        When::Between(start, _) => start < limits.horizon,
    }
}

/// Whether the table reference of some join reads moments before the horizon.
fn do_joins_ask_before(joins: &[Join], limits: &Limits<'_>) -> bool
    ensures { result ≡ list_any (asks limits.now.horizon) (map (λ (j : joined.Join). j.reference) joins.now) }
{
    joins
        .iter()
        .any(|join| is_before(join.reference.when, limits))
}

/// Whether some table reference of a chain reads moments before the horizon.
fn does_chain_ask_before(chain: &Chain, limits: &Limits<'_>) -> bool
    ensures { result ≡ list_any (asks limits.now.horizon) (references_in chain.now) }
{
    is_before(chain.first.when, limits) || do_joins_ask_before(&chain.joins, limits)
}

/// Whether some table reference of a query reads moments before the horizon.
fn does_ask_before(query: &BoundQuery, limits: &Limits<'_>) -> bool
    ensures { result ≡ spec.asks_before limits.now.horizon (bound_query_of query.now) }
{
    query
        .chains
        .iter()
        .any(|chain| does_chain_ask_before(chain, limits))
}

/// Whether a bound statement reads moments before the horizon, or sets the horizon to an earlier moment.
fn is_too_early(bound: &Bound, limits: &Limits<'_>) -> bool
    ensures { result ≡ limited.is_too_early (limits_of limits.now) (bound_of bound.now) }
{
    match bound {
        Bound::AnswerQuery(query) => does_ask_before(query, limits),
        Bound::InsertFrom(insertion) => does_ask_before(&insertion.query, limits),
        Bound::Read(read) => does_ask_before(&read.query, limits),
        Bound::Prune(moment) => *moment < limits.horizon,
        Bound::CreateTable(_)
        | Bound::DropTable(_)
        | Bound::Insert(_)
        | Bound::Modify(_)
        | Bound::SetClock(_)
        | Bound::OpenReader(_)
        | Bound::CloseReader(_)
        | Bound::Start
        | Bound::Commit
        | Bound::Rollback => false,
    }
}

/// Whether a table reference is to a table that is not system-versioned.
fn is_plain(reference: &Reference, tables: &Catalog) -> bool
    ensures { result ≡ limited.is_plain (definitions_of tables.now) reference.now }
{
    !tables.is_versioned(reference.table)
}

/// Whether some join is to a table that is not system-versioned.
fn do_joins_read_plain(joins: &[Join], tables: &Catalog) -> bool
    ensures { result
        ≡ list_any (limited.is_plain (definitions_of tables.now)) (map (λ (j : joined.Join). j.reference) joins.now) }
{
    joins.iter().any(|join| is_plain(&join.reference, tables))
}

/// Whether some table reference of a chain is to a table that is not system-versioned.
fn does_chain_read_plain(chain: &Chain, tables: &Catalog) -> bool
    ensures { result ≡ list_any (limited.is_plain (definitions_of tables.now)) (references_in chain.now) }
{
    is_plain(&chain.first, tables) || do_joins_read_plain(&chain.joins, tables)
}

/// Whether some table reference of a query is to a table that is not system-versioned.
fn reads_plain(query: &BoundQuery, tables: &Catalog) -> bool
    ensures { result ≡ readers.reads_plain (definitions_of tables.now) (bound_query_of query.now) }
{
    query
        .chains
        .iter()
        .any(|chain| does_chain_read_plain(chain, tables))
}

/// Whether the reader has this name.
fn is_named(reader: &Reader, name: &str) -> bool
    ensures { result ≡ same_text name.now (string_bytes reader.now.name) }
{
    is_same_text(name, &reader.name)
}

/// Whether a reader of this name is open.
fn is_open(name: &str, limits: &Limits<'_>) -> bool
    ensures { result ≡ readers.is_named name.now (names_of limits.now.readers.now) }
{
    limits.readers.iter().any(|reader| is_named(reader, name))
}

/// Whether a bound statement opens one reader too many.
fn opens_too_many(bound: &Bound, limits: &Limits<'_>) -> bool
    ensures { result ≡ limited.opens_too_many (limits_of limits.now) (bound_of bound.now) }
{
    match bound {
        Bound::OpenReader(_) => MOST_READERS <= limits.readers.len(),
        Bound::CreateTable(_)
        | Bound::DropTable(_)
        | Bound::Insert(_)
        | Bound::InsertFrom(_)
        | Bound::Modify(_)
        | Bound::AnswerQuery(_)
        | Bound::SetClock(_)
        | Bound::Prune(_)
        | Bound::Read(_)
        | Bound::CloseReader(_)
        | Bound::Start
        | Bound::Commit
        | Bound::Rollback => false,
    }
}

/// Whether a bound statement opens a reader that is open, or reads or closes one that is not. Also true if READ reads a
/// table that is not system-versioned.
fn is_unusable(bound: &Bound, tables: &Catalog, limits: &Limits<'_>) -> bool
    ensures { result ≡ limited.is_unusable (limits_of limits.now) (definitions_of tables.now) (bound_of bound.now) }
{
    match bound {
        Bound::OpenReader(name) => is_open(name, limits),
        Bound::Read(read) => !is_open(&read.reader, limits) || reads_plain(&read.query, tables),
        Bound::CloseReader(name) => !is_open(name, limits),
        Bound::CreateTable(_)
        | Bound::DropTable(_)
        | Bound::Insert(_)
        | Bound::InsertFrom(_)
        | Bound::Modify(_)
        | Bound::AnswerQuery(_)
        | Bound::SetClock(_)
        | Bound::Prune(_)
        | Bound::Start
        | Bound::Commit
        | Bound::Rollback => false,
    }
}

/// Returns what the fault of a reader is about: it is already open, it is not open, or it reads a table that is not
/// system-versioned.
fn about_reader(bound: &Bound, limits: &Limits<'_>) -> About {
    let cause = match bound {
        Bound::OpenReader(_) => Cause::ReaderThere,
        Bound::Read(read) if is_open(&read.reader, limits) => Cause::PlainRead,
        _ => Cause::NoReader,
    };
    About::at(cause, 0)
}

/// Adds the faults of a bound statement that the limits cause.
pub(crate) fn refuse_by_limits(
    bound: &Bound,
    tables: &Catalog,
    limits: &Limits<'_>,
    faults: &mut Faults,
)
    ensures { Gathers
        (refuse_for (bound_faults (limits_of limits.now) (definitions_of tables.now) (bound_of bound.now)))
        faults.old faults.new tt }
{
    let is_too_many = opens_too_many(bound, limits);
    faults.refuse_if(
        is_too_many,
        Refusal::TooManyTablesOrReaders,
        About::at(Cause::TooManyReaders, 0),
    );
    let is_unusable = is_unusable(bound, tables, limits);
    faults.refuse_if(
        is_unusable,
        Refusal::ReaderNotUsable,
        about_reader(bound, limits),
    );
    let is_too_early = is_too_early(bound, limits);
    faults.refuse_if(
        is_too_early,
        Refusal::BeforeTheHorizon,
        About::at(Cause::BeforeHorizon, 0),
    );
}
