//! READ. A reader is a name and a pin: the moment of the last commit when it was opened. The store answers a READ with
//! the rows that were committed then.
ghost use Rattle.std.specs.Prelude.{◌≡◌, map, string_bytes};
ghost use Rattle.tql_spec.specs.Words.{same_text};
ghost use Rattle.tql_engine_state.specs.Readers as held;
ghost use Rattle.tql_engine_state.specs.Readers.{reader_of};

use crate::held::Held;
use tql_bind_expr::texts::is_same_text;
use tql_bound::reader::{Reader, ReaderQuery};
use tql_index::index::IntervalIndex;
use tql_result::reply::Reply;
use tql_store::snapshot::Snapshot;
use tql_value::refusal::Refusal;

/// Whether the reader has this name.
pub fn is_named(reader: &Reader, name: &str) -> bool
    ensures { result ≡ same_text name.now (string_bytes reader.now.name) }
{
    is_same_text(name, &reader.name)
}

/// Returns the pin of the reader of this name, if any.
fn pin_of(readers: &[Reader], name: &str) -> Option<i64>
    ensures { result ≡ held.pin_of name.now (map reader_of readers.now) }
{
    match readers.iter().find(|reader| is_named(reader, name)) {
        Some(reader) => reader.pin,
        None => None,
    }
}

impl<I: IntervalIndex> Held<'_, I> {
    ghost use Rattle.tql_spec.specs.Machine as machine;
    ghost use Rattle.tql_spec.specs.Machine.{State, step};
    ghost use Rattle.tql_bound.specs.Placed.{IsPlacedQuery};
    ghost use Rattle.tql_bound.specs.Queries.{bound_query_of};
    ghost use Rattle.tql_catalog.specs.Tables.{definitions_of};
    ghost use Rattle.tql_engine_state.specs.Allowed.{IsWithin};
    ghost use Rattle.tql_engine_state.specs.Stands.{StandsFor};
    ghost use Rattle.tql_engine_state.specs.Effects.{DoesStep};

    /// Runs READ: answers the query as it was when the reader was opened, without the changes of a transaction that was
    /// open then.
    pub fn read(&self, read: &ReaderQuery) -> Result<Reply, Refusal>
        requires placed { IsPlacedQuery (definitions_of self.now.tables) (bound_query_of read.now.query) }
        requires within { IsWithin self.now
            (machine.Read (string_bytes read.now.reader) (bound_query_of read.now.query)) }
        ensures { (s : State) → StandsFor self.now s → DoesStep self.now s result
            (step s (machine.Read (string_bytes read.now.reader) (bound_query_of read.now.query))) }
    {
        let pin = pin_of(self.readers, &read.reader);
        let shown = Snapshot::pinned(self.store, pin);
        match self.answered(&shown, &read.query) {
            Ok(rows) => Ok(Reply::Table(rows)),
            Err(refusal) => Err(refusal),
        }
    }
}
