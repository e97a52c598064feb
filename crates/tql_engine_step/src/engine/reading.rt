//! OPEN READER and CLOSE READER. A reader is a name and a pin: the moment of the last commit when it was opened.
ghost use Rattle.std.specs.Prelude.{◌≡◌, map, filter, not, string_bytes};
ghost use Rattle.tql_spec.specs.Words.{same_text};
ghost use Rattle.tql_engine_state.specs.Readers.{KeptReader, reader_of};

use crate::engine::Engine;
use crate::lending::{LAST, room_to_close};
use std::alloc::AllocError;
use tql_bound::reader::Reader;
use tql_engine_read::held::reading::is_named;
use tql_index::index::IntervalIndex;
use tql_memory::Memory;
use tql_result::reply::{Reply, Verb};
use tql_value::refusal::Refusal;

/// Whether the reader has a different name.
fn is_other(reader: &Reader, name: &str) -> bool
    ensures { result ≡ not (same_text name.now (string_bytes reader.now.name)) }
{
    !is_named(reader, name)
}

/// Removes the reader of this name and keeps the order of the others.
fn take_away(readers: &mut Vec<Reader, Memory>, name: &str)
    ensures { map reader_of readers.new.items
        ≡ filter (λ (r : KeptReader). not (same_text name.now r.name)) (map reader_of readers.old.items) }
{
    readers.retain(|reader| is_other(reader, name));
}

impl<I: IntervalIndex> Engine<I> {
    ghost use Rattle.tql_spec.specs.Machine as machine;
    ghost use Rattle.tql_spec.specs.Machine.{State, step};
    ghost use Rattle.tql_result.specs.Replies.{reply_of};
    ghost use Rattle.tql_engine_state.specs.Allowed.{IsWithin};
    ghost use Rattle.tql_engine_state.specs.Stands.{StandsFor};
    ghost use Rattle.tql_engine_state.specs.Effects.{Does, DoesStep};

    /// Refuses a name so long that the text of its CLOSE READER might not be read when the memory is full, since a
    /// reader that stays open for that reason would keep its history for ever. Refuses none if there is no reserve.
    fn can_close(&self, name: &str) -> Result<(), AllocError> {
        self.memory.keep_back(self.reserve.min(LAST));
        let promised = self.memory.promise(room_to_close(name.len()));
        self.memory.keep_back(self.reserve);
        promised
    }

    /// Runs OPEN READER. The only error is memory: a refused allocation, or a name that could not be closed later
    /// (`can_close`). Nothing has changed then.
    pub(super) fn open_reader(&mut self, name: String<Memory>) -> Result<Reply, Refusal>
        requires within { IsWithin self.old (machine.OpenReader (string_bytes name)) }
        ensures { (s : State) → StandsFor self.old s
            → DoesStep self.new s result (step s (machine.OpenReader (string_bytes name.entry))) }
    {
        self.can_close(&name)?;
        let pin = self.store.pin();
        self.readers.push(Reader { name, pin })?;
        Ok(Reply::Done(Verb::OpenedReader, None))
    }

    /// Runs CLOSE READER. It takes no memory, so it is never refused for memory.
    pub(super) fn close_reader(&mut self, name: &str) -> Reply
        requires within { IsWithin self.old (machine.CloseReader name.now) }
        ensures { (s : State) → StandsFor self.old s
            → Does self.new (reply_of result) (step s (machine.CloseReader name.now)) }
    {
        take_away(&mut self.readers, name);
        Reply::Done(Verb::ClosedReader, None)
    }
}
