//! A listener that keeps its notes in memory.
ghost use Rattle.std.specs.Prelude.{◌≡◌, Some, List, is_none};
ghost use Rattle.tql_run.specs.Keeping.{Keeps};

use crate::listener::Listener;
use crate::note::{Note, Told};
use crate::pushed::Pushed;
use std::alloc::AllocError;
use tql_detail::detail::Detail;
use tql_memory::Memory;
use tql_result::answer::Answer;
use tql_value::refusal::Refusal;

/// A listener that keeps a note of each refusal. If the memory for a note is refused, the note is lost and the
/// allocator's error is kept. From then on the notes are incomplete.
#[derive(Drop)]
pub struct Notes {
    /// The notes, in the order of the statements.
    pub kept: Vec<Note, Memory>,
    /// The allocator's error, if a note was lost.
    pub lost: Option<AllocError>,
    /// The details of the refusals that fitted in memory, in the order of the statements.
    pub told: Vec<Told, Memory>,
}

impl Notes {
    /// Returns a listener without notes. It allocates in `memory`.
    pub fn new(memory: Memory) -> Notes
        ensures { ⟦<Notes as Listener>⟧.heard result ≡ Some List.[] }
    {
        Notes {
            kept: Vec::new(memory),
            lost: None,
            told: Vec::new(memory),
        }
    }

    /// Whether no note was lost.
    pub fn is_whole(&self) -> bool
        ensures { result ≡ is_none self.now.lost }
    {
        self.lost.is_none()
    }

    /// Adds a note. If its memory is refused, the notes stay as they were.
    pub fn keep(&mut self, note: Note) -> Result<(), AllocError>
        ensures { Keeps note result self.old self.new }
    {
        self.kept.push(note)?;
        Ok(())
    }

    /// Adds the detail of a refusal. If its memory is refused, only the detail is lost.
    fn keep_detail(&mut self, statement: u64, detail: &Detail) -> Result<(), AllocError>
        ensures kept { self.new.kept.items ≡ self.old.kept.items }
        ensures lost { self.new.lost ≡ self.old.lost }
    {
        let detail = detail.copied(*self.kept.allocator())?;
        self.told.push(Told { statement, detail })?;
        Ok(())
    }
}

impl Listener for Notes {
    ghost use Rattle.std.specs.Prelude.{is_none, [], ◌∷◌};
    ghost use Rattle.tql_value.specs.Refusals.{refusal_of};
    ghost use Rattle.tql_run.specs.Hearing.{Hears, heard_in, note};
    ghost use Rattle.tql_run.specs.Keeping.{KeepsOrLoses};

    ghost heard = { λ n. heard_in (is_none n.lost) n.kept.items };

    fn wants_details(&self) -> bool {
        true
    }

    fn waits(&self) -> bool {
        false
    }

    fn refused(
        &mut self,
        statement: u64,
        line: u64,
        refusal: Refusal,
        detail: Option<&Detail>,
        _pushed: &Pushed,
    )
        ensures heard { Hears (heard_in (is_none self.old.lost) self.old.kept.items)
            (note statement line (refusal_of refusal) ∷ [])
            (heard_in (is_none self.new.lost) self.new.kept.items) }
        ensures kept { KeepsOrLoses (record { statement = statement; line = line; refusal = refusal })
            self.old self.new }
    {
        let note = Note {
            statement,
            line,
            refusal,
        };
        if let Err(error) = self.keep(note) {
            self.lost = Some(error);
        }
        if let Some(detail) = detail {
            let _ = self.keep_detail(statement, detail);
        }
    }

    fn answered(&mut self, _line: u64, _answer: &Answer, _pushed: &Pushed) {}
}
