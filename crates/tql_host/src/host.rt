//! An engine and its last answer, in memory that may be C's.
ghost use Rattle.std.specs.Prelude.{◌≡◌, None};
ghost use Rattle.tql_spec.specs.Machine.{new_state};
ghost use Rattle.tql_engine_state.specs.Stands.{StandsFor};
ghost use Rattle.tql_host_cells.specs.Cells.{nothing};
ghost use Rattle.tql_host_cursor.specs.Cursors.{idle};
ghost use Rattle.tql_host_cursor.specs.Parts.{copied_known, part_of, told_known};
ghost use Rattle.tql_host.specs.Serving.{Answers, Does, DoesWith, Opens, StepsWith, TellsKinds, Uses, fresh};

use crate::kinds::put_kinds;
use crate::values::{filled_text, tell_places};
use std::alloc::Global;
use tql::{Engine, Memory, Refusal, memory_within};
use tql_host_cells::requests::{Asked, Request, Told};
use tql_host_cursor::cursor::Cursor;
use tql_host_cursor::statement::statement_text;
use tql_places::places::Unfilled;

/// An engine with its last answer.
struct Held {
    memory: Memory,
    engine: Engine,
    cursor: Cursor,
}

impl Drop for Held {
    fn drop(self) {
        let Held {
            memory: _,
            engine,
            cursor,
        } = self;
        drop(cursor);
        drop(engine);
    }
}

/// A host. Its engine is there from a request `Open` to a request `Close`.
pub struct Host {
    alloc: Global,
    /// The memory of the first engine, which serves each later one: its allocator is never freed.
    memory: Option<Memory>,
    held: Option<Held>,
}

impl Drop for Host {
    fn drop(self) {
        let Host {
            alloc: _,
            memory: _,
            held,
        } = self;
        drop(held);
    }
}

/// Returns a host without an engine. Takes no memory.
pub fn begun(alloc: Global) -> Host
    ensures { result ≡ fresh alloc }
{
    Host {
        alloc,
        memory: None,
        held: None,
    }
}

/// Ends a host.
pub fn ended(host: Host) {
    drop(host);
}

/// Answers a request. A statement is answered as the engine's `step` does, a script as `run_in` does. A refused
/// statement changes nothing, and no other request changes the engine.
pub fn answer(host: &mut Host, request: &Request, text: &[u8], room: &mut [u8], told: &mut Told)
    ensures { Answers (record { request = request.now; text = text.now; room = room.old }) host.old host.new
        (record { told = told.new; room = room.new }) }
{
    *told = host.call(*request, text, room);
}

impl Held {
    /// Makes an engine.
    fn new(memory: Memory, reserve: usize) -> Held
        ensures stands { StandsFor result.engine new_state }
        ensures cursor { result.cursor ≡ idle }
    {
        Held {
            memory,
            engine: Engine::with_reserve(memory, reserve),
            cursor: Cursor::new(memory),
        }
    }

    /// Tells the kinds of a query's columns.
    fn kinds(&self, text: &[u8], room: &mut [u8]) -> Told
        ensures { TellsKinds (StandsFor self.now.engine) text.now room.old room.new result }
    {
        put_kinds(&self.engine.column_kinds(statement_text(text)), room)
    }

    /// Runs a statement with the values that follow its text, as `step` runs the text with their literals. Does nothing
    /// if the values are not as many as the places of the text, or are none.
    fn step_with(&mut self, request: Request, text: &[u8]) -> Told
        ensures { StepsWith request text.now self.old self.new result }
    {
        match filled_text(self.memory, request, text) {
            Ok(filled) => self.cursor.step(&mut self.engine, filled.as_slice()),
            Err(Unfilled::OutOfMemory) => self.cursor.refuse(Refusal::OutOfMemory),
            Err(Unfilled::WrongNumber) | Err(Unfilled::NoValues) => Told::nothing(),
        }
    }

    /// Tells the number of bytes in use.
    fn in_use(&self) -> Told
        ensures { Uses result }
    {
        let mut told = Told::nothing();
        told.kind = 1;
        told.length = self.memory.in_use() as u64;
        told
    }

    /// Tells a text of the answer.
    fn text(&self, asked: Asked, request: Request, room: &mut [u8]) -> Told
        ensures told { result ≡ told_known (part_of asked request.column self.now.cursor) }
        ensures copied { room.new ≡ copied_known (part_of asked request.column self.now.cursor) request.start room.old }
    {
        self.cursor
            .text(asked, request.column as usize, request.start, room)
    }

    /// Answers a request to an engine and its cursor.
    fn call(&mut self, asked: Asked, request: Request, text: &[u8], room: &mut [u8]) -> Told
        ensures { Does asked (record { request = request; text = text.now; room = room.old }) self.old self.new
            (record { told = result; room = room.new }) }
    {
        let column = request.column as usize;
        match asked {
            Asked::Step => self.cursor.step(&mut self.engine, text),
            Asked::Feed => self.cursor.feed(text),
            Asked::Next => self.cursor.next(&mut self.engine),
            Asked::Finish => self.cursor.finish(&mut self.engine),
            Asked::Forget => self.cursor.forget_script(),
            Asked::Row => self.cursor.row(),
            Asked::Skip => self.cursor.skip(request.count),
            Asked::Cell => self.cursor.cell(column, request.start, room),
            Asked::Block => self
                .cursor
                .block(column, request.start, request.count, room),
            Asked::Json => self.cursor.json(request.start, room),
            Asked::Place => self.cursor.place(),
            Asked::Kinds => self.kinds(text, room),
            Asked::InUse => self.in_use(),
            Asked::StepWith => self.step_with(request, text),
            Asked::Places => tell_places(text),
            Asked::Heading => self.text(Asked::Heading, request, room),
            Asked::Verb => self.text(Asked::Verb, request, room),
            Asked::Words => self.text(Asked::Words, request, room),
            Asked::Hint => self.text(Asked::Hint, request, room),
            Asked::Constraint => self.text(Asked::Constraint, request, room),
            Asked::FaultColumn => self.text(Asked::FaultColumn, request, room),
            Asked::Open => Told::nothing(),
            Asked::Close => Told::nothing(),
        }
    }
}

impl Host {
    /// Answers a request.
    #[tactic(auto, using(crate::proofs::Serves::serves_held))]
    fn call(&mut self, request: Request, text: &[u8], room: &mut [u8]) -> Told
        ensures { Answers (record { request = request; text = text.now; room = room.old }) self.old self.new
            (record { told = result; room = room.new }) }
    {
        match Asked::of(request.asked) {
            Some(Asked::Open) => self.open(request.start, request.count),
            Some(Asked::Close) => self.close(),
            Some(asked) => self.call_held(asked, request, text, room),
            None => Told::nothing(),
        }
    }

    /// Answers a request to the engine, if there is one.
    fn call_held(&mut self, asked: Asked, request: Request, text: &[u8], room: &mut [u8]) -> Told
        ensures { DoesWith asked (record { request = request; text = text.now; room = room.old }) self.old.held
            self.old self.new (record { told = result; room = room.new }) }
    {
        match &mut self.held {
            Some(held) => held.call(asked, request, text, room),
            None => Told::nothing(),
        }
    }

    /// Ends the engine.
    fn close(&mut self) -> Told
        ensures host { self.new ≡ record self.old { held = None } }
        ensures told { result ≡ nothing }
    {
        self.held = None;
        Told::nothing()
    }

    /// Makes an engine that has at most `most` bytes in use, and keeps back `reserve` of them. The kind is 1 if there
    /// was memory for it.
    fn open(&mut self, most: u64, reserve: u64) -> Told
        ensures { Opens self.new result }
    {
        let mut told = Told::nothing();
        self.held = None;
        if self.memory.is_none() {
            self.memory = memory_within(self.alloc, most as usize).ok();
        }
        if let Some(memory) = self.memory {
            memory.bound(most as usize);
            self.held = Some(Held::new(memory, reserve as usize));
            told.kind = 1;
        }
        told
    }
}
