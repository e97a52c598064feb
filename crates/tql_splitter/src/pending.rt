//! The pending text: the statement that is being scanned.
ghost use Rattle.std.specs.Prelude.{◌≡◌, List, IsTrue, IfOk};
ghost use Rattle.tql_spec.specs.Script as script;
ghost use Rattle.tql_splitter.specs.Stream.{Nothing, Lost, is_begun, is_text};
ghost use Rattle.tql_splitter.specs.Pending.{Puts, PutsAll, Looks, Ends};
ghost use Rattle.tql_splitter.specs.Pieces.{StandsFor, Says};

use crate::piece::Piece;
use crate::splitter::LONGEST;
use std::alloc::AllocError;
use std::marker::Model;
use tql_lex::scan::is_blank;
use tql_memory::Memory;

/// The number of bytes that are allocated for a text up front.
const ROOM: usize = 65_536;

/// What is kept of the pending text.
#[derive(Clone, Copy)]
pub(crate) enum Holding {
    /// No text has begun.
    Nothing,
    /// A `-`, which may begin a comment.
    Dash,
    /// The text as far as it was scanned.
    Whole,
    /// Nothing, because the text is too long.
    Overlong,
    /// Nothing, because an allocation for the text failed.
    Lost,
}

/// The beginning of a statement's text, or why it is not kept. There is always room for 65,536 bytes.
#[derive(Drop)]
pub(crate) struct PendingText {
    bytes: Vec<u8, Memory>,
    holding: Holding,
}

impl Model for PendingText {
    ghost use Rattle.std.specs.Prelude.{◌≤◌, vec_capacity};
    ghost use Rattle.tql_splitter.specs.Stream.{Kept};
    ghost use Rattle.tql_splitter.specs.Pending.{kept_of, IsPending, room};

    ghost Value = { Kept };

    ghost view = { λ t. kept_of t.holding t.bytes.items };

    ghost invariant = { λ t. IsPending t.holding t.bytes.items × (room ≤ vec_capacity t.bytes) };
}

impl PendingText {
    /// Creates an empty text with room for 65,536 bytes. The only error is a failed allocation.
    pub(crate) fn new(memory: Memory) -> Result<PendingText, AllocError>
        ensures { IfOk result (λ t. t ≡ Nothing) }
    {
        let bytes = Vec::with_capacity(memory, ROOM)?;
        Ok(PendingText {
            bytes,
            holding: Holding::Nothing,
        })
    }

    /// Clears the text, and frees what a longer text took beyond the room of 65,536 bytes. Otherwise one long text
    /// would take that memory for the rest of the run.
    pub(crate) fn clear(&mut self)
        ensures { self.new ≡ Nothing }
    {
        self.bytes.clear();
        self.bytes.shrink_to(ROOM);
        self.holding = Holding::Nothing;
    }

    /// Whether a text has begun.
    pub(crate) fn is_begun(&self) -> bool
        ensures { result ≡ is_begun self.now }
    {
        !matches!(self.holding, Holding::Nothing)
    }

    /// Drops the text, because an allocation for it was refused.
    fn lose(&mut self, _refused: AllocError)
        ensures { self.new ≡ Lost }
    {
        self.bytes.clear();
        self.holding = Holding::Lost;
    }

    /// Appends a byte to the text. A text of more than `LONGEST` bytes is dropped, and so is one of more than 65,536
    /// bytes for which an allocation fails.
    fn put(&mut self, byte: u8)
        ensures { Puts byte self.old self.new }
    {
        match self.holding {
            Holding::Overlong | Holding::Lost => {}
            Holding::Nothing | Holding::Dash | Holding::Whole => {
                if self.bytes.len() == LONGEST {
                    self.bytes.clear();
                    self.holding = Holding::Overlong;
                } else {
                    match self.bytes.push(byte) {
                        Ok(()) => self.holding = Holding::Whole,
                        Err(refused) => self.lose(refused.into()),
                    }
                }
            }
        }
    }

    /// Whether a text has begun, and not only with a `-` that may begin a comment.
    pub(crate) fn is_text(&self) -> bool
        ensures { result ≡ is_text self.now }
    {
        !matches!(self.holding, Holding::Nothing | Holding::Dash)
    }

    /// Appends bytes to a text that has begun, as `put` does for each of them. It does nothing where no text has begun.
    pub(crate) fn put_all(&mut self, bytes: &[u8])
        ensures { PutsAll bytes.now self.old self.new }
    {
        if let Holding::Whole = self.holding {
            if bytes.len() > LONGEST - self.bytes.len() {
                self.bytes.clear();
                self.holding = Holding::Overlong;
            } else if let Err(refused) = self.bytes.extend_from_slice(bytes) {
                self.lose(refused);
            }
        }
    }

    /// Scans the next byte of a script. Blanks and comments before the text are skipped.
    pub(crate) fn look(&mut self, byte: u8, in_comment: bool)
        ensures { Looks in_comment byte self.old self.new }
    {
        match self.holding {
            Holding::Nothing if in_comment || is_blank(byte) => {}
            Holding::Nothing if byte == b'-' => self.holding = Holding::Dash,
            Holding::Dash if byte == b'-' => self.holding = Holding::Nothing,
            Holding::Dash => {
                self.put(b'-');
                self.put(byte);
            }
            _ => self.put(byte),
        }
    }

    /// Ends the text. A `-` alone is a text.
    pub(crate) fn end(&mut self)
        ensures { Ends self.old self.new }
    {
        if let Holding::Dash = self.holding {
            self.put(b'-');
        }
    }

    /// Returns the piece for a text that has ended; `finished` says whether a `;` ended it.
    pub(crate) fn piece(&self, finished: bool) -> Piece<'_>
        ensures { (p : script.Piece) → Says finished self.now p → StandsFor result p }
    {
        match self.holding {
            Holding::Overlong => Piece::TooLong,
            Holding::Nothing | Holding::Dash | Holding::Lost => Piece::NoMemory,
            Holding::Whole if finished => Piece::Text(self.bytes.as_slice()),
            Holding::Whole => Piece::Unfinished(self.bytes.as_slice()),
        }
    }
}
