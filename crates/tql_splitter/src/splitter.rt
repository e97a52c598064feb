//! Splitting a stream of bytes into statements.
ghost use Rattle.std.specs.Prelude.{◌≡◌, ◌≤◌, length, List, IsFalse, IfOk};
ghost use Rattle.tql_spec.specs.Words.{is_empty};
ghost use Rattle.tql_splitter.specs.Feeding.{Feeds, Finishes, LooksAt, LooksOn, Closes, TakesOn, Advances, forgotten};

use crate::columns::Columns;
use crate::pending::PendingText;
use crate::piece::Piece;
use crate::ready::Ready;
use crate::scan_state::{ScanState, can_end, is_comment, is_steady, state_after};
use std::alloc::AllocError;
use std::marker::Model;
use tql_memory::Memory;

/// The maximum length of a statement's text, in bytes.
pub const LONGEST: usize = 1_048_576;

/// The maximum number of bytes that a splitter is fed at once.
pub const LONGEST_PART: usize = 65_536;

/// Splits a stream of bytes, which arrives in parts, into statements. The result does not depend on how the stream is
/// divided into parts. It keeps one part, and at most 1,048,576 bytes of the pending text.
#[derive(Drop)]
pub struct Splitter {
    ready: Ready,
    pending: PendingText,
    /// Whether the pending text was returned.
    given: bool,
    /// The state at the next byte.
    place: ScanState,
    ended: bool,
    /// The number of line feeds that were scanned.
    feeds: u64,
    /// The number of line feeds before the pending text.
    begun: u64,
    /// The line of the statement that was returned last.
    line: u64,
    /// The columns of the texts.
    columns: Columns,
}

impl Model for Splitter {
    ghost use Rattle.tql_splitter.specs.Stream.{Stream};
    ghost use Rattle.tql_splitter.specs.Cutting.{state_of};

    ghost Value = { Stream };

    ghost view = { λ s. record {
      kept = s.pending;
      given = s.given;
      place = state_of s.place;
      ready = s.ready;
      ended = s.ended;
      feeds = s.feeds;
      begun = s.begun;
      line = s.line;
    } };
}

impl Splitter {
    ghost use Rattle.std.specs.Prelude.{[]};
    ghost use Rattle.std.specs.Borrow.{sem};
    ghost use Rattle.tql_splitter.specs.Holding.{Holds};
    ghost use Rattle.tql_splitter.specs.Lending.{EndsAs};

    /// Creates a splitter that was fed nothing. It allocates room for one part and for a text of 65,536 bytes, and
    /// keeps `memory` for longer texts. The only error is a failed allocation.
    pub fn new(memory: Memory) -> Result<Splitter, AllocError>
        ensures holds { IfOk result (λ s. Holds s List.[] List.[]) }
        ensures ready { IfOk result (λ s. s.ready ≡ List.[]) }
        ensures open { IfOk result (λ s. IsFalse s.ended) }
    {
        let ready = Ready::new(memory)?;
        let pending = PendingText::new(memory)?;
        Ok(Splitter {
            ready,
            pending,
            given: false,
            place: ScanState::Outside,
            ended: false,
            feeds: 0,
            begun: 0,
            line: 1,
            columns: Columns::new(),
        })
    }

    /// Feeds the next part, of at most 65,536 bytes, before the end of the input. It may be called at the start, or
    /// after `next_statement` returned None. It allocates nothing.
    pub fn feed(&mut self, bytes: &[u8])
        requires open { IsFalse self.old.ended }
        requires drained { self.old.ready ≡ List.[] }
        requires small { length bytes.now ≤ 65_536 }
        ensures { Feeds self.old self.new bytes.now }
    {
        self.ready.fill(bytes);
    }

    /// Whether all bytes that were fed are scanned, so that the next part may be fed.
    pub fn is_drained(&self) -> bool
        ensures { result ≡ is_empty self.now.ready }
    {
        self.ready.is_empty()
    }

    /// Marks the end of the input.
    pub fn finish(&mut self)
        ensures { Finishes self.old self.new }
    {
        self.ended = true;
    }

    /// Whether the input has ended.
    pub fn is_finished(&self) -> bool
        ensures { result ≡ self.now.ended }
    {
        self.ended
    }

    /// Returns the line on which the statement that was returned last begins, after blanks and comments. The first line
    /// is 1, and the count saturates at 2^64 - 1.
    pub fn line(&self) -> u64
        ensures { result ≡ self.now.line }
    {
        self.line
    }

    /// Returns the column at which the statement that was returned last begins, after blanks and comments: the number
    /// of characters before it on its line. Each byte that may begin a UTF-8 character counts as one character.
    pub fn column(&self) -> u64 {
        self.columns.given()
    }

    /// Clears the pending text if it was returned.
    fn forget(&mut self)
        ensures { self.new ≡ forgotten self.old }
    {
        if self.given {
            self.pending.clear();
            self.given = false;
        }
    }

    /// Scans a byte that does not end a piece.
    fn look(&mut self, byte: u8)
        ensures { LooksAt byte self.old self.new }
    {
        if !self.pending.is_begun() {
            self.begun = self.feeds;
            self.columns.begin();
        }
        self.columns.pass(byte);
        self.pending.look(byte, is_comment(self.place));
        self.place = state_after(self.place, byte);
        if byte == b'\n' {
            self.feeds = self.feeds.saturating_add(1);
        }
    }

    /// Scans the plain bytes that come next in one step, where a text has begun and plain bytes keep the state.
    fn look_on(&mut self)
        ensures { LooksOn self.old self.new }
    {
        if self.pending.is_text() && is_steady(self.place) {
            let run = self.ready.plain();
            let count = run.len();
            self.pending.put_all(run);
            self.columns.pass_ascii(count);
            self.ready.skip(count);
        }
    }

    /// Ends a piece, and returns whether it has a text, which then counts as returned.
    fn close(&mut self) -> bool
        ensures { Closes result self.old self.new }
    {
        self.pending.end();
        self.place = ScanState::Outside;
        self.given = self.pending.is_begun();
        if self.given {
            self.line = self.begun.saturating_add(1);
            self.columns.give();
        }
        self.columns.pass(b';');
        self.given
    }

    /// Scans a byte and, if it does not end a piece, the plain bytes after it. Returns whether it ended a statement.
    fn take(&mut self, byte: u8) -> bool
        requires { IsFalse self.old.given }
        ensures { TakesOn byte result self.old self.new }
    {
        if byte == b';' && can_end(self.place) {
            self.close()
        } else {
            self.look(byte);
            self.look_on();
            false
        }
    }

    /// Advances to the end of the next statement, and returns whether a `;` ended it; None where there is none yet.
    fn advance(&mut self) -> Option<bool>
        ensures { Advances self.old result self.new }
    {
        self.forget();
        while let Some(byte) = self.ready.take() {
            if self.take(byte) {
                return Some(true);
            }
        }
        if self.ended && self.pending.is_begun() {
            self.close();
            return Some(false);
        }
        None
    }

    /// Returns the next statement: its text from the first byte that is neither a blank nor in a comment up to its `;`.
    /// Returns None where the bytes that were fed contain no whole statement; then the next part may be fed. After the
    /// end of the input, a last text without a `;` is returned as `Unfinished`. A text of more than 1,048,576 bytes is
    /// not kept, and is returned once, where it ends, as `TooLong`. If an allocation fails for a text of more than
    /// 65,536 bytes, its bytes are dropped, and `NoMemory` is returned once, where it ends. A shorter text needs no
    /// allocation. The limits, and that a `;` in a text, a quoted name or a comment ends nothing, are this project's
    /// choice.
    pub fn next_statement(&mut self) -> Option<Piece<'_>>
        ensures* next { sem 𝓛 (EndsAs self.entry result) }
    {
        let finished = self.advance()?;
        Some(self.pending.piece(finished))
    }
}
