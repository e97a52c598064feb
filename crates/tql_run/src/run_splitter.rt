//! The splitter of a run, with the line on which the open transaction was opened.
ghost use Rattle.std.specs.Prelude.{◌≡◌, ◌≤◌, length, List, IsFalse, IfOk};
ghost use Rattle.tql_spec.specs.Words.{is_empty};
ghost use Rattle.tql_splitter.specs.Feeding.{Feeds, Finishes};

use std::alloc::AllocError;
use std::marker::Model;
use tql_memory::Memory;
use tql_result::reply::Verb;
use tql_splitter::splitter::Splitter;

/// A splitter, and the line of the START TRANSACTION for the transaction that is open. The line is known only if the
/// statement came from this splitter. It appears in details only, so no contract covers it.
#[derive(Drop)]
pub struct RunSplitter {
    pub splitter: Splitter,
    pub since: Option<u64>,
}

impl Model for RunSplitter {
    ghost use Rattle.tql_splitter.specs.Stream.{Stream};

    ghost Value = { Stream };

    ghost view = { λ s. s.splitter };
}

impl RunSplitter {
    ghost use Rattle.std.specs.Prelude.{[]};
    ghost use Rattle.tql_splitter.specs.Holding.{Holds};

    /// Creates a splitter that was fed nothing, as `Splitter::new` does.
    pub fn new(memory: Memory) -> Result<RunSplitter, AllocError>
        ensures holds { IfOk result (λ s. Holds s List.[] List.[]) }
        ensures ready { IfOk result (λ s. s.ready ≡ List.[]) }
        ensures open { IfOk result (λ s. IsFalse s.ended) }
    {
        let splitter = Splitter::new(memory)?;
        Ok(RunSplitter {
            splitter,
            since: None,
        })
    }

    /// Feeds the next part, of at most 65,536 bytes, as `Splitter::feed` does.
    pub fn feed(&mut self, bytes: &[u8])
        requires open { IsFalse self.old.ended }
        requires drained { self.old.ready ≡ List.[] }
        requires small { length bytes.now ≤ 65_536 }
        ensures { Feeds self.old self.new bytes.now }
    {
        self.splitter.feed(bytes);
    }

    /// Whether all bytes that were fed are scanned, so that the next part may be fed.
    pub fn is_drained(&self) -> bool
        ensures { result ≡ is_empty self.now.ready }
    {
        self.splitter.is_drained()
    }

    /// Marks the end of the input.
    pub fn finish(&mut self)
        ensures { Finishes self.old self.new }
    {
        self.splitter.finish();
    }

    /// Whether the input has ended.
    pub fn is_finished(&self) -> bool
        ensures { result ≡ self.now.ended }
    {
        self.splitter.is_finished()
    }

    /// Returns the line on which the statement that was returned last begins, as `Splitter::line` does.
    pub fn line(&self) -> u64
        ensures { result ≡ self.now.line }
    {
        self.splitter.line()
    }

    /// Returns the number of characters before that statement on its line, as `Splitter::column` does.
    pub fn column(&self) -> u64 {
        self.splitter.column()
    }

    /// Updates the line of the open transaction after the statement that was returned last has done this.
    pub fn note(&mut self, verb: Verb)
        ensures { self.new ≡ self.old }
    {
        match verb {
            Verb::Started => self.since = Some(self.splitter.line()),
            Verb::Committed | Verb::RolledBack => self.since = None,
            _ => {}
        }
    }
}
