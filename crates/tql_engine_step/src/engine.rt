//! The engine: its state, and its reply to a statement.
ghost use Rattle.std.specs.Prelude.{◌≡◌, IfOk, IsFalse, IsTrue};

mod changes;
mod clock;
mod creation;
mod definitions;
mod dropping;
mod horizon;
mod queries;
mod reading;
mod transactions;

use crate::lending::{has_room, is_counted, kept_from, kept_now, lent_after};
use std::cell::Cell;
use std::marker::Model;
use tql_bound::bound::Bound;
use tql_bound::reader::Reader;
use tql_catalog::catalog::Catalog;
use tql_detail::detail::Detail;
use tql_engine_read::held::Held;
use tql_engine_read::sense::read_statement;
use tql_index::index::IntervalIndex;
use tql_memory::Memory;
use tql_result::answer::Answer;
use tql_result::reply::Reply;
use tql_run::responder::Responder;
use tql_spec::refused_statements;
use tql_store::store::Store;
use tql_syntax::ending::{TransactionEnd, transaction_end};
use tql_syntax_tree::statement::Statement;
use tql_value::calendar::FIRST_MOMENT;
use tql_value::refusal::Refusal;

/// An engine: its tables, the store of their rows, the moment of the next transaction, and the open readers. Tables and
/// readers are in the order of their creation. The moment is in microseconds since 1970-01-01. The reserve is the
/// number of bytes that are kept back from statements that may keep memory.
pub struct Engine<I: IntervalIndex> {
    memory: Memory,
    tables: Catalog,
    store: Store<I>,
    next: i64,
    readers: Vec<Reader, Memory>,
    reserve: usize,
    /// The bytes that DELETEs have kept of the reserve: lists of the rows that are free, say.
    lent: Cell<usize>,
}

impl<I: IntervalIndex> Drop for Engine<I> {
    fn drop(self) {
        let Engine {
            memory: _,
            tables,
            store,
            next: _,
            readers,
            reserve: _,
            lent: _,
        } = self;
        drop(tables);
        drop(store);
        drop(readers);
    }
}

impl<I: IntervalIndex> Model for Engine<I> {
    ghost use Rattle.tql_tree_index.specs.contracts.tree_index.TreeIndex.{the_row as tree_row};
    ghost use Rattle.tql_tree_index.specs.contracts.tree_index.TreeIndexIntervalIndex.TheImpl.{ghosts};
    ghost use Rattle.tql_store.specs.contracts.store.Store.{the_row};
    ghost use Rattle.std.specs.Prelude.{map};
    ghost use Rattle.tql_engine_state.specs.Readers.{reader_of};
    ghost use Rattle.tql_engine_state.specs.Stands.{EngineModel, held_code, IsSound};

    ghost Value = { EngineModel };

    ghost coded = { held_code (the_row tree_row ghosts).coded };

    ghost view = { λ e. record {
      tables = e.tables;
      store = e.store;
      next = e.next;
      readers = map reader_of e.readers.items;
    } };

    ghost invariant = { λ e. IsSound (record {
      tables = e.tables;
      store = e.store;
      next = e.next;
      readers = map reader_of e.readers.items;
    }) };
}

impl<I: IntervalIndex> Engine<I> {
    ghost use Rattle.std.specs.Prelude.{ℕ};
    ghost use Rattle.std.specs.List.{list_all};
    ghost use Rattle.tql_spec.specs.Definition.{TableDef};
    ghost use Rattle.tql_spec.specs.Machine.{State, CreateTable, DropTable, new_state, step};
    ghost use Rattle.tql_spec.specs.Run.{Answers, finished, respond};
    ghost use Rattle.tql_spec.specs.Syntax.{is_too_wide};
    ghost use Rattle.tql_spec.specs.TypingLaws.{IsTypedBound};
    ghost use Rattle.tql_syntax_tree.specs.Statements.{statement_of};
    ghost use Rattle.tql_run.specs.Responding.{Answered};
    ghost use Rattle.tql_bound.specs.Bounds.{IsSound, bound_of};
    ghost use Rattle.tql_catalog.specs.Tables.{can_have, definitions_of};
    ghost use Rattle.tql_result.specs.Replies.{reply_of, IsPrintableReply};
    ghost use Rattle.tql_engine_step.specs.HoldPoints.{HoldsFor};
    ghost use Rattle.tql_engine_step.specs.Lending.{keeps_memory, MayBorrow};
    ghost use Rattle.tql_engine_state.specs.Stands.{StandsFor};
    ghost use Rattle.tql_engine_state.specs.Allowed.{IsAllowed};
    ghost use Rattle.tql_engine_state.specs.Dropping.{IsDropped};
    ghost use Rattle.tql_run.specs.Ending.{EndsTransaction, IsEnded};
    ghost use Rattle.tql_engine_state.specs.Effects.{DoesStep, reply_by};

    /// Returns an engine without tables, whose clock is at the first moment of the calendar.
    #[tactic(auto, using(tql_engine_state::proofs::Standing::new_law, crate::proofs::HoldPoints::new_holds))]
    pub fn new(memory: Memory) -> Engine<I>
        ensures stands { StandsFor result new_state }
        ensures holds { HoldsFor result new_state }
    {
        Engine::with_reserve(memory, 0)
    }

    /// Returns an engine as `new` does, which keeps back a number of bytes of the memory's limit from each statement
    /// that may keep memory when it has ended: CREATE TABLE, INSERT, UPDATE, DELETE FOR PORTION OF and OPEN READER. Any
    /// other statement that is refused for memory is run once more with them: a query, say, or a DELETE that makes
    /// room. DELETE may not take the last 65,536 of these bytes, and queries not the last 32,768, so DROP TABLE, PRUNE
    /// HISTORY and CLOSE READER always run. While no statement runs, nothing is kept back.
    #[tactic(auto, using(tql_engine_state::proofs::Standing::new_law, crate::proofs::HoldPoints::new_holds))]
    pub fn with_reserve(memory: Memory, kept_back: usize) -> Engine<I>
        ensures stands { StandsFor result new_state }
        ensures holds { HoldsFor result new_state }
    {
        Engine {
            memory,
            tables: Catalog::new(memory),
            store: Store::new(memory),
            next: FIRST_MOMENT,
            readers: Vec::new(memory),
            reserve: kept_back,
            lent: Cell::new(0),
        }
    }

    /// Returns the parts of the engine, by reference, for what changes nothing.
    fn held(&self) -> Held<'_, I>
        ensures { result ≡ self.now }
    {
        Held {
            memory: self.memory,
            tables: &self.tables,
            store: &self.store,
            next: self.next,
            readers: &self.readers,
        }
    }

    /// Runs a bound statement, which the transaction, the clock, the horizon and open readers allow. A refused
    /// statement changes nothing.
    pub(crate) fn perform(&mut self, bound: Bound) -> Result<Reply, Refusal>
        requires sound { IsSound (definitions_of self.old.tables) bound }
        requires allowed { IsAllowed self.old bound }
        requires typed { IsTypedBound (definitions_of self.old.tables) (bound_of bound) }
        requires dropped { (t : ℕ) → bound_of bound ≡ DropTable t → IsDropped (definitions_of self.old.tables) t }
        requires parents { (d : TableDef) → bound_of bound ≡ CreateTable d
            → IsTrue (list_all (can_have (definitions_of self.old.tables)) d.references) }
        ensures { (s : State) → StandsFor self.old s → DoesStep self.new s result (step s (bound_of bound)) }
    {
        match bound {
            Bound::CreateTable(definition) => self.create(definition),
            Bound::DropTable(place) => Ok(self.drop_table(place)),
            Bound::Insert(insertion) => self.insert(&insertion),
            Bound::InsertFrom(insertion) => self.insert_from(&insertion),
            Bound::Modify(modification) => self.modify(&modification),
            Bound::AnswerQuery(query) => self.held().answer_query(&query),
            Bound::SetClock(moment) => self.at(moment),
            Bound::Prune(moment) => Ok(self.prune(moment)),
            Bound::OpenReader(name) => self.open_reader(name),
            Bound::Read(read) => self.held().read(&read),
            Bound::CloseReader(name) => Ok(self.close_reader(&name)),
            Bound::Start => Ok(self.start()),
            Bound::Commit => self.commit(),
            Bound::Rollback => self.rollback(),
        }
    }

    /// Runs a statement. A refused statement changes nothing.
    pub(crate) fn execute(&mut self, statement: &Statement<'_>) -> Result<Reply, Refusal>
        requires narrow { IsFalse (is_too_wide (statement_of statement.now)) }
        ensures answered { (s : State) → StandsFor self.old s
            → DoesStep self.new s result (respond s (statement_of statement.now)) }
        ensures printable { IfOk result (λ reply. IsPrintableReply (reply_of reply)) }
    {
        if let Some(fault) = self.held().state_fault(statement)? {
            return Err(fault);
        }
        match self.held().bound(self.memory, statement) {
            Ok(bound) => self.perform(bound),
            Err(fault) => Err(fault),
        }
    }

    /// Parses a text and runs its statement.
    fn run_once(&mut self, text: &[u8]) -> Result<Reply, Refusal>
        ensures answered { (s : State) → StandsFor self.old s
            → Answered Answers s (finished text.now) (reply_by result) (StandsFor self.new) }
        ensures printable { IfOk result (λ reply. IsPrintableReply (reply_of reply)) }
    {
        match read_statement(self.memory, text) {
            Ok(tree) => self.execute(&tree.statement),
            Err(refusal) => Err(refusal),
        }
    }

    /// Counts what a DELETE, or a statement that frees memory, has kept of the reserve or given back. What an open
    /// transaction keeps is not counted, since a ROLLBACK gives it back.
    fn count_lent(&self, kept: usize, before: usize) {
        if is_counted(self.reserve, kept) && !self.store.has_transaction() {
            let lent = lent_after(self.lent.get(), before, self.memory.in_use());
            self.lent.set(lent);
        }
    }

    /// Keeps the reserve back, but for what DELETEs have kept of it: otherwise a full table that was emptied could not
    /// be filled again, since the list of its free rows takes some of the reserve.
    fn keep_reserve(&self) {
        self.memory.keep_back(self.reserve);
        if self.lent.get() != 0 && has_room(self.memory) {
            self.lent.set(0);
        }
        self.memory
            .keep_back(kept_now(self.reserve, self.lent.get()));
    }

    /// Runs a statement that was refused for memory with memory of the reserve, if it keeps none. Any other one stays
    /// refused.
    #[tactic(auto, using(crate::proofs::Borrowing::lent_only, crate::proofs::Borrowing::refused_does))]
    fn execute_lent(
        &mut self,
        statement: &Statement<'_>,
        refusal: Refusal,
    ) -> Result<Reply, Refusal>
        requires narrow { IsFalse (is_too_wide (statement_of statement.now)) }
        requires memory { refusal ≡ Refusal.OutOfMemory }
        ensures answered { (s : State) → StandsFor self.old s
            → DoesStep self.new s result (respond s (statement_of statement.now)) }
        ensures printable { IfOk result (λ reply. IsPrintableReply (reply_of reply)) }
        ensures lent { IfOk result (λ reply. IsFalse (keeps_memory (statement_of statement.now))) }
    {
        match kept_from(self.reserve, statement) {
            Some(kept) => {
                self.memory.keep_back(kept);
                let before = self.memory.in_use();
                let outcome = self.execute(statement);
                self.count_lent(kept, before);
                outcome
            }
            None => Err(refusal),
        }
    }

    /// Parses a text, whose statement was refused for memory, and runs it as `execute_lent` does.
    fn run_lent(&mut self, text: &[u8], refusal: Refusal) -> Result<Reply, Refusal>
        requires memory { refusal ≡ Refusal.OutOfMemory }
        ensures answered { (s : State) → StandsFor self.old s
            → Answered Answers s (finished text.now) (reply_by result) (StandsFor self.new) }
        ensures printable { IfOk result (λ reply. IsPrintableReply (reply_of reply)) }
        ensures lent { IfOk result (λ reply. MayBorrow text.now) }
    {
        self.memory.keep_back(0);
        match read_statement(self.memory, text) {
            Ok(tree) => self.execute_lent(&tree.statement, refusal),
            Err(refusal) => Err(refusal),
        }
    }

    /// Parses a text and runs its statement. If it is refused for memory, it has changed nothing. Then it is run once
    /// more as `run_lent` does, if there is a reserve.
    fn run_again(&mut self, text: &[u8]) -> Result<Reply, Refusal>
        ensures answered { (s : State) → StandsFor self.old s
            → Answered Answers s (finished text.now) (reply_by result) (StandsFor self.new) }
        ensures printable { IfOk result (λ reply. IsPrintableReply (reply_of reply)) }
    {
        refused_statements();
        match self.run_once(text) {
            Err(refusal @ Refusal::OutOfMemory) if self.reserve != 0 => {
                self.run_lent(text, refusal)
            }
            outcome => outcome,
        }
    }

    /// Parses a text and runs its statement as `run_again` does, with the reserve kept back until it is refused.
    fn run_text(&mut self, text: &[u8]) -> Result<Reply, Refusal>
        ensures answered { (s : State) → StandsFor self.old s
            → Answered Answers s (finished text.now) (reply_by result) (StandsFor self.new) }
        ensures printable { IfOk result (λ reply. IsPrintableReply (reply_of reply)) }
    {
        self.keep_reserve();
        let outcome = self.run_again(text);
        self.memory.keep_back(0);
        outcome
    }

    /// Runs the statement of a text. COMMIT and ROLLBACK are recognized without parsing, which takes no memory.
    fn try_step(&mut self, text: &[u8]) -> Result<Reply, Refusal>
        ensures answered { (s : State) → StandsFor self.old s
            → Answered Answers s (finished text.now) (reply_by result) (StandsFor self.new) }
        ensures printable { IfOk result (λ reply. IsPrintableReply (reply_of reply)) }
        ensures ends { EndsTransaction text.now → IsEnded (reply_by result) }
    {
        match transaction_end(text) {
            Some(TransactionEnd::Commit) => self.commit(),
            Some(TransactionEnd::Rollback) => self.rollback(),
            None => self.run_text(text),
        }
    }

    /// Answers one statement, given by its text without its `;`. Any bytes are taken: a text of over 1,048,576 bytes,
    /// bytes that are not UTF-8, and a text that is no statement are refused. A refused statement changes nothing.
    ///
    /// COMMIT and ROLLBACK, with WORK or without, take no memory, so a transaction can always be ended. If keys and
    /// references hold at every point of time in each copy of the reference model, they still do afterwards (clause
    /// `holds`).
    pub fn step(&mut self, text: &[u8]) -> Reply
        ensures answered { (s : State) → StandsFor self.old s
            → Answered Answers s (finished text.now) (reply_of result) (StandsFor self.new) }
        ensures printable { IsPrintableReply (reply_of result) }
        ensures ends { EndsTransaction text.now → IsEnded (reply_of result) }
        ensures holds { (s : State) → HoldsFor self.old s
            → Answered Answers s (finished text.now) (reply_of result) (HoldsFor self.new) }
    {
        match self.try_step(text) {
            Ok(reply) => reply,
            Err(refusal) => Reply::Refused(refusal),
        }
    }
}

impl<I: IntervalIndex> Responder for Engine<I> {
    ghost use Rattle.tql_run.specs.Ending.{Responds};
    ghost use Rattle.tql_engine_state.specs.Stands.{StandsFor};
    ghost use Rattle.tql_run.proofs.Faults.{responds_refuse};

    ghost stands = { StandsFor };

    ghost answering = { Responds };

    fn memory(&self) -> Memory {
        self.memory
    }

    fn answer(&mut self, text: &[u8]) -> Answer {
        Answer::Replied(self.step(text))
    }

    fn detail(&self, text: &[u8], refusal: Refusal) -> Option<Detail> {
        self.held().detail(text, refusal)
    }

    ghost refuses = { responds_refuse };
}
