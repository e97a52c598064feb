//! The faults of the transaction, the clock and open readers. They are tested before the names of a statement are
//! bound, since they are reported before any fault that binding can give.
ghost use Rattle.std.specs.Prelude.{◌≡◌, option_map, is_some, is_none, ◌&&◌, IfOk, length, nat_lt};
ghost use Rattle.std.specs.List.{list_any};
ghost use Rattle.tql_engine_state.specs.Readers as held;
ghost use Rattle.tql_engine_state.specs.Readers.{KeptReader};

use crate::held::Held;
use std::alloc::AllocError;
use tql_bind_expr::texts::unquoted;
use tql_bound::reader::Reader;
use tql_index::index::IntervalIndex;
use tql_syntax_tree::statement::Statement;
use tql_value::calendar::HIGH;
use tql_value::literal::read_timestamp;
use tql_value::refusal::Refusal;

/// Whether the horizon is later than the pin of a reader.
fn is_passed(reader: &Reader, moment: i64) -> bool
    ensures { result ≡ held.is_passed moment reader.now.pin }
{
    match reader.pin {
        Some(pin) => pin < moment,
        None => true,
    }
}

impl<I: IntervalIndex> Held<'_, I> {
    ghost use Rattle.tql_spec.specs.Machine.{State, Defines, Starts, Prunes, state_faults, is_clock_at_end};
    ghost use Rattle.tql_spec.specs.Readers as machine;
    ghost use Rattle.tql_spec.specs.Refusal.{NotInThisTransactionState, MomentNotAllowed, ReadersAreOpen};
    ghost use Rattle.tql_spec.specs.Refusal.{first, fault_if};
    ghost use Rattle.tql_spec.specs.Binding.{statement_class};
    ghost use Rattle.tql_syntax_tree.specs.Statements.{statement_of};
    ghost use Rattle.tql_value.specs.Refusals.{refusal_of};
    ghost use Rattle.tql_engine_state.specs.Stands.{StandsFor};
    ghost use Rattle.tql_engine_state.specs.Effects.{asked_first};

    /// Returns the fault of a statement that is not allowed in a transaction, if one is open.
    fn open_fault(&self) -> Option<Refusal>
        ensures { (s : State) → StandsFor self.now s
            → option_map refusal_of result ≡ first (fault_if (is_some s.transaction) NotInThisTransactionState) }
    {
        if self.store.has_transaction() {
            Some(Refusal::NotInThisTransactionState)
        } else {
            None
        }
    }

    /// Whether any reader is open.
    fn has_readers(&self) -> bool
        ensures { result ≡ nat_lt 0 (length self.now.readers) }
    {
        0 < self.readers.len()
    }

    /// Returns the fault of CREATE TABLE and DROP TABLE: a transaction is open, or a reader is.
    fn defining_fault(&self) -> Option<Refusal>
        ensures { (s : State) → StandsFor self.now s → option_map refusal_of result ≡ first (state_faults s Defines) }
    {
        if self.store.has_transaction() {
            Some(Refusal::NotInThisTransactionState)
        } else if self.has_readers() {
            Some(Refusal::ReadersAreOpen)
        } else {
            None
        }
    }

    /// Whether the horizon is later than the pin of any reader.
    fn passes_some(&self, moment: i64) -> bool
        ensures { result ≡ list_any (λ (r : KeptReader). held.is_passed moment r.pin) self.now.readers }
    {
        self.readers.iter().any(|reader| is_passed(reader, moment))
    }

    /// Returns the fault of a horizon that is later than the pin of an open reader.
    #[tactic(auto, using(tql_engine_state::proofs::StateFaults::passed_is))]
    fn passing_fault(&self, moment: i64) -> Option<Refusal>
        ensures { (s : State) → StandsFor self.now s
            → option_map refusal_of result ≡ first (fault_if (machine.passes_some moment s.readers) ReadersAreOpen) }
    {
        if self.passes_some(moment) {
            Some(Refusal::ReadersAreOpen)
        } else {
            None
        }
    }

    /// Returns the fault of PRUNE HISTORY with this moment, if it is valid: a transaction is open, or a reader would
    /// lose its rows.
    fn pruning_fault(&self, moment: Option<i64>) -> Option<Refusal>
        ensures { (s : State) → StandsFor self.now s
            → option_map refusal_of result ≡ first (state_faults s (Prunes moment)) }
    {
        if self.store.has_transaction() {
            return Some(Refusal::NotInThisTransactionState);
        }
        match moment {
            Some(moment) => self.passing_fault(moment),
            None => None,
        }
    }

    /// Returns the fault of a change: no transaction is open, and the clock is at its last moment.
    fn undated_fault(&self) -> Option<Refusal>
        ensures { (s : State) → StandsFor self.now s → option_map refusal_of result
            ≡ first (fault_if (is_none s.transaction && is_clock_at_end s) MomentNotAllowed) }
    {
        if !self.store.has_transaction() && self.next >= HIGH {
            Some(Refusal::MomentNotAllowed)
        } else {
            None
        }
    }

    /// Returns the fault of START TRANSACTION.
    fn start_fault(&self) -> Option<Refusal>
        ensures { (s : State) → StandsFor self.now s → option_map refusal_of result ≡ first (state_faults s Starts) }
    {
        if self.store.has_transaction() {
            Some(Refusal::NotInThisTransactionState)
        } else if self.next >= HIGH {
            Some(Refusal::MomentNotAllowed)
        } else {
            None
        }
    }

    /// Returns the fault of the transaction, the clock or open readers that keeps a statement from running, whatever
    /// else is wrong with it. `at` tests whether its moment is too early, and `commit` and `rollback` whether a
    /// transaction is open. The only error is a refused allocation.
    pub fn state_fault(&self, statement: &Statement<'_>) -> Result<Option<Refusal>, AllocError>
        ensures { IfOk result (λ fault. (s : State) → StandsFor self.now s → option_map refusal_of fault
            ≡ first (state_faults s (asked_first (statement_class (statement_of statement.now))))) }
    {
        match statement {
            Statement::Create(_) | Statement::DropTable(_) => Ok(self.defining_fault()),
            Statement::At(_) => Ok(self.open_fault()),
            Statement::Prune(quoted) => {
                let text = unquoted(self.memory, quoted)?;
                Ok(self.pruning_fault(read_timestamp(&text)))
            }
            Statement::Insert(_) | Statement::Update(_) | Statement::Delete(_) => Ok(
                self.undated_fault(),
            ),
            Statement::StartTransaction => Ok(self.start_fault()),
            Statement::Query(_)
            | Statement::OpenReader(_)
            | Statement::Read(_, _)
            | Statement::CloseReader(_)
            | Statement::Commit
            | Statement::Rollback => Ok(None),
        }
    }
}
