//! Details of refused statements that depend on rows or on the state of the engine. A refused statement changes
//! nothing. So it is bound and its rows are computed again, and the failed tests are repeated.
ghost use Rattle.std.specs.Prelude.{◌<◌, length};

use crate::held::Held;
use crate::sense::read_statement;
use std::alloc::AllocError;
use tql_bind::binder::bind;
use tql_bind::limits::Limits;
use tql_bind_expr::texts::{is_same_text, meant};
use tql_bound::bound::Bound;
use tql_bound::change::{Insertion, Modification, QueryInsertion};
use tql_bound::query::BoundQuery;
use tql_catalog::catalog::Table;
use tql_detail::detail::Detail;
use tql_expr::row::Row;
use tql_index::index::IntervalIndex;
use tql_key_failures::failures::{RowRef, failed_key, failed_reference};
use tql_memory::Memory;
use tql_new_rows::failures::{
    first_failed_value, first_failure, inserted_rows, modified_rows, tuple_rows,
};
use tql_plan_access::choosing::change_access;
use tql_row_message::calculations::{change_detail, query_detail};
use tql_row_message::cells::{Cells, Subject};
use tql_row_message::faults::{fault_detail, value_detail};
use tql_row_message::horizon::early_moment;
use tql_row_message::keys::{Rival, key_detail};
use tql_row_message::references::{missing_detail, referenced_detail};
use tql_row_message::state::{
    clock_detail, horizon_detail, reader_detail, readers_detail, transaction_detail,
};
use tql_store::snapshot::Snapshot;
use tql_store::store::Delta;
use tql_syntax_tree::statement::Statement;
use tql_value::calendar::FIRST_MOMENT;
use tql_value::refusal::Refusal;
use tql_value::value::Value;
use tql_value::when::When;

/// Packs the rows of an answer. The only error is a refused allocation.
fn packed_answer(
    memory: Memory,
    rows: &[Vec<Value, Memory>],
) -> Result<Vec<Row, Memory>, AllocError> {
    let mut packed = Vec::with_capacity(memory, rows.len())?;
    for row in rows {
        packed.push(Row::of_values(memory, row)?)?;
    }
    Ok(packed)
}

/// Returns how a detail names a new row: by its number in an INSERT.
fn subject(is_insert: bool, row: usize) -> Subject {
    if is_insert {
        Subject::Numbered(row)
    } else {
        Subject::Changed
    }
}

impl<I: IntervalIndex> Held<'_, I> {
    ghost use Rattle.std.specs.Prelude.{IsFalse, IsTrue};
    ghost use Rattle.tql_spec.specs.Syntax.{is_too_wide};
    ghost use Rattle.tql_bound.specs.Bounds.{IsSound};
    ghost use Rattle.tql_bound.specs.Placed.{IsPlacedQuery};
    ghost use Rattle.tql_bound.specs.Queries.{bound_query_of};
    ghost use Rattle.tql_catalog.specs.Tables.{definitions_of};
    ghost use Rattle.tql_store.specs.StoreModel.{has_table};
    ghost use Rattle.tql_syntax_tree.specs.Statements.{statement_of};
    ghost use Rattle.tql_engine_state.specs.Allowed.{AsksWithin, IsAllowed};

    /// Returns the detail of the first row that fails by itself (E30 and E32 to E34). `listed` has the numbers of the
    /// columns to which an INSERT gives values.
    fn fault_of(
        &self,
        table: &Table,
        rows: &[Row],
        listed: Option<&[usize]>,
        refusal: Refusal,
    ) -> Option<Detail> {
        let definition = &table.definition;
        let failure = first_failure(definition, rows, refusal)?;
        let row = rows.get(failure.row)?;
        let cells = Cells { definition, row };
        let subject = subject(listed.is_some(), failure.row);
        fault_detail(self.memory, subject, &cells, failure.failed, listed)
    }

    /// Returns the cells of the row that a row clashes with, and which row it is.
    fn rival<'a>(
        &'a self,
        table: &'a Table,
        delta: &'a Delta,
        is_insert: bool,
        other: RowRef,
    ) -> Option<Rival<'a>>
        requires there { IsTrue (has_table self.now.store table.now.id) }
    {
        let definition = &table.definition;
        match other {
            RowRef::Added(number) => {
                let row = delta.added.get(number)?;
                Some(Rival {
                    cells: Cells { definition, row },
                    subject: Some(subject(is_insert, number)),
                })
            }
            RowRef::Stored(id) => {
                let kept = self.store.row(table.id, id)?.kept;
                let row = &kept.row;
                Some(Rival {
                    cells: Cells { definition, row },
                    subject: None,
                })
            }
        }
    }

    /// Returns the detail of the first key that fails (E35).
    fn key_fault(&self, place: usize, delta: &Delta, is_insert: bool) -> Option<Detail>
        requires within { place < length self.now.tables }
    {
        let table = self.table_at(place);
        let found = failed_key(self.memory, self.store, table, delta, self.next).ok()?;
        let failure = found?;
        let definition = &table.definition;
        let row = delta.added.get(failure.row)?;
        let cells = Cells { definition, row };
        let rival = self.rival(table, delta, is_insert, failure.other)?;
        let subject = subject(is_insert, failure.row);
        key_detail(self.memory, subject, &cells, failure.key, &rival)
    }

    /// Returns the detail of the first reference that fails (E36).
    fn reference_fault(&self, place: usize, delta: &Delta, is_insert: bool) -> Option<Detail>
        requires within { place < length self.now.tables }
    {
        let found = failed_reference(
            self.memory,
            self.tables,
            self.store,
            place,
            delta,
            self.next,
        )
        .ok()?;
        let failure = found?;
        let child = self.table_at(failure.child);
        let definition = &child.definition;
        match failure.row {
            RowRef::Added(number) => {
                let row = delta.added.get(number)?;
                let cells = Cells { definition, row };
                let subject = subject(is_insert, number);
                missing_detail(self.memory, subject, &cells, failure.reference)
            }
            RowRef::Stored(id) => {
                let kept = self.store.row(child.id, id)?.kept;
                let row = &kept.row;
                let cells = Cells { definition, row };
                let parent = &self.table_at(place).definition;
                referenced_detail(self.memory, &cells, failure.reference, parent)
            }
        }
    }

    /// Returns the detail of a change that violates a key or a reference. Each of its rows passes the tests that need
    /// no other row.
    fn change_fault(
        &self,
        place: usize,
        delta: &Delta,
        is_insert: bool,
        refusal: Refusal,
    ) -> Option<Detail>
        requires within { place < length self.now.tables }
    {
        match refusal {
            Refusal::DuplicateKey => self.key_fault(place, delta, is_insert),
            Refusal::ReferenceNotMet => self.reference_fault(place, delta, is_insert),
            _ => None,
        }
    }

    /// Returns the detail of rows that an INSERT adds, whose values are for the columns of these numbers.
    fn added_fault(
        &self,
        place: usize,
        added: Vec<Row, Memory>,
        columns: &[usize],
        refusal: Refusal,
    ) -> Option<Detail>
        requires within { place < length self.now.tables }
    {
        let table = self.table_at(place);
        if let Some(detail) = self.fault_of(table, &added, Some(columns), refusal) {
            return Some(detail);
        }
        let delta = Delta {
            table: table.id,
            removed: Vec::new(self.memory),
            count: added.len() as u64,
            added,
        };
        self.change_fault(place, &delta, true, refusal)
    }

    /// Returns the detail of an INSERT of tuples.
    fn insertion_fault(&self, insertion: &Insertion, refusal: Refusal) -> Option<Detail>
        requires within { insertion.now.table < length self.now.tables }
    {
        let table = self.table_at(insertion.table);
        match first_failed_value(insertion) {
            Some(failure) if refusal == Refusal::ValueOutOfRange => {
                let column = *insertion.columns.get(failure.value)?;
                return value_detail(self.memory, &table.definition, failure.row, column);
            }
            _ => {}
        }
        let rows = tuple_rows(self.memory, table, insertion).ok()?;
        self.added_fault(insertion.table, rows, &insertion.columns, refusal)
    }

    /// Returns the detail of a query that cannot be calculated.
    fn calculation_fault(&self, query: &BoundQuery, refusal: Refusal) -> Option<Detail> {
        if refusal != Refusal::ValueOutOfRange {
            return None;
        }
        query_detail(self.memory, self.tables, query)
    }

    /// Returns the detail of an INSERT from a query. It numbers the rows in the order in which the query prints them.
    fn query_fault(&self, insertion: &QueryInsertion, refusal: Refusal) -> Option<Detail>
        requires within { insertion.now.table < length self.now.tables }
        requires placed { IsPlacedQuery (definitions_of self.now.tables) (bound_query_of insertion.now.query) }
        requires asked { AsksWithin self.now (bound_query_of insertion.now.query) }
    {
        let table = self.table_at(insertion.table);
        let shown = Snapshot::now(self.store);
        match self.answered(&shown, &insertion.query) {
            Ok(answer) => {
                let values = packed_answer(self.memory, &answer.rows).ok()?;
                let rows = inserted_rows(self.memory, table, &insertion.columns, values).ok()?;
                self.added_fault(insertion.table, rows, &insertion.columns, refusal)
            }
            Err(_) => self.calculation_fault(&insertion.query, refusal),
        }
    }

    /// Returns the rows that an UPDATE or DELETE adds.
    fn touched_rows(&self, modification: &Modification) -> Result<Vec<Row, Memory>, Refusal>
        requires within { modification.now.table < length self.now.tables }
    {
        let table = self.table_at(modification.table);
        let access = change_access(
            self.memory,
            &table.definition,
            &modification.terms,
            &modification.conjuncts,
            modification.portion,
        )?;
        let seen = self.store.look(table.id, When::Now, access.sought())?;
        modified_rows(self.memory, table, &seen, modification)
    }

    /// Returns the detail of an UPDATE or DELETE.
    fn modification_fault(&self, modification: &Modification, refusal: Refusal) -> Option<Detail>
        requires within { modification.now.table < length self.now.tables }
    {
        if let Ok(delta) = self.delta_of(modification) {
            return self.change_fault(modification.table, &delta, false, refusal);
        }
        let table = self.table_at(modification.table);
        match self.touched_rows(modification) {
            Ok(rows) => self.fault_of(table, &rows, None, refusal),
            Err(_) => change_detail(self.memory, &table.definition, modification),
        }
    }

    /// Returns the detail of the rows of a bound statement.
    fn bound_fault(&self, bound: &Bound, refusal: Refusal) -> Option<Detail>
        requires sound { IsSound (definitions_of self.now.tables) bound.now }
        requires allowed { IsAllowed self.now bound.now }
    {
        match bound {
            Bound::Insert(insertion) => self.insertion_fault(insertion, refusal),
            Bound::InsertFrom(insertion) => self.query_fault(insertion, refusal),
            Bound::Modify(modification) => self.modification_fault(modification, refusal),
            Bound::AnswerQuery(query) => self.calculation_fault(query, refusal),
            Bound::Read(reading) => self.calculation_fault(&reading.query, refusal),
            _ => None,
        }
    }

    /// Returns the detail of the rows of a statement that the transaction, the clock and open readers allow.
    fn statement_fault(
        &self,
        statement: &Statement<'_>,
        refusal: Refusal,
    ) -> Result<Option<Detail>, AllocError>
        requires narrow { IsFalse (is_too_wide (statement_of statement.now)) }
    {
        if let Some(_fault) = self.state_fault(statement)? {
            return Ok(None);
        }
        match self.bound(self.memory, statement) {
            Ok(bound) => Ok(self.bound_fault(&bound, refusal)),
            Err(_) => Ok(None),
        }
    }

    /// Returns the detail of a statement that is refused for its rows (E30 and E32 to E36): the row, the column or the
    /// constraint, and the values. None if it is refused for something else, or if an allocation is refused.
    pub(super) fn row_detail(&self, text: &[u8], refusal: Refusal) -> Option<Detail> {
        match read_statement(self.memory, text) {
            Ok(tree) => self.statement_fault(&tree.statement, refusal).ok()?,
            Err(_) => None,
        }
    }

    /// Returns the detail of a reader that is open but must not be, or the reverse (E46).
    fn reader_fault(&self, text: &[u8]) -> Option<Detail> {
        let tree = read_statement(self.memory, text).ok()?;
        let (name, opens) = match &tree.statement {
            Statement::OpenReader(name) => (name, true),
            Statement::Read(name, _) | Statement::CloseReader(name) => (name, false),
            _ => return None,
        };
        let name = meant(self.memory, *name).ok()?;
        let is_open = self
            .readers
            .iter()
            .any(|reader| is_same_text(&name, &reader.name));
        reader_detail(self.memory, name.as_str(), opens, is_open)
    }

    /// Returns the moment before the horizon for which a statement is refused (E45). The statement is bound again with
    /// the first moment as the horizon, before which there is none. None if it then has another fault, or if an
    /// allocation is refused.
    fn early_moment_of(&self, text: &[u8]) -> Option<i64> {
        let tree = read_statement(self.memory, text).ok()?;
        let limits = Limits {
            horizon: FIRST_MOMENT,
            readers: self.readers,
        };
        match bind(self.memory, self.tables, &tree.statement, &limits) {
            Ok(bound) => early_moment(&bound, self.store.horizon()),
            Err(_) => None,
        }
    }

    /// Returns the detail that the state of the engine gives to a refused statement (E40, E41 and E45 to E47). None for
    /// any other refusal, or if an allocation is refused.
    pub(super) fn state_detail(&self, text: &[u8], refusal: Refusal) -> Option<Detail> {
        match refusal {
            Refusal::NotInThisTransactionState => {
                transaction_detail(self.memory, self.store.has_transaction())
            }
            Refusal::MomentNotAllowed => clock_detail(self.memory, self.next, self.store.pin()),
            Refusal::BeforeTheHorizon => {
                let moment = self.early_moment_of(text);
                horizon_detail(self.memory, self.store.horizon(), moment)
            }
            Refusal::ReaderNotUsable => self.reader_fault(text),
            Refusal::ReadersAreOpen => {
                let name = self.readers.first()?.name.as_str();
                readers_detail(self.memory, name, self.readers.len().saturating_sub(1))
            }
            _ => None,
        }
    }
}
