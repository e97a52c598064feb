//! Binding of a whole statement: from the syntax tree to resolved names. All faults of names, types, forms and literals
//! are collected in one pass. Then the limits, the horizon and the open readers, are tested on the bound statement. Of
//! all faults the first in the order of report is the refusal. CREATE TABLE is bound by `tql_bind_table`; no limit
//! applies to it.
ghost use Rattle.std.specs.Prelude.{◌≤◌, All, IsFalse, IsTrue, IfOk, length, not};
ghost use Rattle.tql_spec.specs.Binding.{bind};
ghost use Rattle.tql_bind.specs.Limited.{bind_under, limits_of};
ghost use Rattle.tql_spec.specs.Syntax.{is_too_wide};
ghost use Rattle.tql_catalog.specs.Tables.{definitions_of};
ghost use Rattle.tql_syntax_tree.specs.Statements.{create_of, statement_of};
ghost use Rattle.tql_bind_expr.specs.Gathered.{Gathers};
ghost use Rattle.tql_bind_table.specs.Binds.{Binds};
ghost use Rattle.tql_bind.specs.Creations.{is_creation};
ghost use Rattle.tql_bound.specs.Bounds.{HasMoment, IsSound, bound_of};

use crate::drop_table::bind_drop;
use crate::insertions::insert;
use crate::limits::{Limits, refuse_by_limits};
use crate::queries::{bind_query, bind_read};
use std::alloc::AllocError;
use tql_bind_change::delete::delete_rows;
use tql_bind_change::update::update_rows;
use tql_bind_expr::about::{About, Cause};
use tql_bind_expr::faults::Faults;
use tql_bind_expr::moments::moment;
use tql_bind_table::create::{about_table, new_table};
use tql_bound::bound::Bound;
use tql_catalog::catalog::Catalog;
use tql_memory::Memory;
use tql_syntax_tree::statement::{CreateTree, Statement};
use tql_value::refusal::Refusal;

/// Binds CREATE TABLE.
fn create(memory: Memory, tables: &Catalog, create: &CreateTree<'_>) -> Result<Bound, Refusal>
    requires narrow { IsFalse (is_too_wide (create_of create.now)) }
    ensures binds { Binds bound_of (bind (definitions_of tables.now) (create_of create.now)) result }
    ensures sound { IfOk result (IsSound (definitions_of tables.now)) }
{
    match new_table(memory, tables, create) {
        Ok(definition) => Ok(Bound::CreateTable(definition)),
        Err(refusal) => Err(refusal),
    }
}

/// Binds a statement other than CREATE TABLE. Adds the faults of names, types, forms and literals. The only error is a
/// refused allocation.
fn bound(
    memory: Memory,
    tables: &Catalog,
    statement: &Statement<'_>,
    faults: &mut Faults,
) -> Result<Bound, AllocError>
    requires other { IsTrue (not (is_creation (statement_of statement.now))) }
    requires narrow { IsFalse (is_too_wide (statement_of statement.now)) }
    requires tables { All (λ d. length d.columns ≤ 64) (definitions_of tables.now) }
    ensures bound { IfOk result
        (λ b. Gathers (bind (definitions_of tables.now) (statement_of statement.now))
        faults.old faults.new (bound_of b)) }
    ensures within { IfOk result HasMoment }
{
    match statement {
        Statement::Create(_) => unreachable!(),
        Statement::DropTable(name) => {
            let place = bind_drop(memory, tables, *name, faults)?;
            Ok(Bound::DropTable(place))
        }
        Statement::Insert(tree) => insert(memory, tables, tree, faults),
        Statement::Update(tree) => {
            let modification = update_rows(memory, tables, tree, faults)?;
            Ok(Bound::Modify(modification))
        }
        Statement::Delete(tree) => {
            let modification = delete_rows(memory, tables, tree, faults)?;
            Ok(Bound::Modify(modification))
        }
        Statement::Query(tree) => {
            let query = bind_query(memory, tables, tree, faults)?;
            Ok(Bound::AnswerQuery(query))
        }
        Statement::StartTransaction => Ok(Bound::Start),
        Statement::Commit => Ok(Bound::Commit),
        Statement::Rollback => Ok(Bound::Rollback),
        Statement::At(quoted) => {
            let moment = moment(memory, 0, quoted, faults)?;
            Ok(Bound::SetClock(moment))
        }
        Statement::Prune(quoted) => {
            let moment = moment(memory, 0, quoted, faults)?;
            Ok(Bound::Prune(moment))
        }
        Statement::OpenReader(name) => Ok(Bound::OpenReader(name.meant(memory)?)),
        Statement::Read(name, tree) => bind_read(memory, tables, *name, tree, faults),
        Statement::CloseReader(name) => Ok(Bound::CloseReader(name.meant(memory)?)),
    }
}

/// Binds a statement other than CREATE TABLE. Refused for the first of its faults, including those of the limits.
fn faultless(
    memory: Memory,
    tables: &Catalog,
    statement: &Statement<'_>,
    limits: &Limits<'_>,
) -> Result<Bound, Refusal>
    requires other { IsTrue (not (is_creation (statement_of statement.now))) }
    requires narrow { IsFalse (is_too_wide (statement_of statement.now)) }
    requires tables { All (λ d. length d.columns ≤ 64) (definitions_of tables.now) }
    ensures binds { Binds bound_of (bind_under (limits_of limits.now) (definitions_of tables.now)
        (statement_of statement.now)) result }
    ensures sound { IfOk result (IsSound (definitions_of tables.now)) }
{
    let mut faults = Faults::none();
    let bound = bound(memory, tables, statement, &mut faults)?;
    refuse_by_limits(&bound, tables, limits, &mut faults);
    match faults.least() {
        Some(refusal) => Err(refusal),
        None => Ok(bound),
    }
}

/// Binds a statement of at most 64 columns and 8 table references, over tables of at most 64 columns. CREATE TABLE is
/// bound with its keys, references and checks.
///
/// # Errors
///
/// The first fault in the order of report, of names, types, forms and literals, and of the limits; or a refused
/// allocation. The faults of the limits are:
/// * A query, also that of an INSERT or a READ, reads moments before the horizon, or PRUNE HISTORY would move it back.
/// * OPEN READER names an open reader, or 256 readers are open.
/// * READ or CLOSE READER names a reader that is not open, or READ reads a table that is not system-versioned.
pub fn bind(
    memory: Memory,
    tables: &Catalog,
    statement: &Statement<'_>,
    limits: &Limits<'_>,
) -> Result<Bound, Refusal>
    requires narrow { IsFalse (is_too_wide (statement_of statement.now)) }
    requires tables { All (λ d. length d.columns ≤ 64) (definitions_of tables.now) }
    ensures binds { Binds bound_of (bind_under (limits_of limits.now) (definitions_of tables.now)
        (statement_of statement.now)) result }
    ensures sound { IfOk result (IsSound (definitions_of tables.now)) }
{
    match statement {
        Statement::Create(tree) => create(memory, tables, tree),
        _ => faultless(memory, tables, statement, limits),
    }
}

/// Returns the byte offset of the name of the reader that a statement opens, reads or closes. 0 if it has none.
fn reader_start(statement: &Statement<'_>) -> u32 {
    match statement {
        Statement::OpenReader(name) | Statement::Read(name, _) | Statement::CloseReader(name) => {
            name.start
        }
        _ => 0,
    }
}

/// Returns what a fault is about, with the byte offset of the reader's name if it is a fault of readers.
fn at_reader(about: About, statement: &Statement<'_>) -> About {
    match about.cause {
        Cause::TooManyReaders | Cause::NoReader | Cause::ReaderThere | Cause::PlainRead => {
            About::at(about.cause, reader_start(statement))
        }
        _ => about,
    }
}

/// Returns what the first fault of a statement that `bind` refuses is about: its cause and its place. It binds the
/// statement once more. If `bind` refuses nothing, the cause is unknown. The only error is a refused allocation.
pub fn about(
    memory: Memory,
    tables: &Catalog,
    statement: &Statement<'_>,
    limits: &Limits<'_>,
) -> Result<About, AllocError>
    requires narrow { IsFalse (is_too_wide (statement_of statement.now)) }
    requires tables { All (λ d. length d.columns ≤ 64) (definitions_of tables.now) }
{
    match statement {
        Statement::Create(tree) => about_table(memory, tables, tree),
        _ => {
            let mut faults = Faults::none();
            let bound = bound(memory, tables, statement, &mut faults)?;
            refuse_by_limits(&bound, tables, limits, &mut faults);
            Ok(at_reader(faults.about(), statement))
        }
    }
}
