//! The trees of statements.
ghost use Rattle.std.specs.Prelude.{◌≡◌, IfOk};

use crate::boxed::boxed;
use crate::condition::Cond;
use crate::expression::{Expr, Name, Named};
use std::alloc::AllocError;
use tql_memory::Memory;

/// A type as written. Numbers are kept as digits.
#[derive(Clone, Copy)]
pub enum TypeName<'a> {
    Integer,
    Varchar(&'a str),
    Date,
    Timestamp(Option<&'a str>),
}

/// The value of a generated column.
#[derive(Clone, Copy)]
pub enum Generated {
    RowStart,
    RowEnd,
}

/// A column of CREATE.
#[derive(Clone, Copy)]
pub struct ColumnTree<'a> {
    pub name: Name<'a>,
    pub type_name: TypeName<'a>,
    pub is_required: bool,
    pub generated: Option<Generated>,
}

/// The column list of a foreign key, with its period.
pub struct RefList<'a> {
    pub first: Name<'a>,
    pub more: Vec<Name<'a>, Memory>,
    pub period: Option<Name<'a>>,
}

impl<'a> Drop for RefList<'a> {
    fn drop(self) {
        let RefList {
            first: _,
            more,
            period: _,
        } = self;
        drop(more);
    }
}

/// A key: its columns, and the period that is declared WITHOUT OVERLAPS.
#[derive(Drop)]
pub struct KeyTree<'a> {
    pub is_primary: bool,
    pub first: Name<'a>,
    pub more: Vec<Name<'a>, Memory>,
    pub period: Option<Name<'a>>,
}

/// A foreign key: its columns, the referenced table, and the referenced columns.
#[derive(Drop)]
pub struct ForeignTree<'a> {
    pub child: RefList<'a>,
    pub table: Name<'a>,
    pub parent: RefList<'a>,
}

/// A constraint: a key, a foreign key or a check.
pub enum Constraint<'a> {
    Key(KeyTree<'a>),
    Foreign(ForeignTree<'a>),
    Check(Box<Cond<'a>, Memory>),
}

impl<'a> Drop for Constraint<'a> {
    fn drop(self) {
        match self {
            Constraint::Key(key) => drop(key),
            Constraint::Foreign(foreign) => drop(foreign),
            Constraint::Check(condition) => drop(condition),
        }
    }
}

/// A period of CREATE. The name is None for SYSTEM_TIME.
#[derive(Clone, Copy)]
pub struct PeriodTree<'a> {
    pub name: Option<Name<'a>>,
    pub start: Name<'a>,
    pub end: Name<'a>,
}

/// An element of CREATE.
pub enum Element<'a> {
    Column(ColumnTree<'a>),
    Period(PeriodTree<'a>),
    /// A constraint, with the name that CONSTRAINT gives it, if any. The view omits the name.
    Constraint(Option<Name<'a>>, Box<Constraint<'a>, Memory>),
}

impl<'a> Drop for Element<'a> {
    fn drop(self) {
        match self {
            Element::Column(_) | Element::Period(_) => {}
            Element::Constraint(_, constraint) => drop(constraint),
        }
    }
}

/// CREATE TABLE.
pub struct CreateTree<'a> {
    pub table: Name<'a>,
    pub first: Element<'a>,
    pub more: Vec<Element<'a>, Memory>,
    pub is_versioned: bool,
}

impl<'a> Drop for CreateTree<'a> {
    fn drop(self) {
        let CreateTree {
            table: _,
            first,
            more,
            is_versioned: _,
        } = self;
        drop(first);
        drop(more);
    }
}

/// A FOR SYSTEM_TIME clause, or none. Moments are kept as quoted texts.
#[derive(Clone, Copy)]
pub enum SpanTree<'a> {
    None,
    AsOf(&'a str),
    FromTo(&'a str, &'a str),
    Between(&'a str, &'a str),
}

/// A table reference.
#[derive(Clone, Copy)]
pub struct RefTree<'a> {
    pub table: Name<'a>,
    pub span: SpanTree<'a>,
    pub alias: Option<Name<'a>>,
}

/// A table reference joined on a condition.
pub struct Joined<'a> {
    pub reference: RefTree<'a>,
    pub condition: Box<Cond<'a>, Memory>,
}

impl<'a> Drop for Joined<'a> {
    fn drop(self) {
        let Joined {
            reference: _,
            condition,
        } = self;
        drop(condition);
    }
}

/// A join.
pub enum JoinTree<'a> {
    Inner(Box<Joined<'a>, Memory>),
    Left(Box<Joined<'a>, Memory>),
    Cross(Box<RefTree<'a>, Memory>),
}

impl<'a> Drop for JoinTree<'a> {
    fn drop(self) {
        match self {
            JoinTree::Inner(joined) | JoinTree::Left(joined) => drop(joined),
            JoinTree::Cross(reference) => drop(reference),
        }
    }
}

/// A chain of joins in FROM.
pub struct ChainTree<'a> {
    pub first: RefTree<'a>,
    pub joins: Vec<JoinTree<'a>, Memory>,
}

impl<'a> Drop for ChainTree<'a> {
    fn drop(self) {
        let ChainTree { first: _, joins } = self;
        drop(joins);
    }
}

/// An item of the select list.
pub struct Item<'a> {
    pub value: Box<Expr<'a>, Memory>,
    pub alias: Option<Name<'a>>,
}

impl<'a> Drop for Item<'a> {
    fn drop(self) {
        let Item { value, alias: _ } = self;
        drop(value);
    }
}

/// A select list: `*`, or items.
pub enum Items<'a> {
    All,
    These(Item<'a>, Vec<Item<'a>, Memory>),
}

impl<'a> Drop for Items<'a> {
    fn drop(self) {
        match self {
            Items::All => {}
            Items::These(first, more) => {
                drop(first);
                drop(more);
            }
        }
    }
}

/// A select.
pub struct SelectTree<'a> {
    pub is_distinct: bool,
    pub items: Items<'a>,
    pub first: ChainTree<'a>,
    pub more: Vec<ChainTree<'a>, Memory>,
    pub filter: Option<Box<Cond<'a>, Memory>>,
    pub grouping: Vec<Named<'a>, Memory>,
    pub having: Option<Box<Cond<'a>, Memory>>,
}

impl<'a> Drop for SelectTree<'a> {
    fn drop(self) {
        let SelectTree {
            is_distinct: _,
            items,
            first,
            more,
            filter,
            grouping,
            having,
        } = self;
        drop(items);
        drop(first);
        drop(more);
        drop(filter);
        drop(grouping);
        drop(having);
    }
}

/// A heading, or the digits of a position.
#[derive(Clone, Copy)]
pub enum KeyName<'a> {
    Heading(Name<'a>),
    Position(&'a str),
}

/// A key of ORDER BY, and whether it is descending.
#[derive(Clone, Copy)]
pub struct OrderTree<'a> {
    pub key: KeyName<'a>,
    pub falls: bool,
}

/// A query.
pub struct Query<'a> {
    pub select: Box<SelectTree<'a>, Memory>,
    pub ordering: Vec<OrderTree<'a>, Memory>,
}

impl<'a> Drop for Query<'a> {
    fn drop(self) {
        let Query { select, ordering } = self;
        drop(select);
        drop(ordering);
    }
}

/// A cell of VALUES or SET. A literal without a sign that is a cell by itself is kept without a box, with its byte
/// offset in the statement's text.
pub enum CellTree<'a> {
    Null,
    Number(&'a str, u32),
    Text(&'a str, u32),
    Date(&'a str, u32),
    Value(Box<Expr<'a>, Memory>),
}

impl<'a> Drop for CellTree<'a> {
    fn drop(self) {
        match self {
            CellTree::Null | CellTree::Number(_, _) | CellTree::Text(_, _) | CellTree::Date(_, _) =>
                {}
            CellTree::Value(value) => drop(value),
        }
    }
}

/// A tuple of VALUES.
pub struct Tuple<'a> {
    pub first: CellTree<'a>,
    pub more: Vec<CellTree<'a>, Memory>,
}

impl<'a> Drop for Tuple<'a> {
    fn drop(self) {
        let Tuple { first, more } = self;
        drop(first);
        drop(more);
    }
}

/// The source of the rows of INSERT.
pub enum RowSource<'a> {
    Values(Tuple<'a>, Vec<Tuple<'a>, Memory>),
    Select(Box<SelectTree<'a>, Memory>),
}

impl<'a> Drop for RowSource<'a> {
    fn drop(self) {
        match self {
            RowSource::Values(first, more) => {
                drop(first);
                drop(more);
            }
            RowSource::Select(select) => drop(select),
        }
    }
}

/// INSERT. `columns` is empty where the statement names none.
pub struct Insert<'a> {
    pub table: Name<'a>,
    pub columns: Vec<Name<'a>, Memory>,
    pub rows: RowSource<'a>,
}

impl<'a> Drop for Insert<'a> {
    fn drop(self) {
        let Insert {
            table: _,
            columns,
            rows,
        } = self;
        drop(columns);
        drop(rows);
    }
}

/// An assignment of SET.
pub struct SetTree<'a> {
    pub column: Name<'a>,
    pub value: CellTree<'a>,
}

impl<'a> Drop for SetTree<'a> {
    fn drop(self) {
        let SetTree { column: _, value } = self;
        drop(value);
    }
}

/// A point of a portion: the quoted text of a DATE or a TIMESTAMP literal.
#[derive(Clone, Copy)]
pub enum PointTree<'a> {
    Date(&'a str),
    Moment(&'a str),
}

/// FOR PORTION OF. The period is None for SYSTEM_TIME.
#[derive(Clone, Copy)]
pub struct PortionTree<'a> {
    pub period: Option<Name<'a>>,
    pub from: PointTree<'a>,
    pub to: PointTree<'a>,
}

/// UPDATE.
pub struct Update<'a> {
    pub table: Name<'a>,
    pub portion: Option<PortionTree<'a>>,
    pub first: SetTree<'a>,
    pub more: Vec<SetTree<'a>, Memory>,
    pub filter: Option<Box<Cond<'a>, Memory>>,
}

impl<'a> Drop for Update<'a> {
    fn drop(self) {
        let Update {
            table: _,
            portion: _,
            first,
            more,
            filter,
        } = self;
        drop(first);
        drop(more);
        drop(filter);
    }
}

/// DELETE.
pub struct Delete<'a> {
    pub table: Name<'a>,
    pub portion: Option<PortionTree<'a>>,
    pub filter: Option<Box<Cond<'a>, Memory>>,
}

impl<'a> Drop for Delete<'a> {
    fn drop(self) {
        let Delete {
            table: _,
            portion: _,
            filter,
        } = self;
        drop(filter);
    }
}

/// The statements.
#[derive(Drop)]
pub enum Statement<'a> {
    Create(Box<CreateTree<'a>, Memory>),
    DropTable(Name<'a>),
    Insert(Box<Insert<'a>, Memory>),
    Update(Box<Update<'a>, Memory>),
    Delete(Box<Delete<'a>, Memory>),
    Query(Box<Query<'a>, Memory>),
    StartTransaction,
    Commit,
    Rollback,
    /// AT, with the quoted text of its moment.
    At(&'a str),
    /// PRUNE HISTORY, with the quoted text of its moment.
    Prune(&'a str),
    /// OPEN READER, with the reader's name.
    OpenReader(Name<'a>),
    /// READ, with the reader's name.
    Read(Name<'a>, Box<Query<'a>, Memory>),
    /// CLOSE READER, with the reader's name.
    CloseReader(Name<'a>),
}

/// Boxes a joined reference. The only error is a failed allocation.
pub fn boxed_joined<'a>(
    memory: Memory,
    joined: Joined<'a>,
) -> Result<Box<Joined<'a>, Memory>, AllocError>
    ensures { IfOk result (λ b. b.value ≡ joined.entry) }
{
    boxed(memory, joined)
}

/// Boxes a table reference. The only error is a failed allocation.
pub fn boxed_reference<'a>(
    memory: Memory,
    reference: RefTree<'a>,
) -> Result<Box<RefTree<'a>, Memory>, AllocError>
    ensures { IfOk result (λ b. b.value ≡ reference.entry) }
{
    boxed(memory, reference)
}

/// Boxes a select. The only error is a failed allocation.
pub fn boxed_select<'a>(
    memory: Memory,
    select: SelectTree<'a>,
) -> Result<Box<SelectTree<'a>, Memory>, AllocError>
    ensures { IfOk result (λ b. b.value ≡ select.entry) }
{
    boxed(memory, select)
}

/// Boxes a query. The only error is a failed allocation.
pub fn boxed_query<'a>(
    memory: Memory,
    query: Query<'a>,
) -> Result<Box<Query<'a>, Memory>, AllocError>
    ensures { IfOk result (λ b. b.value ≡ query.entry) }
{
    boxed(memory, query)
}

/// Boxes a constraint. The only error is a failed allocation.
pub fn boxed_constraint<'a>(
    memory: Memory,
    constraint: Constraint<'a>,
) -> Result<Box<Constraint<'a>, Memory>, AllocError>
    ensures { IfOk result (λ b. b.value ≡ constraint.entry) }
{
    boxed(memory, constraint)
}

/// Boxes a CREATE TABLE. The only error is a failed allocation.
pub fn boxed_create<'a>(
    memory: Memory,
    create: CreateTree<'a>,
) -> Result<Box<CreateTree<'a>, Memory>, AllocError>
    ensures { IfOk result (λ b. b.value ≡ create.entry) }
{
    boxed(memory, create)
}

/// Boxes an INSERT. The only error is a failed allocation.
pub fn boxed_insert<'a>(
    memory: Memory,
    insert: Insert<'a>,
) -> Result<Box<Insert<'a>, Memory>, AllocError>
    ensures { IfOk result (λ b. b.value ≡ insert.entry) }
{
    boxed(memory, insert)
}

/// Boxes an UPDATE. The only error is a failed allocation.
pub fn boxed_update<'a>(
    memory: Memory,
    update: Update<'a>,
) -> Result<Box<Update<'a>, Memory>, AllocError>
    ensures { IfOk result (λ b. b.value ≡ update.entry) }
{
    boxed(memory, update)
}

/// Boxes a DELETE. The only error is a failed allocation.
pub fn boxed_delete<'a>(
    memory: Memory,
    delete: Delete<'a>,
) -> Result<Box<Delete<'a>, Memory>, AllocError>
    ensures { IfOk result (λ b. b.value ≡ delete.entry) }
{
    boxed(memory, delete)
}
