//! The trees of conditions.
ghost use Rattle.std.specs.Prelude.{◌≡◌, IfOk};

use crate::boxed::boxed;
use crate::expression::{ExprIn, Name, Named};
use std::alloc::{AllocError, Allocator};
use tql_memory::Memory;

/// The comparisons.
#[derive(Clone, Copy)]
pub enum Comparison {
    Equals,
    Differs,
    Below,
    AtMost,
    Above,
    AtLeast,
}

/// The relations of two periods, each of which is written as words.
#[derive(Clone, Copy)]
pub enum Relation {
    Overlaps,
    Equals,
    Precedes,
    Succeeds,
    ImmediatelyPrecedes,
    ImmediatelySucceeds,
}

/// PERIOD (..), or the system period, optionally qualified by a table reference.
pub enum MarkedIn<'a, A: Allocator> {
    FromEnds(Box<ExprIn<'a, A>, A>, Box<ExprIn<'a, A>, A>),
    SystemTime(Option<Name<'a>>),
}

impl<'a, A: Allocator> Drop for MarkedIn<'a, A> {
    fn drop(self) {
        match self {
            MarkedIn::FromEnds(start, end) => {
                drop(start);
                drop(end);
            }
            MarkedIn::SystemTime(_) => {}
        }
    }
}

/// A period as an operand.
pub enum OperandIn<'a, A: Allocator> {
    ByMark(MarkedIn<'a, A>),
    ByName(Named<'a>),
}

impl<'a, A: Allocator> Drop for OperandIn<'a, A> {
    fn drop(self) {
        match self {
            OperandIn::ByMark(mark) => drop(mark),
            OperandIn::ByName(_) => {}
        }
    }
}

/// Conjunctions joined by OR.
#[cycle(condition)]
#[derive(Drop)]
pub struct CondIn<'a, A: Allocator> {
    pub first: ConjIn<'a, A>,
    pub more: Vec<ConjIn<'a, A>, A>,
}

/// Factors joined by AND.
#[cycle(condition)]
#[derive(Drop)]
pub struct ConjIn<'a, A: Allocator> {
    pub first: FactorIn<'a, A>,
    pub more: Vec<FactorIn<'a, A>, A>,
}

/// A test, optionally preceded by NOT.
#[cycle(condition)]
#[derive(Drop)]
pub struct FactorIn<'a, A: Allocator> {
    pub is_negated: bool,
    pub test: Box<TestIn<'a, A>, A>,
}

/// A test. A flag says that it contains NOT.
#[cycle(condition)]
#[derive(Drop)]
pub enum TestIn<'a, A: Allocator> {
    Grouped(Box<CondIn<'a, A>, A>),
    Compared(Comparison, Box<ExprIn<'a, A>, A>, Box<ExprIn<'a, A>, A>),
    Null(bool, Box<ExprIn<'a, A>, A>),
    Between(bool, Box<ExprIn<'a, A>, A>, Box<ExprIn<'a, A>, A>, Box<ExprIn<'a, A>, A>),
    In(bool, Box<ExprIn<'a, A>, A>, Box<ExprIn<'a, A>, A>, Vec<Box<ExprIn<'a, A>, A>, A>),
    Related(OperandIn<'a, A>, Relation, OperandIn<'a, A>),
    ContainsPeriod(OperandIn<'a, A>, MarkedIn<'a, A>),
    ContainsPoint(OperandIn<'a, A>, Box<ExprIn<'a, A>, A>),
}

pub type Marked<'a> = MarkedIn<'a, Memory>;

pub type Operand<'a> = OperandIn<'a, Memory>;

pub type Cond<'a> = CondIn<'a, Memory>;

pub type Conj<'a> = ConjIn<'a, Memory>;

pub type Factor<'a> = FactorIn<'a, Memory>;

pub type Test<'a> = TestIn<'a, Memory>;

/// Boxes a condition. The only error is a failed allocation.
pub fn boxed_cond<'a>(
    memory: Memory,
    condition: Cond<'a>,
) -> Result<Box<Cond<'a>, Memory>, AllocError>
    ensures { IfOk result (λ b. b.value ≡ condition.entry) }
{
    boxed(memory, condition)
}

/// Boxes a test. The only error is a failed allocation.
pub fn boxed_test<'a>(memory: Memory, test: Test<'a>) -> Result<Box<Test<'a>, Memory>, AllocError>
    ensures { IfOk result (λ b. b.value ≡ test.entry) }
{
    boxed(memory, test)
}
