//! The trees of expressions. Texts, digits and names are kept as written in the statement. A name and an operand keep
//! their byte offset in the statement's text, so that an error message can say where the fault is. No view contains an
//! offset, so the meaning of a statement does not depend on it.
ghost use Rattle.std.specs.Prelude.{◌≡◌, IfOk};

use crate::boxed::boxed;
use std::alloc::{AllocError, Allocator};
use tql_memory::Memory;

/// A name: a word, which means the same in any case, or a quoted name, with its quotes.
#[derive(Clone, Copy)]
pub struct Name<'a> {
    pub text: &'a str,
    pub is_quoted: bool,
    pub start: u32,
}

/// A column or a period, optionally qualified by a table reference.
#[derive(Clone, Copy)]
pub struct Named<'a> {
    pub qualifier: Option<Name<'a>>,
    pub name: Name<'a>,
}

/// The aggregates.
#[derive(Clone, Copy)]
pub enum Function {
    Count,
    Sum,
    Min,
    Max,
}

/// The sign of a primary.
#[derive(Clone, Copy)]
pub enum Sign {
    None,
    Plus,
    Minus,
}

/// A sum: terms added and subtracted.
#[cycle(expression)]
#[derive(Drop)]
pub struct ExprIn<'a, A: Allocator> {
    pub first: TermIn<'a, A>,
    pub more: Vec<AddedTermIn<'a, A>, A>,
}

/// A term after the first one.
#[cycle(expression)]
#[derive(Drop)]
pub struct AddedTermIn<'a, A: Allocator> {
    pub is_minus: bool,
    pub term: TermIn<'a, A>,
}

/// A product: factors multiplied.
#[cycle(expression)]
#[derive(Drop)]
pub struct TermIn<'a, A: Allocator> {
    pub first: SignedIn<'a, A>,
    pub more: Vec<SignedIn<'a, A>, A>,
}

/// A primary with its sign. `start` is its byte offset in the statement's text.
#[cycle(expression)]
#[derive(Drop)]
pub struct SignedIn<'a, A: Allocator> {
    pub sign: Sign,
    pub primary: PrimaryIn<'a, A>,
    pub start: u32,
}

/// A literal, a column, an expression in parentheses, or an aggregate. Numbers are kept as digits, and the other
/// literals as quoted texts.
#[cycle(expression)]
#[derive(Drop)]
pub enum PrimaryIn<'a, A: Allocator> {
    Number(&'a str),
    Text(&'a str),
    Date(&'a str),
    Timestamp(&'a str),
    Column(Named<'a>),
    Enclosed(Box<ExprIn<'a, A>, A>),
    CountStar,
    Over(Function, Box<ExprIn<'a, A>, A>),
}

pub type Expr<'a> = ExprIn<'a, Memory>;

pub type AddedTerm<'a> = AddedTermIn<'a, Memory>;

pub type Term<'a> = TermIn<'a, Memory>;

pub type Signed<'a> = SignedIn<'a, Memory>;

pub type Primary<'a> = PrimaryIn<'a, Memory>;

/// Boxes an expression. The only error is a failed allocation.
pub fn boxed_expr<'a>(memory: Memory, value: Expr<'a>) -> Result<Box<Expr<'a>, Memory>, AllocError>
    ensures { IfOk result (λ b. b.value ≡ value.entry) }
{
    boxed(memory, value)
}
