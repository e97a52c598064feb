//! Conditions as a statement writes them. A list of what is still to be written takes the place of calls within calls,
//! so that a long condition needs no deep stack.
ghost use Rattle.std.specs.Prelude.{◌<◌, All};
ghost use Rattle.tql_expr.specs.Meaning.{size, HasCond};
ghost use Rattle.tql_schema.specs.Pieces.{Fits};

use crate::columns::push_column_name;
use crate::names::Text;
use std::alloc::AllocError;
use tql_catalog::table_def::TableDef;
use tql_expr::node::{Function, Node, Operation};
use tql_expr::terms::{CondId, Terms};
use tql_literal::literal::literal;
use tql_memory::Memory;
use tql_period::predicates::Relation;
use tql_result::cell::is_printable;
use tql_value::comparison::Comparison;
use tql_value::value::View;

/// How tightly OR, AND, NOT and a test bind.
const OR: u8 = 1;

const AND: u8 = 2;

const NOT: u8 = 3;

const TEST: u8 = 4;

/// How tightly a sum, a product, a sign and anything else in an expression bind.
const SUM: u8 = 1;

const PRODUCT: u8 = 2;

const SIGN: u8 = 3;

const PRIMARY: u8 = 4;

/// What is still to be written: a text, or the node at a position, in parentheses if it binds less tightly than this.
#[derive(Clone, Copy)]
pub(crate) enum Piece {
    Words(&'static str),
    Part(usize, u8),
}

/// What is still to be written, the next piece last.
type Pieces = Vec<Piece, Memory>;

/// Returns the sign of a comparison.
fn comparison_sign(comparison: Comparison) -> &'static str {
    match comparison {
        Comparison::Equal => " = ",
        Comparison::NotEqual => " <> ",
        Comparison::Less => " < ",
        Comparison::LessOrEqual => " <= ",
        Comparison::Greater => " > ",
        Comparison::GreaterOrEqual => " >= ",
    }
}

/// Returns the words of a predicate on two periods, between them.
fn relation_words(relation: Relation) -> &'static str {
    match relation {
        Relation::Overlaps => ") OVERLAPS PERIOD (",
        Relation::Contains => ") CONTAINS PERIOD (",
        Relation::Equals => ") EQUALS PERIOD (",
        Relation::Precedes => ") PRECEDES PERIOD (",
        Relation::Succeeds => ") SUCCEEDS PERIOD (",
        Relation::ImmediatelyPrecedes => ") IMMEDIATELY PRECEDES PERIOD (",
        Relation::ImmediatelySucceeds => ") IMMEDIATELY SUCCEEDS PERIOD (",
    }
}

/// Returns the sign of an operation, and how tightly it binds.
fn operation_sign(operation: Operation) -> (&'static str, u8) {
    match operation {
        Operation::Add => (" + ", SUM),
        Operation::Subtract => (" - ", SUM),
        Operation::Multiply => (" * ", PRODUCT),
    }
}

/// Returns how an aggregate over an expression begins.
fn function_words(function: Function) -> &'static str {
    match function {
        Function::Count => "COUNT(",
        Function::Sum => "SUM(",
        Function::Min => "MIN(",
        Function::Max => "MAX(",
    }
}

/// Returns how tightly the node at a position binds. A negative number binds as a sign does.
fn tightness(terms: &Terms, at: usize) -> u8
    requires { at < size terms.now }
{
    match terms.node(at) {
        Node::Or(..) => OR,
        Node::And(..) => AND,
        Node::Not(_) => NOT,
        Node::Compare(..) | Node::IsNull(_) | Node::Related(..) | Node::ContainsPoint(..) => TEST,
        Node::Binary(operation, ..) => operation_sign(operation).1,
        Node::Negate(_) => SIGN,
        Node::Literal(place) => match terms.literal(place) {
            View::Int(number) if number < 0 => SIGN,
            _ => PRIMARY,
        },
        Node::Column(_) | Node::CountRows | Node::Aggregate(..) => PRIMARY,
    }
}

/// Appends the literal of a value.
fn push_value(text: &mut Text, value: View<'_>) -> Result<(), AllocError> {
    if !is_printable(value) {
        return text.push_str("NULL");
    }
    let literal = literal(*text.allocator(), value)?;
    text.push_str(literal.as_str())
}

/// Puts pieces before what is still to be written.
fn put(pieces: &mut Pieces, parts: &[Piece], terms: &Terms) -> Result<(), AllocError>
    requires parts { All (Fits terms.now) parts.now }
    requires pieces { All (Fits terms.now) pieces.old.items }
    ensures { All (Fits terms.now) pieces.new.items }
{
    let mut left = parts.len();
    'parts: while left > 0 {
        left -= 1;
        pieces.push(parts[left])?;
    }
    Ok(())
}

/// Puts the parts of a node before what is still to be written.
fn put_node(pieces: &mut Pieces, terms: &Terms, at: usize) -> Result<(), AllocError>
    requires at { at < size terms.now }
    requires pieces { All (Fits terms.now) pieces.old.items }
    ensures { All (Fits terms.now) pieces.new.items }
{
    match terms.node(at) {
        Node::Literal(_) | Node::Column(_) | Node::CountRows => Ok(()),
        Node::Negate(a) => put(pieces, &[Piece::Words("-"), Piece::Part(a, PRIMARY)], terms),
        Node::Binary(operation, a, b) => {
            let (sign, own) = operation_sign(operation);
            let parts = [
                Piece::Part(a, own),
                Piece::Words(sign),
                Piece::Part(b, own.saturating_add(1)),
            ];
            put(pieces, &parts, terms)
        }
        Node::Aggregate(function, a) => {
            let parts = [
                Piece::Words(function_words(function)),
                Piece::Part(a, SUM),
                Piece::Words(")"),
            ];
            put(pieces, &parts, terms)
        }
        _ => put_test(pieces, terms, at),
    }
}

/// Puts the parts of a condition before what is still to be written.
fn put_test(pieces: &mut Pieces, terms: &Terms, at: usize) -> Result<(), AllocError>
    requires at { at < size terms.now }
    requires pieces { All (Fits terms.now) pieces.old.items }
    ensures { All (Fits terms.now) pieces.new.items }
{
    match terms.node(at) {
        Node::Compare(comparison, a, b) => {
            let parts = [
                Piece::Part(a, SUM),
                Piece::Words(comparison_sign(comparison)),
                Piece::Part(b, SUM),
            ];
            put(pieces, &parts, terms)
        }
        Node::IsNull(a) => put(
            pieces,
            &[Piece::Part(a, SUM), Piece::Words(" IS NULL")],
            terms,
        ),
        Node::Not(c) => put(pieces, &[Piece::Words("NOT "), Piece::Part(c, TEST)], terms),
        Node::And(c, d) => {
            let parts = [
                Piece::Part(c, AND),
                Piece::Words(" AND "),
                Piece::Part(d, NOT),
            ];
            put(pieces, &parts, terms)
        }
        Node::Or(c, d) => {
            let parts = [
                Piece::Part(c, OR),
                Piece::Words(" OR "),
                Piece::Part(d, AND),
            ];
            put(pieces, &parts, terms)
        }
        _ => put_periods(pieces, terms, at),
    }
}

/// Puts the parts of a predicate on periods before what is still to be written.
fn put_periods(pieces: &mut Pieces, terms: &Terms, at: usize) -> Result<(), AllocError>
    requires at { at < size terms.now }
    requires pieces { All (Fits terms.now) pieces.old.items }
    ensures { All (Fits terms.now) pieces.new.items }
{
    match terms.node(at) {
        Node::Related(relation, a, b, c, d) => {
            let parts = [
                Piece::Words("PERIOD ("),
                Piece::Part(a, SUM),
                Piece::Words(", "),
                Piece::Part(b, SUM),
                Piece::Words(relation_words(relation)),
                Piece::Part(c, SUM),
                Piece::Words(", "),
                Piece::Part(d, SUM),
                Piece::Words(")"),
            ];
            put(pieces, &parts, terms)
        }
        Node::ContainsPoint(a, b, c) => {
            let parts = [
                Piece::Words("PERIOD ("),
                Piece::Part(a, SUM),
                Piece::Words(", "),
                Piece::Part(b, SUM),
                Piece::Words(") CONTAINS "),
                Piece::Part(c, SUM),
            ];
            put(pieces, &parts, terms)
        }
        _ => Ok(()),
    }
}

/// Appends the node at a position, if it has no parts.
fn push_leaf(
    text: &mut Text,
    definition: &TableDef,
    terms: &Terms,
    at: usize,
) -> Result<(), AllocError>
    requires { at < size terms.now }
{
    match terms.node(at) {
        Node::Literal(place) => push_value(text, terms.literal(place)),
        Node::Column(number) => push_column_name(text, definition.columns(), number),
        Node::CountRows => text.push_str("COUNT(*)"),
        _ => Ok(()),
    }
}

/// Appends the node at a position as far as it has no parts, and puts its parts before what is still to be written. It
/// is in parentheses if it binds less tightly than that.
fn push_node(
    text: &mut Text,
    pieces: &mut Pieces,
    definition: &TableDef,
    terms: &Terms,
    at: usize,
    least: u8,
) -> Result<(), AllocError>
    requires at { at < size terms.now }
    requires pieces { All (Fits terms.now) pieces.old.items }
    ensures { All (Fits terms.now) pieces.new.items }
{
    if tightness(terms, at) < least {
        text.push_str("(")?;
        pieces.push(Piece::Words(")"))?;
    }
    push_leaf(text, definition, terms, at)?;
    put_node(pieces, terms, at)
}

/// Appends a condition of a check.
pub(crate) fn push_condition(
    text: &mut Text,
    definition: &TableDef,
    terms: &Terms,
    condition: CondId,
) -> Result<(), AllocError>
    requires { HasCond terms.now condition }
{
    let mut pieces = Vec::new(*text.allocator());
    pieces.push(Piece::Part(condition.place, OR))?;
    for _ in 0..u64::MAX {
        match pieces.pop() {
            None => break,
            Some(Piece::Words(words)) => text.push_str(words)?,
            Some(Piece::Part(at, least)) => {
                push_node(text, &mut pieces, definition, terms, at, least)?;
            }
        }
    }
    Ok(())
}
