//! The calculations of a query's conditions in words: `EMP.X + 1`.
ghost use Rattle.std.specs.Prelude.{◌<◌, All, IfSome};
ghost use Rattle.tql_expr.specs.Meaning.{size, HasCond, HasExpr};

use crate::columns::{Place, place_in_chain, place_in_chains, reference_column, references_of};
use std::alloc::AllocError;
use tql_bound::query::{BoundQuery, Chain, Join};
use tql_catalog::catalog::Catalog;
use tql_detail::shown::{Words, push_behind, push_shown};
use tql_expr::node::{Node, Operation};
use tql_expr::terms::{CondId, ExprId, Terms};
use tql_expr_shape::calculations::first_calculation;
use tql_expr_shape::shape::{Shape, shape_of};
use tql_value::value::View;

/// The rows whose columns an expression names.
#[derive(Clone, Copy)]
pub enum Rows<'q> {
    /// The rows of a chain, as in ON, and the number of table references before the chain.
    Chain(&'q Chain, usize),
    /// The concatenated rows of all chains.
    Chains(&'q [Chain]),
}

/// A calculation of a query.
#[derive(Clone, Copy)]
pub struct Calculation<'q> {
    /// An operation or a negation.
    pub expression: ExprId,
    /// The rows whose columns it names.
    pub rows: Rows<'q>,
    /// Whether it is the only one up to its conjunct.
    pub is_alone: bool,
}

/// How the columns of a query are named.
#[derive(Clone, Copy)]
pub struct Names<'c> {
    pub catalog: &'c Catalog,
    /// The qualifier of each table reference, from the left. Empty if columns are named without one.
    pub qualifiers: &'c [Words],
}

impl Rows<'_> {
    /// Returns the table reference and the number there of a column.
    fn place(self, column: usize) -> Option<Place> {
        match self {
            Rows::Chain(chain, before) => place_in_chain(chain, before, column),
            Rows::Chains(chains) => place_in_chains(chains, column),
        }
    }
}

/// Whether an expression is a column or a value.
pub fn is_plain(terms: &Terms, x: ExprId) -> bool
    requires { HasExpr terms.now x }
{
    matches!(shape_of(terms, x), Shape::Column(_) | Shape::Literal(_))
}

/// Whether exactly one of the nodes before this position calculates.
fn is_only(terms: &Terms, position: usize) -> bool
    requires { position < size terms.now }
{
    let mut is_found = false;
    for at in 0..position {
        if matches!(terms.node(at), Node::Negate(_) | Node::Binary(..)) {
            if is_found {
                return false;
            }
            is_found = true;
        }
    }
    is_found
}

/// The first calculation of a list of conjuncts.
#[derive(Clone, Copy)]
struct First {
    expression: ExprId,
    is_alone: bool,
}

/// Returns the first calculation of conjuncts.
fn first_among(terms: &Terms, conjuncts: &[CondId]) -> Option<First>
    requires { All (HasCond terms.now) conjuncts.now }
    ensures { IfSome result (λ f. HasExpr terms.now f.expression) }
{
    for conjunct in conjuncts {
        if let Some(expression) = first_calculation(terms, *conjunct) {
            let is_alone = is_only(terms, conjunct.place);
            return Some(First {
                expression,
                is_alone,
            });
        }
    }
    None
}

/// Returns the first calculation of the ON conditions of a chain.
fn first_of_joins(terms: &Terms, joins: &[Join]) -> Option<First>
    requires { All (λ j. All (HasCond terms.now) j.on.items) joins.now }
    ensures { IfSome result (λ f. HasExpr terms.now f.expression) }
{
    for join in joins {
        if let Some(found) = first_among(terms, &join.on) {
            return Some(found);
        }
    }
    None
}

/// Returns the first calculation of a query's ON conditions.
pub fn first_in_on(query: &BoundQuery) -> Option<Calculation<'_>>
    ensures { IfSome result (λ c. HasExpr query.now.terms c.expression) }
{
    let mut before = 0_usize;
    for chain in &query.chains {
        if let Some(first) = first_of_joins(&query.terms, &chain.joins) {
            return Some(Calculation {
                expression: first.expression,
                rows: Rows::Chain(chain, before),
                is_alone: first.is_alone,
            });
        }
        before = before.saturating_add(references_of(chain));
    }
    None
}

/// Returns the first calculation of a query's WHERE.
pub fn first_in_where(query: &BoundQuery) -> Option<Calculation<'_>>
    ensures { IfSome result (λ c. HasExpr query.now.terms c.expression) }
{
    let first = first_among(&query.terms, &query.filter)?;
    Some(Calculation {
        expression: first.expression,
        rows: Rows::Chains(&query.chains),
        is_alone: first.is_alone,
    })
}

/// Appends a column's name.
fn push_column(
    words: &mut Words,
    names: &Names<'_>,
    rows: Rows<'_>,
    column: usize,
) -> Result<(), AllocError> {
    let Some(place) = rows.place(column) else {
        return Ok(());
    };
    if let Some(qualifier) = names.qualifiers.get(place.number) {
        push_behind(words, "", qualifier.as_str())?;
        words.push('.')?;
    }
    match reference_column(names.catalog, place.reference, place.column) {
        Some(name) => push_shown(words, name),
        None => Ok(()),
    }
}

/// Appends an operand: a column or a number, and `..` for anything else.
fn push_operand(
    words: &mut Words,
    names: &Names<'_>,
    terms: &Terms,
    rows: Rows<'_>,
    operand: ExprId,
) -> Result<(), AllocError>
    requires { HasExpr terms.now operand }
{
    match shape_of(terms, operand) {
        Shape::Column(column) => push_column(words, names, rows, column),
        Shape::Literal(View::Int(number)) => write!(words, "{number}"),
        _ => words.push_str(".."),
    }
}

/// Returns the sign of an operation, with a space on each side.
fn sign_of(operation: Operation) -> &'static str {
    match operation {
        Operation::Add => " + ",
        Operation::Subtract => " - ",
        Operation::Multiply => " * ",
    }
}

/// Appends a calculation whose operands calculate nothing.
pub fn push_calculation(
    words: &mut Words,
    names: &Names<'_>,
    terms: &Terms,
    calculation: Calculation<'_>,
) -> Result<(), AllocError>
    requires { HasExpr terms.now calculation.expression }
{
    let rows = calculation.rows;
    match shape_of(terms, calculation.expression) {
        Shape::Negate(operand) => {
            words.push('-')?;
            push_operand(words, names, terms, rows, operand)
        }
        Shape::Binary(operation, left, right) => {
            push_operand(words, names, terms, rows, left)?;
            words.push_str(sign_of(operation))?;
            push_operand(words, names, terms, rows, right)
        }
        _ => Ok(()),
    }
}
