//! The steps of an evaluation, given the results of the operands.
ghost use Rattle.std.specs.Prelude.{◌≡◌};
ghost use Rattle.tql_value.specs.Views.{outcome};
ghost use Rattle.tql_spec.specs.Truth.{and, or};
ghost use Rattle.tql_spec.specs.Expression.{both};
ghost use Rattle.tql_expr.specs.Trees.{plain_operation};
ghost use Rattle.tql_expr.specs.Meaning.{judged, calculated};

use crate::node::Operation;
use tql_value::arithmetic::{Range, add, mul, sub};
use tql_value::truth::Truth;
use tql_value::value::View;

/// Returns the result of an operation on two values, each of which may be `Range`; NULL with a NULL operand.
pub(crate) fn applied<'a>(
    op: Operation,
    a: Result<View<'a>, Range>,
    b: Result<View<'a>, Range>,
) -> Result<View<'a>, Range>
    ensures { outcome result ≡ calculated (plain_operation op) (outcome a.entry) (outcome b.entry) }
{
    let a = a?;
    let b = b?;
    match op {
        Operation::Add => add(a, b),
        Operation::Subtract => sub(a, b),
        Operation::Multiply => mul(a, b),
    }
}

/// Returns the AND of two conditions, each evaluated.
pub(crate) fn all(c: Result<Truth, Range>, d: Result<Truth, Range>) -> Result<Truth, Range>
    ensures { judged result ≡ both and (judged c) (judged d) }
{
    Ok(c?.and(d?))
}

/// Returns the OR of two conditions, each evaluated.
pub(crate) fn any(c: Result<Truth, Range>, d: Result<Truth, Range>) -> Result<Truth, Range>
    ensures { judged result ≡ both or (judged c) (judged d) }
{
    Ok(c?.or(d?))
}
