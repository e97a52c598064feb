//! What an expression is at its top.
ghost use Rattle.std.specs.Prelude.{◌≡◌};
ghost use Rattle.tql_expr.specs.Meaning.{expr, HasExpr};
ghost use Rattle.tql_expr_shape.specs.Shapes.{shaped, HasParts};

use tql_expr::node::{Node, Operation};
use tql_expr::terms::{Aggregate, ExprId, Terms};
use tql_value::value::View;

/// An expression, with its operands as expressions of the same terms.
#[derive(Clone, Copy)]
pub enum Shape<'a> {
    /// A value.
    Literal(View<'a>),
    /// A column, by its number.
    Column(usize),
    /// `-x`
    Negate(ExprId),
    /// `x + y`, `x - y`, `x * y`
    Binary(Operation, ExprId, ExprId),
    /// `COUNT(*)`, `SUM(x)` and its kin.
    Over(Aggregate),
}

/// Returns what an expression is, and its operands.
pub fn shape_of(terms: &Terms, x: ExprId) -> Shape<'_>
    requires { HasExpr terms.now x }
    ensures shape { shaped terms.now result ≡ expr terms.now x }
    ensures there { HasParts terms.now result }
{
    match terms.node(x.place) {
        Node::Literal(place) => Shape::Literal(terms.literal(place)),
        Node::Column(column) => Shape::Column(column),
        Node::Negate(place) => Shape::Negate(ExprId { place }),
        Node::Binary(op, a, b) => { Shape::Binary(op, ExprId { place: a }, ExprId { place: b }) }
        Node::CountRows => Shape::Over(Aggregate::Rows),
        Node::Aggregate(function, place) => {
            Shape::Over(Aggregate::Over(function, ExprId { place }))
        }
        _ => Shape::Literal(View::Null),
    }
}
