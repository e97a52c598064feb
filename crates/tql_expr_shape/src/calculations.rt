//! The first calculation of a condition. A long sum is a run of nodes, and so is a long list of AND or OR. Runs are
//! followed by a loop, so the depth of calls is that of the parentheses.
ghost use Rattle.std.specs.Prelude.{◌≡◌, ◌<◌, IfSome, IsSome, IsTrue, option_map, if◌then◌else◌};
ghost use Rattle.tql_plan_laws.specs.Equalities.{or_else};
ghost use Rattle.tql_expr_shape.specs.Calculations.{first_in, first_in_two, first_of};
ghost use Rattle.tql_expr.specs.Trees.{expr_of, cond_of, term_in};
ghost use Rattle.tql_expr.specs.Meaning.{trees, size, expr, cond, HasExpr, HasCond};

use tql_expr::node::Node;
use tql_expr::terms::{CondId, ExprId, Terms};

/// The two operands of an AND or an OR.
#[derive(Clone, Copy)]
struct Sides {
    near: usize,
    far: usize,
    /// Whether the far operand is the left one.
    is_far_left: bool,
}

/// Returns the first of two calculations, where there is one.
fn either(first: Option<ExprId>, second: Option<ExprId>) -> Option<ExprId>
    ensures { result ≡ or_else first second }
{
    match first {
        Some(_) => first,
        None => second,
    }
}

/// Whether an expression is an operation or a sign.
fn is_calculated(terms: &Terms, at: usize) -> bool
    requires { at < size terms.now }
    ensures { IsTrue result → IsSome (first_in (expr_of (term_in (trees terms.now) at))) }
{
    matches!(terms.node(at), Node::Negate(_) | Node::Binary(..))
}

/// Returns the first operand of an expression, where its first calculation is also that of the expression: where it
/// is calculated itself, or the operand of an aggregate.
fn inner(terms: &Terms, at: usize) -> Option<usize>
    requires { at < size terms.now }
    ensures before { IfSome result (λ a. a < at) }
    ensures same { IfSome result (λ a. first_in (expr_of (term_in (trees terms.now) at))
        ≡ first_in (expr_of (term_in (trees terms.now) a))) }
{
    match terms.node(at) {
        Node::Negate(a) | Node::Binary(_, a, _) => {
            if is_calculated(terms, a) {
                Some(a)
            } else {
                None
            }
        }
        Node::Aggregate(_, a) => Some(a),
        _ => None,
    }
}

#[cycle(first_in)]
fn first_inside(terms: &Terms, at: usize) -> Option<ExprId>
    requires { at < size terms.now }
    ensures first { option_map (expr terms.now) result ≡ first_in (expr_of (term_in (trees terms.now) at)) }
    ensures there { IfSome result (HasExpr terms.now) }
{
    match terms.node(at) {
        Node::Negate(a) => either(first_at(terms, a), Some(ExprId { place: at })),
        Node::Binary(_, a, b) => {
            let first = either(first_at(terms, a), first_at(terms, b));
            either(first, Some(ExprId { place: at }))
        }
        Node::Aggregate(_, a) => first_at(terms, a),
        _ => None,
    }
}

/// Returns the first calculation of an expression.
#[cycle(first_in)]
fn first_at(terms: &Terms, at: usize) -> Option<ExprId>
    requires { at < size terms.now }
    ensures first { option_map (expr terms.now) result ≡ first_in (expr_of (term_in (trees terms.now) at)) }
    ensures there { IfSome result (HasExpr terms.now) }
{
    let mut here = at;
    while let Some(inner) = inner(terms, here) {
        here = inner;
    }
    first_inside(terms, here)
}

/// Returns the first calculation of two expressions.
fn first_at_two(terms: &Terms, a: usize, b: usize) -> Option<ExprId>
    requires first { a < size terms.now }
    requires second { b < size terms.now }
    ensures first { option_map (expr terms.now) result
        ≡ first_in_two (expr_of (term_in (trees terms.now) a)) (expr_of (term_in (trees terms.now) b)) }
    ensures there { IfSome result (HasExpr terms.now) }
{
    either(first_at(terms, a), first_at(terms, b))
}

/// The operands of an AND or an OR. The near one stands just before it, if one does.
fn operands(terms: &Terms, at: usize) -> Option<Sides>
    requires { at < size terms.now }
    ensures near { IfSome result (λ s. s.near < at) }
    ensures far { IfSome result (λ s. s.far < at) }
    ensures first { IfSome result (λ s. first_of (cond_of (term_in (trees terms.now) at)) ≡ (if s.is_far_left
        then or_else (first_of (cond_of (term_in (trees terms.now) s.far)))
        (first_of (cond_of (term_in (trees terms.now) s.near)))
        else or_else (first_of (cond_of (term_in (trees terms.now) s.near)))
        (first_of (cond_of (term_in (trees terms.now) s.far))))) }
{
    match terms.node(at) {
        Node::And(c, d) | Node::Or(c, d) => {
            let is_far_left = d + 1 == at;
            if is_far_left {
                Some(Sides {
                    near: d,
                    far: c,
                    is_far_left,
                })
            } else {
                Some(Sides {
                    near: c,
                    far: d,
                    is_far_left,
                })
            }
        }
        _ => None,
    }
}

#[cycle(first_of)]
fn first_in_test(terms: &Terms, at: usize) -> Option<ExprId>
    requires { at < size terms.now }
    ensures first { option_map (expr terms.now) result ≡ first_of (cond_of (term_in (trees terms.now) at)) }
    ensures there { IfSome result (HasExpr terms.now) }
{
    match terms.node(at) {
        Node::Compare(_, a, b) => first_at_two(terms, a, b),
        Node::IsNull(a) => first_at(terms, a),
        Node::Related(_, a, b, c, d) => either(
            first_at_two(terms, a, b),
            first_at_two(terms, c, d),
        ),
        Node::ContainsPoint(a, b, c) => either(first_at_two(terms, a, b), first_at(terms, c)),
        Node::Not(c) => first_calculation(terms, CondId { place: c }),
        Node::And(c, d) | Node::Or(c, d) => {
            let first = first_calculation(terms, CondId { place: c });
            either(first, first_calculation(terms, CondId { place: d }))
        }
        _ => None,
    }
}

/// Returns the first calculation of a condition, from the left: an operation or a sign in whose own operands
/// nothing is calculated. `None` where nothing is calculated.
#[cycle(first_of)]
pub fn first_calculation(terms: &Terms, c: CondId) -> Option<ExprId>
    requires { HasCond terms.now c }
    ensures first { option_map (expr terms.now) result ≡ first_of (cond terms.now c) }
    ensures there { IfSome result (HasExpr terms.now) }
{
    let mut here = c.place;
    let mut later = None;
    while let Some(sides) = operands(terms, here) {
        let found = first_calculation(terms, CondId { place: sides.far });
        if sides.is_far_left && found.is_some() {
            return found;
        }
        later = either(found, later);
        here = sides.near;
    }
    either(first_in_test(terms, here), later)
}
