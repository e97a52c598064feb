//! Finds the conditions that no evaluation can take out of range.
ghost use Rattle.std.specs.Prelude.{◌≡◌, ◌<◌, ◌&&◌, IfSome};
ghost use Rattle.tql_expr.specs.Trees.{expr_of, cond_of, term_in};
ghost use Rattle.tql_spec.specs.Expression.{is_plain as plain, is_safe as safe};
ghost use Rattle.tql_expr.specs.Meaning.{trees, size, cond, HasCond};

use crate::node::Node;
use crate::terms::{CondId, Terms};

/// The two operands of an AND or an OR.
#[derive(Clone, Copy)]
struct Parts {
    near: usize,
    far: usize,
}

impl Terms {
    fn is_plain_at(&self, at: usize) -> bool
        requires { at < size self.now }
        ensures { result ≡ plain (expr_of (term_in (trees self.now) at)) }
    {
        !matches!(
            self.node(at),
            Node::Negate(_) | Node::Binary(..) | Node::CountRows | Node::Aggregate(..)
        )
    }

    /// Returns the operands of an AND or an OR. The near one is the node just before, if that is an operand.
    fn parts(&self, at: usize) -> Option<Parts>
        requires { at < size self.now }
        ensures near { IfSome result (λ p. p.near < at) }
        ensures far { IfSome result (λ p. p.far < at) }
        ensures safe { IfSome result (λ p. safe (cond_of (term_in (trees self.now) at))
            ≡ (safe (cond_of (term_in (trees self.now) p.far)) && safe (cond_of (term_in (trees self.now) p.near)))) }
    {
        match self.node(at) {
            Node::And(c, d) | Node::Or(c, d) => {
                if d + 1 == at {
                    Some(Parts { near: d, far: c })
                } else {
                    Some(Parts { near: c, far: d })
                }
            }
            _ => None,
        }
    }

    #[cycle(safety)]
    fn is_safe_test(&self, at: usize) -> bool
        requires { at < size self.now }
        ensures { result ≡ safe (cond_of (term_in (trees self.now) at)) }
    {
        match self.node(at) {
            Node::Compare(_, a, b) => self.is_plain_at(a) && self.is_plain_at(b),
            Node::IsNull(a) => self.is_plain_at(a),
            Node::Related(_, a, b, c, d) => {
                self.is_plain_at(a)
                    && self.is_plain_at(b)
                    && self.is_plain_at(c)
                    && self.is_plain_at(d)
            }
            Node::ContainsPoint(a, b, c) => {
                self.is_plain_at(a) && self.is_plain_at(b) && self.is_plain_at(c)
            }
            Node::Not(c) => self.is_safe(CondId { place: c }),
            Node::And(c, d) | Node::Or(c, d) => {
                self.is_safe(CondId { place: c }) && self.is_safe(CondId { place: d })
            }
            _ => true,
        }
    }

    /// Whether a condition contains no arithmetic and no aggregate. If so, `holds` never returns `Range`.
    #[cycle(safety)]
    pub fn is_safe(&self, c: CondId) -> bool
        requires { HasCond self.now c }
        ensures { result ≡ safe (cond self.now c) }
    {
        let mut here = c.place;
        while let Some(parts) = self.parts(here) {
            if !self.is_safe(CondId { place: parts.far }) {
                return false;
            }
            here = parts.near;
        }
        self.is_safe_test(here)
    }
}
