//! Searches in expressions and conditions.
ghost use Rattle.std.specs.List.{list_any};
ghost use Rattle.std.specs.Prelude.{◌≡◌, ◌<◌, ◌||◌, All, IfSome, map, not};
ghost use Rattle.tql_spec.specs.Binding.{is_loose};
ghost use Rattle.tql_spec.specs.Creation.{has_expr, has_number};
ghost use Rattle.tql_spec.specs.Expression as bound;
ghost use Rattle.tql_expr.specs.Trees.{expr_of, cond_of, term_in};
ghost use Rattle.tql_expr.specs.Meaning.{trees, size, expr, cond, HasExpr, HasCond};
ghost use Rattle.tql_expr.specs.Searches.{sought};

use crate::node::Node;
use crate::terms::{CondId, ExprId, Terms};

/// What a search looks for.
#[derive(Clone, Copy)]
pub enum Search<'a> {
    /// An aggregate.
    Aggregate,
    /// An aggregate inside an aggregate.
    Nested,
    /// A column outside the aggregates that is not one of these, by number.
    Loose(&'a [usize]),
    /// A column outside the aggregates with this number or a higher one.
    From(usize),
    /// A column outside the aggregates that is one of these, by number.
    OneOf(&'a [usize]),
}

/// The two operands of an operation, of an AND or of an OR.
#[derive(Clone, Copy)]
struct Operands {
    near: usize,
    far: usize,
}

impl<'a> Search<'a> {
    /// Whether the search matches a column.
    fn is_column(self, column: usize) -> bool
        ensures { result ≡ sought self.entry (bound.Column column) }
    {
        match self {
            Search::Aggregate | Search::Nested => false,
            Search::Loose(groups) => !groups.contains(&column),
            Search::From(first) => first <= column,
            Search::OneOf(columns) => columns.contains(&column),
        }
    }
}

// A long sum, or a long list of AND or OR, is a run of nodes, each of which continues the node just before it. A loop
// follows the run, so that the call depth depends on the parentheses only.
impl Terms {
    /// Returns the operands of an operation.
    fn operands(&self, search: Search<'_>, at: usize) -> Option<Operands>
        requires { at < size self.now }
        ensures near { IfSome result (λ p. p.near < at) }
        ensures far { IfSome result (λ p. p.far < at) }
        ensures found { IfSome result (λ p. sought search.entry (expr_of (term_in (trees self.now) at))
            ≡ (sought search.entry (expr_of (term_in (trees self.now) p.far))
            || sought search.entry (expr_of (term_in (trees self.now) p.near)))) }
    {
        match self.node(at) {
            Node::Binary(_, a, b) => {
                if b + 1 == at {
                    Some(Operands { near: b, far: a })
                } else {
                    Some(Operands { near: a, far: b })
                }
            }
            _ => None,
        }
    }

    #[cycle(finds)]
    fn finds_at(&self, search: Search<'_>, at: usize) -> bool
        requires { at < size self.now }
        ensures { result ≡ sought search.entry (expr_of (term_in (trees self.now) at)) }
    {
        match self.node(at) {
            Node::Column(column) => search.is_column(column),
            Node::Negate(a) => self.finds(search, ExprId { place: a }),
            Node::Binary(_, a, b) => {
                self.finds(search, ExprId { place: a }) || self.finds(search, ExprId { place: b })
            }
            Node::CountRows => matches!(search, Search::Aggregate),
            Node::Aggregate(_, a) => match search {
                Search::Aggregate => true,
                Search::Nested => self.finds(Search::Aggregate, ExprId { place: a }),
                Search::Loose(_) | Search::From(_) | Search::OneOf(_) => false,
            },
            _ => false,
        }
    }

    /// Whether an expression contains a match.
    #[cycle(finds)]
    pub fn finds(&self, search: Search<'_>, x: ExprId) -> bool
        requires { HasExpr self.now x }
        ensures { result ≡ sought search.entry (expr self.now x) }
    {
        let mut here = x.place;
        while let Some(operands) = self.operands(search, here) {
            if self.finds(
                search,
                ExprId {
                    place: operands.far,
                },
            ) {
                return true;
            }
            here = operands.near;
        }
        self.finds_at(search, here)
    }

    /// Returns the operands of an AND or an OR.
    fn halves(&self, search: Search<'_>, at: usize) -> Option<Operands>
        requires { at < size self.now }
        ensures near { IfSome result (λ p. p.near < at) }
        ensures far { IfSome result (λ p. p.far < at) }
        ensures found { IfSome result (λ p. has_expr (sought search.entry) (cond_of (term_in (trees self.now) at))
            ≡ (has_expr (sought search.entry) (cond_of (term_in (trees self.now) p.far))
            || has_expr (sought search.entry) (cond_of (term_in (trees self.now) p.near)))) }
    {
        match self.node(at) {
            Node::And(c, d) | Node::Or(c, d) => {
                if d + 1 == at {
                    Some(Operands { near: d, far: c })
                } else {
                    Some(Operands { near: c, far: d })
                }
            }
            _ => None,
        }
    }

    fn finds_here(&self, search: Search<'_>, place: usize) -> bool
        requires { place < size self.now }
        ensures { result ≡ sought search.entry (expr_of (term_in (trees self.now) place)) }
    {
        self.finds(search, ExprId { place })
    }

    #[cycle(finds_in)]
    fn finds_in_test(&self, search: Search<'_>, at: usize) -> bool
        requires { at < size self.now }
        ensures { result ≡ has_expr (sought search.entry) (cond_of (term_in (trees self.now) at)) }
    {
        match self.node(at) {
            Node::Compare(_, a, b) => self.finds_here(search, a) || self.finds_here(search, b),
            Node::IsNull(a) => self.finds_here(search, a),
            Node::Related(_, a, b, c, d) => {
                self.finds_here(search, a)
                    || self.finds_here(search, b)
                    || self.finds_here(search, c)
                    || self.finds_here(search, d)
            }
            Node::ContainsPoint(a, b, c) => {
                self.finds_here(search, a)
                    || self.finds_here(search, b)
                    || self.finds_here(search, c)
            }
            Node::Not(c) => self.finds_in(search, CondId { place: c }),
            Node::And(c, d) | Node::Or(c, d) => {
                self.finds_in(search, CondId { place: c })
                    || self.finds_in(search, CondId { place: d })
            }
            _ => false,
        }
    }

    /// Whether an expression of a condition contains a match.
    #[cycle(finds_in)]
    pub fn finds_in(&self, search: Search<'_>, c: CondId) -> bool
        requires { HasCond self.now c }
        ensures { result ≡ has_expr (sought search.entry) (cond self.now c) }
    {
        let mut here = c.place;
        while let Some(parts) = self.halves(search, here) {
            if self.finds_in(search, CondId { place: parts.far }) {
                return true;
            }
            here = parts.near;
        }
        self.finds_in_test(search, here)
    }

    /// Whether one of the expressions contains a match.
    pub fn finds_any(&self, search: Search<'_>, items: &[ExprId]) -> bool
        requires { All (HasExpr self.now) items.now }
        ensures { result ≡ list_any (sought search.entry) (map (expr self.now) items.now) }
    {
        for item in items {
            if self.finds(search, *item) {
                return true;
            }
        }
        false
    }

    /// Whether one of the conjuncts contains a match.
    pub fn finds_any_in(&self, search: Search<'_>, conjuncts: &[CondId]) -> bool
        requires { All (HasCond self.now) conjuncts.now }
        ensures { result ≡ list_any (has_expr (sought search.entry)) (map (cond self.now) conjuncts.now) }
    {
        for conjunct in conjuncts {
            if self.finds_in(search, *conjunct) {
                return true;
            }
        }
        false
    }
}
