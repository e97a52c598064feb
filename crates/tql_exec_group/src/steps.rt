//! The nodes of HAVING and of the select list. They are collected once for a query, from the first that HAVING or an
//! item reads to the last, so that each is evaluated once for a group, however often it is named.
ghost use Rattle.std.specs.Prelude.{◌≡◌, ℕ, ◌+◌, ◌-◌, ◌<◌, ◌≤◌, ◌++◌, ◌∷◌, [], All, IfOk, IfSome, IsSome, IsTrue};
ghost use Rattle.std.specs.Prelude.{length, nat_le, OnOk};
ghost use Rattle.tql_expr.specs.Meaning.{size, HasCond, HasExpr};
ghost use Rattle.tql_exec_group.specs.Steps.{aggregate_of, aggregates_in, reads_from, AreSteps, IsStepped, LiesIn};

use std::alloc::AllocError;
use tql_expr::node::Node;
use tql_expr::terms::{Aggregate, CondId, ExprId, Terms};
use tql_memory::Memory;

/// The nodes from a position on, and the aggregates of operands among them, in their order.
pub struct Steps {
    /// The position of the first node.
    pub(crate) from: usize,
    pub(crate) nodes: Vec<Node, Memory>,
    pub(crate) aggregates: Vec<Aggregate, Memory>,
}

impl Drop for Steps {
    fn drop(self) {
        let Steps {
            from: _,
            nodes,
            aggregates,
        } = self;
        drop(nodes);
        drop(aggregates);
    }
}

/// Positions of nodes: from the first to the last.
#[derive(Clone, Copy)]
struct Stretch {
    from: usize,
    last: usize,
}

/// Returns the aggregate of an operand that a node is. COUNT(*) has no operand: it is the number of rows of a group.
pub(crate) fn aggregate_in(node: Node) -> Option<Aggregate>
    ensures { result ≡ aggregate_of node }
{
    match node {
        Node::Aggregate(function, place) => Some(Aggregate::Over(function, ExprId { place })),
        _ => None,
    }
}

/// Returns the least position that a node outside aggregates reads. Returns `at` if it reads none.
fn first_read(node: Node, at: usize) -> usize
    ensures { (from : ℕ) → from ≤ at → reads_from from node ≡ nat_le from result }
{
    match node {
        Node::Literal(_) | Node::Column(_) | Node::CountRows | Node::Aggregate(..) => at,
        Node::Negate(a) | Node::IsNull(a) | Node::Not(a) => a,
        Node::Binary(_, a, b) | Node::Compare(_, a, b) => a.min(b),
        Node::And(a, b) | Node::Or(a, b) => a.min(b),
        Node::Related(_, a, b, c, d) => a.min(b).min(c).min(d),
        Node::ContainsPoint(a, b, c) => a.min(b).min(c),
    }
}

/// Returns the position of the first node that the nodes of a stretch read, directly or through others.
fn first_needed(terms: &Terms, stretch: Stretch) -> usize
    requires { stretch.last < size terms.now }
    ensures { result ≤ stretch.from }
{
    let mut at = stretch.last;
    let mut from = stretch.from.min(first_read(terms.node(at), at));
    while from < at {
        at -= 1;
        from = from.min(first_read(terms.node(at), at));
    }
    from
}

/// Returns the stretch, widened to hold a position.
fn widened(stretch: Stretch, place: usize) -> Stretch
    ensures from { result.from ≤ stretch.from }
    ensures last { stretch.last ≤ result.last }
    ensures holds { LiesIn result.from (result.last + 1) place }
    ensures within { (n : ℕ) → place < n → stretch.last ≤ n - 1 → result.last ≤ n - 1 }
{
    Stretch {
        from: stretch.from.min(place),
        last: stretch.last.max(place),
    }
}

/// Returns the stretch, widened to hold conjuncts.
fn with_conds(stretch: Stretch, terms: &Terms, conds: &[CondId]) -> Stretch
    requires { All (HasCond terms.now) conds.now }
    ensures holds { All (λ c. LiesIn result.from (result.last + 1) c.place) conds.now }
    ensures within { stretch.last ≤ size terms.now - 1 → result.last ≤ size terms.now - 1 }
    ensures some { (stretch.from ≤ stretch.last → 0 < size terms.now)
        → result.from ≤ result.last → 0 < size terms.now }
{
    let mut all = stretch;
    for cond in conds {
        all = widened(all, cond.place);
    }
    all
}

/// Returns the stretch, widened to hold expressions.
fn with_exprs(stretch: Stretch, terms: &Terms, exprs: &[ExprId]) -> Stretch
    requires { All (HasExpr terms.now) exprs.now }
    ensures holds { All (λ x. LiesIn result.from (result.last + 1) x.place) exprs.now }
    ensures from { result.from ≤ stretch.from }
    ensures last { stretch.last ≤ result.last }
    ensures within { stretch.last ≤ size terms.now - 1 → result.last ≤ size terms.now - 1 }
    ensures some { (stretch.from ≤ stretch.last → 0 < size terms.now)
        → result.from ≤ result.last → 0 < size terms.now }
{
    let mut all = stretch;
    for expr in exprs {
        all = widened(all, expr.place);
    }
    all
}

impl Steps {
    /// Returns no nodes from a position on. Makes no allocation.
    fn new(memory: Memory, from: usize) -> Steps
        ensures from { result.from ≡ from }
        ensures nodes { result.nodes.items ≡ [] }
        ensures aggregates { result.aggregates.items ≡ [] }
    {
        Steps {
            from,
            nodes: Vec::new(memory),
            aggregates: Vec::new(memory),
        }
    }

    /// Adds a node.
    fn add(&mut self, node: Node) -> Result<(), AllocError>
        ensures from { self.new.from ≡ self.old.from }
        ensures nodes { OnOk result (self.new.nodes.items ≡ self.old.nodes.items ++ node ∷ []) }
        ensures aggregates { OnOk result
            (self.new.aggregates.items ≡ self.old.aggregates.items ++ aggregates_in (node ∷ [])) }
    {
        if let Some(which) = aggregate_in(node) {
            self.aggregates.push(which)?;
        }
        self.nodes.push(node)?;
        Ok(())
    }

    /// Adds the node at the next position. Returns whether it reads no node before the first. The only error is a
    /// refused allocation.
    fn add_at(&mut self, terms: &Terms, at: usize) -> Result<bool, AllocError>
        requires there { at < size terms.now }
        requires next { self.old.from + length self.old.nodes.items ≡ at }
        ensures from { self.new.from ≡ self.old.from }
        ensures steps { IfOk result (λ b. IsTrue b → AreSteps terms.now self.old → AreSteps terms.now self.new) }
        ensures long { IfOk result
            (λ b. IsTrue b → length self.new.nodes.items ≡ length self.old.nodes.items + 1) }
        ensures whole { self.old.from ≡ 0 → IfOk result IsTrue }
    {
        let node = terms.node(at);
        if first_read(node, self.from) < self.from {
            return Ok(false);
        }
        self.add(node)?;
        Ok(true)
    }
}

/// Returns the nodes of a stretch, or `None` if one reads a node before it. The only error is a refused allocation.
fn steps_in(memory: Memory, terms: &Terms, stretch: Stretch) -> Result<Option<Steps>, AllocError>
    requires within { stretch.last < size terms.now }
    requires some { stretch.from ≤ stretch.last }
    ensures steps { IfOk result (λ o. IfSome o (AreSteps terms.now)) }
    ensures from { IfOk result (λ o. IfSome o (λ s. s.from ≡ stretch.from)) }
    ensures last { IfOk result (λ o. IfSome o (λ s. stretch.last + 1 ≡ s.from + length s.nodes.items)) }
    ensures whole { stretch.from ≡ 0 → IfOk result IsSome }
{
    let mut steps = Steps::new(memory, stretch.from);
    let mut at = stretch.from;
    while at < stretch.last {
        if !steps.add_at(terms, at)? {
            return Ok(None);
        }
        at += 1;
    }
    if steps.add_at(terms, at)? {
        Ok(Some(steps))
    } else {
        Ok(None)
    }
}

/// Returns the nodes of a stretch, and of what they read. Where a node reads one before the first that was found by a
/// walk back, all nodes are taken. The only error is a refused allocation.
fn steps_for(memory: Memory, terms: &Terms, stretch: Stretch) -> Result<Steps, AllocError>
    requires within { stretch.last ≤ size terms.now - 1 }
    requires some { stretch.from ≤ stretch.last → 0 < size terms.now }
    ensures steps { IfOk result (AreSteps terms.now) }
    ensures from { IfOk result (λ s. s.from ≤ stretch.from) }
    ensures last { IfOk result (λ s. stretch.from ≤ stretch.last → stretch.last + 1 ≤ s.from + length s.nodes.items) }
{
    if stretch.last < stretch.from {
        return Ok(Steps::new(memory, stretch.from));
    }
    let needed = Stretch {
        from: first_needed(terms, stretch),
        last: stretch.last,
    };
    if let Some(steps) = steps_in(memory, terms, needed)? {
        return Ok(steps);
    }
    let whole = Stretch {
        from: 0,
        last: stretch.last,
    };
    match steps_in(memory, terms, whole)? {
        Some(steps) => Ok(steps),
        None => unreachable!(),
    }
}

/// Returns the nodes that these conjuncts and expressions read, outside of the operands of aggregates, and those
/// between. The only error is a refused allocation.
pub(crate) fn steps_of(
    memory: Memory,
    terms: &Terms,
    having: &[CondId],
    items: &[ExprId],
) -> Result<Steps, AllocError>
    requires having { All (HasCond terms.now) having.now }
    requires items { All (HasExpr terms.now) items.now }
    ensures steps { IfOk result (AreSteps terms.now) }
    ensures having { IfOk result (λ s. All (λ c. IsStepped s c.place) having.now) }
    ensures items { IfOk result (λ s. All (λ x. IsStepped s x.place) items.now) }
{
    let nothing = Stretch {
        from: usize::MAX,
        last: 0,
    };
    let conds = with_conds(nothing, terms, having);
    steps_for(memory, terms, with_exprs(conds, terms, items))
}
