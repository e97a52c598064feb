//! The terms of a statement: its expressions and conditions as nodes in one list.
ghost use Rattle.std.specs.Prelude.{IsTrue, All, length};
ghost use Rattle.tql_value.specs.Points.{IsPrintable};
ghost use Rattle.tql_value.specs.Views.{datum_of_value};
ghost use Rattle.tql_expr.specs.Nodes.{all_read_before};
ghost use Rattle.tql_value.proofs.Printable.{texts_prop};

use crate::node::{Function, Node, Operation};
use std::alloc::AllocError;
use tql_memory::Memory;
use tql_period::predicates::Relation;
use tql_value::comparison::Comparison;
use tql_value::value::{Value, View};

/// The position of an expression among the terms of its statement.
#[derive(Clone, Copy, PartialEq, Eq, Debug)]
pub struct ExprId {
    pub place: usize,
}

/// The position of a condition among the terms of its statement.
#[derive(Clone, Copy, PartialEq, Eq, Debug)]
pub struct CondId {
    pub place: usize,
}

/// An aggregate over the rows of a group.
#[derive(Clone, Copy, PartialEq, Eq, Debug)]
pub enum Aggregate {
    /// The number of rows: `COUNT(*)`.
    Rows,
    /// A function over the values of an expression.
    Over(Function, ExprId),
}

/// The expressions and conditions of a statement. Each node follows its operands. Nodes are never changed later, so a
/// position always represents the same tree.
pub struct Terms {
    literals: Vec<Value, Memory>,
    nodes: Vec<Node, Memory>,
    ghost ordered: { IsTrue (all_read_before (length literals.items) 0 nodes.items) },
    ghost printable: { All (λ v. IsPrintable (datum_of_value v)) literals.items } by { texts_prop literals.items },
}

impl Drop for Terms {
    fn drop(self) {
        let Terms { literals, nodes } = self;
        drop(literals);
        drop(nodes);
    }
}

impl Terms {
    ghost use Rattle.std.specs.Prelude.{◌≡◌, ◌<◌, [], IsTrue, MatchResult, length};
    ghost use Rattle.tql_spec.specs.Expression as bound;
    ghost use Rattle.tql_value.specs.Views.{datum_of_value, datum_of_view, plain_comparison};
    ghost use Rattle.tql_period.specs.Relations.{plain_relation};
    ghost use Rattle.tql_expr.specs.Nodes.{reads_before};
    ghost use Rattle.tql_expr.specs.Trees.{node_term, term_in, plain_operation, plain_function};
    ghost use Rattle.tql_expr.specs.Meaning.{trees, size, expr, cond, datum_at, HasExpr, HasCond, Adds, AddsExpr};
    ghost use Rattle.tql_expr.specs.Meaning.{AddsCond};

    /// Creates empty terms.
    pub fn new(memory: Memory) -> Terms
        ensures { trees result ≡ [] }
    {
        Terms {
            literals: Vec::new(memory),
            nodes: Vec::new(memory),
        }
    }

    /// Adds a node that refers only to existing nodes and literals.
    fn push(&mut self, node: Node) -> Result<usize, AllocError>
        requires { IsTrue (reads_before (length self.old.literals.items) (size self.old) node) }
        ensures { MatchResult result
            (λ place. Adds self.old self.new place
            (node_term (datum_at self.old.literals.items) (term_in (trees self.old)) node))
            (λ _. trees self.new ≡ trees self.old) }
    {
        let place = self.nodes.len();
        self.nodes.reserve(1)?;
        self.nodes.push_reserved(node);
        Ok(place)
    }

    /// Adds a value. A day or a moment must be in the calendar.
    pub fn push_literal(&mut self, value: Value) -> Result<ExprId, AllocError>
        requires { IsPrintable (datum_of_value value) }
        ensures { AddsExpr self.old self.new result (bound.Literal (datum_of_value value)) }
    {
        let place = self.nodes.len();
        let literal = self.literals.len();
        self.nodes.reserve(1)?;
        self.literals.reserve(1)?;
        self.literals.push_reserved(value);
        self.nodes.push_reserved(Node::Literal(literal));
        Ok(ExprId { place })
    }

    /// Adds a column, by its number.
    pub fn push_column(&mut self, column: usize) -> Result<ExprId, AllocError>
        ensures { AddsExpr self.old self.new result (bound.Column column) }
    {
        let place = self.push(Node::Column(column))?;
        Ok(ExprId { place })
    }

    /// Adds `-x`.
    pub fn push_negate(&mut self, x: ExprId) -> Result<ExprId, AllocError>
        requires { HasExpr self.old x }
        ensures { AddsExpr self.old self.new result (bound.Negate (expr self.old x)) }
    {
        let place = self.push(Node::Negate(x.place))?;
        Ok(ExprId { place })
    }

    /// Adds `x + y`, `x - y` or `x * y`.
    pub fn push_binary(&mut self, op: Operation, x: ExprId, y: ExprId) -> Result<ExprId, AllocError>
        requires first { HasExpr self.old x }
        requires second { HasExpr self.old y }
        ensures { AddsExpr self.old self.new result
            (bound.Binary (plain_operation op) (expr self.old x) (expr self.old y)) }
    {
        let place = self.push(Node::Binary(op, x.place, y.place))?;
        Ok(ExprId { place })
    }

    /// Adds `COUNT(*)`.
    pub fn push_count_rows(&mut self) -> Result<ExprId, AllocError>
        ensures { AddsExpr self.old self.new result bound.CountRows }
    {
        let place = self.push(Node::CountRows)?;
        Ok(ExprId { place })
    }

    /// Adds an aggregate over `x`.
    pub fn push_aggregate(&mut self, function: Function, x: ExprId) -> Result<ExprId, AllocError>
        requires { HasExpr self.old x }
        ensures { AddsExpr self.old self.new result (bound.Aggregate (plain_function function) (expr self.old x)) }
    {
        let place = self.push(Node::Aggregate(function, x.place))?;
        Ok(ExprId { place })
    }

    /// Adds a comparison.
    pub fn push_compare(
        &mut self,
        sign: Comparison,
        x: ExprId,
        y: ExprId,
    ) -> Result<CondId, AllocError>
        requires first { HasExpr self.old x }
        requires second { HasExpr self.old y }
        ensures { AddsCond self.old self.new result
            (bound.Compare (plain_comparison sign) (expr self.old x) (expr self.old y)) }
    {
        let place = self.push(Node::Compare(sign, x.place, y.place))?;
        Ok(CondId { place })
    }

    /// Adds `x IS NULL`.
    pub fn push_is_null(&mut self, x: ExprId) -> Result<CondId, AllocError>
        requires { HasExpr self.old x }
        ensures { AddsCond self.old self.new result (bound.IsNull (expr self.old x)) }
    {
        let place = self.push(Node::IsNull(x.place))?;
        Ok(CondId { place })
    }

    /// Adds a predicate on the periods from the first expression to the second, and from the third to the fourth.
    pub fn push_related(
        &mut self,
        which: Relation,
        x: (ExprId, ExprId),
        y: (ExprId, ExprId),
    ) -> Result<CondId, AllocError>
        requires from { HasExpr self.old x.0 }
        requires to { HasExpr self.old x.1 }
        requires start { HasExpr self.old y.0 }
        requires end { HasExpr self.old y.1 }
        ensures { AddsCond self.old self.new result
            (bound.Related (plain_relation which)
            (expr self.old x.0) (expr self.old x.1) (expr self.old y.0) (expr self.old y.1)) }
    {
        let node = Node::Related(which, x.0.place, x.1.place, y.0.place, y.1.place);
        let place = self.push(node)?;
        Ok(CondId { place })
    }

    /// Adds CONTAINS with a point.
    pub fn push_contains_point(
        &mut self,
        x: (ExprId, ExprId),
        point: ExprId,
    ) -> Result<CondId, AllocError>
        requires from { HasExpr self.old x.0 }
        requires to { HasExpr self.old x.1 }
        requires point { HasExpr self.old point }
        ensures { AddsCond self.old self.new result
            (bound.ContainsPoint (expr self.old x.0) (expr self.old x.1) (expr self.old point)) }
    {
        let place = self.push(Node::ContainsPoint(x.0.place, x.1.place, point.place))?;
        Ok(CondId { place })
    }

    /// Adds `NOT c`.
    pub fn push_not(&mut self, c: CondId) -> Result<CondId, AllocError>
        requires { HasCond self.old c }
        ensures { AddsCond self.old self.new result (bound.Not (cond self.old c)) }
    {
        let place = self.push(Node::Not(c.place))?;
        Ok(CondId { place })
    }

    /// Adds `c AND d`.
    pub fn push_and(&mut self, c: CondId, d: CondId) -> Result<CondId, AllocError>
        requires first { HasCond self.old c }
        requires second { HasCond self.old d }
        ensures { AddsCond self.old self.new result (bound.And (cond self.old c) (cond self.old d)) }
    {
        let place = self.push(Node::And(c.place, d.place))?;
        Ok(CondId { place })
    }

    /// Adds `c OR d`.
    pub fn push_or(&mut self, c: CondId, d: CondId) -> Result<CondId, AllocError>
        requires first { HasCond self.old c }
        requires second { HasCond self.old d }
        ensures { AddsCond self.old self.new result (bound.Or (cond self.old c) (cond self.old d)) }
    {
        let place = self.push(Node::Or(c.place, d.place))?;
        Ok(CondId { place })
    }

    /// Returns the node at a position. Its operands are before it, and its tree is made of theirs.
    pub fn node(&self, at: usize) -> Node
        requires { at < size self.now }
        ensures before { IsTrue (reads_before (length self.now.literals.items) at result) }
        ensures term { term_in (trees self.now) at
            ≡ node_term (datum_at self.now.literals.items) (term_in (trees self.now)) result }
        ensures within { at < size self.now }
    {
        self.nodes[at]
    }

    /// Returns the literal at a position among the literals.
    pub fn literal(&self, place: usize) -> View<'_>
        requires { place < length self.now.literals.items }
        ensures { datum_of_view result ≡ datum_at self.now.literals.items place }
    {
        self.literals[place].view()
    }
}
