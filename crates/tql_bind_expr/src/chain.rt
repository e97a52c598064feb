//! Chains of operations such as `a + b - c`. All operands are bound first, so that the operations become one contiguous
//! run of nodes in the arena.
ghost use Rattle.std.specs.Prelude.{◌≡◌, IfOk};
ghost use Rattle.tql_spec.specs.Names as names;
ghost use Rattle.tql_expr.specs.Meaning.{HasExpr, Stays};
ghost use Rattle.tql_expr.specs.Trees.{plain_operation};
ghost use Rattle.tql_expr.specs.declared.terms.Terms as arena;
ghost use Rattle.tql_bind_expr.specs.Gathered.{Gathers};
ghost use Rattle.tql_bind_expr.specs.Bounds.{typed_of};
ghost use Rattle.tql_bind_expr.specs.Chains.{chain_of, HoldsChain};

use crate::about::{About, Cause};
use crate::faults::Faults;
use crate::kinds::{is_no_number, is_other_kind};
use crate::scope::Typed;
use std::alloc::AllocError;
use tql_expr::node::Operation;
use tql_expr::terms::{ExprId, Terms};
use tql_memory::Memory;
use tql_value::refusal::Refusal;
use tql_value::value::Kind;

/// A chain of operations from left to right: its first operand, each operation with its right operand, the type of the
/// result, and the byte offset at which it starts.
#[derive(Drop)]
pub(crate) struct Chain {
    first: ExprId,
    rest: Vec<(Operation, ExprId), Memory>,
    kind: Option<Kind>,
    start: u32,
}

impl Chain {
    /// Returns a chain of the first operand alone.
    pub(crate) fn new(memory: Memory, first: Typed) -> Chain
        ensures bound { (t : arena.Terms) → chain_of t result ≡ typed_of t first }
        ensures held { (t : arena.Terms) → HasExpr t first.expr → HoldsChain t result }
    {
        Chain {
            first: first.expr,
            rest: Vec::new(memory),
            kind: first.kind,
            start: first.start,
        }
    }

    /// Returns the cause and place of the fault that an operand is not a number: this one, or else the right one.
    fn no_number(&self, right: Typed) -> About {
        if is_other_kind(Kind::Int, self.kind) {
            About::at(Cause::NoNumber, self.start).kinds(self.kind, None)
        } else {
            About::at(Cause::NoNumber, right.start).kinds(right.kind, None)
        }
    }

    /// Appends an operation, which requires numbers on both sides.
    #[tactic(auto, using(crate::proofs::Gathering::gathering))]
    pub(crate) fn add(
        &mut self,
        operation: Operation,
        right: Typed,
        faults: &mut Faults,
    ) -> Result<(), AllocError>
        ensures bound { IfOk result (λ _. (t : arena.Terms)
            → Gathers (names.arithmetic (plain_operation operation) (chain_of t self.old) (typed_of t right))
            faults.old faults.new (chain_of t self.new)) }
        ensures held { IfOk result (λ _. (t : arena.Terms) → HoldsChain t self.old
            → HasExpr t right.expr → HoldsChain t self.new) }
    {
        faults.refuse_if(
            is_no_number(self.kind, right.kind),
            Refusal::TypesDoNotFit,
            self.no_number(right),
        );
        self.rest.push((operation, right.expr))?;
        self.kind = Some(Kind::Int);
        Ok(())
    }

    /// Adds the operations to the arena, and returns the expression that they form.
    pub(crate) fn push(&self, terms: &mut Terms) -> Result<Typed, AllocError>
        requires { HoldsChain terms.old self.now }
        ensures bound { IfOk result (λ t. typed_of terms.new t ≡ chain_of terms.old self.now) }
        ensures stays { Stays terms.old terms.new }
        ensures held { IfOk result (λ t. HasExpr terms.new t.expr) }
    {
        let expr = terms.push_chain(self.first, &self.rest)?;
        Ok(Typed {
            expr,
            kind: self.kind,
            start: self.start,
        })
    }
}
