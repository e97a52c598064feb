//! Adds conditions and expressions that are written as lists.
ghost use Rattle.std.specs.Prelude.{All, map};
ghost use Rattle.tql_expr.specs.Trees.{plain_operation};
ghost use Rattle.tql_expr.specs.Meaning.{expr, cond, HasExpr, HasCond, chain, all_of, any_of, one_of, BuildsExpr};
ghost use Rattle.tql_expr.specs.Meaning.{BuildsCond};

use crate::node::Operation;
use crate::terms::{CondId, ExprId, Terms};
use std::alloc::AllocError;

// A list becomes one run of nodes. Its operands are added before the run, and no other node comes between.
impl Terms {
    /// Adds the operations on `first`, from left to right.
    pub fn push_chain(
        &mut self,
        first: ExprId,
        rest: &[(Operation, ExprId)],
    ) -> Result<ExprId, AllocError>
        requires first { HasExpr self.old first }
        requires rest { All (λ x. HasExpr self.old x.1) rest.now }
        ensures { BuildsExpr self.old self.new result
            (chain (expr self.old first) (map (λ x. (plain_operation x.0, expr self.old x.1)) rest.now)) }
    {
        let mut so_far = first;
        for (op, x) in rest {
            so_far = self.push_binary(*op, so_far, *x)?;
        }
        Ok(so_far)
    }

    /// Adds the AND of the conditions, from left to right.
    pub fn push_all(&mut self, first: CondId, rest: &[CondId]) -> Result<CondId, AllocError>
        requires first { HasCond self.old first }
        requires rest { All (HasCond self.old) rest.now }
        ensures { BuildsCond self.old self.new result (all_of (cond self.old first) (map (cond self.old) rest.now)) }
    {
        let mut so_far = first;
        for c in rest {
            so_far = self.push_and(so_far, *c)?;
        }
        Ok(so_far)
    }

    /// Adds the OR of the conditions, from left to right.
    pub fn push_any(&mut self, first: CondId, rest: &[CondId]) -> Result<CondId, AllocError>
        requires first { HasCond self.old first }
        requires rest { All (HasCond self.old) rest.now }
        ensures { BuildsCond self.old self.new result (any_of (cond self.old first) (map (cond self.old) rest.now)) }
    {
        let mut so_far = first;
        for c in rest {
            so_far = self.push_or(so_far, *c)?;
        }
        Ok(so_far)
    }

    /// Adds the OR of the conditions, nested to the right, as IN is defined.
    pub fn push_one_of(&mut self, conds: &[CondId], last: CondId) -> Result<CondId, AllocError>
        requires last { HasCond self.old last }
        requires conds { All (HasCond self.old) conds.now }
        ensures { BuildsCond self.old self.new result (one_of (map (cond self.old) conds.now) (cond self.old last)) }
    {
        let mut so_far = last;
        let mut left = conds.len();
        while left > 0 {
            left -= 1;
            so_far = self.push_or(conds[left], so_far)?;
        }
        Ok(so_far)
    }
}
