//! Binding of IN.
ghost use Rattle.std.specs.Prelude.{IfOk, map};
ghost use Rattle.tql_spec.specs.Names as names;
ghost use Rattle.tql_spec.specs.Syntax as tree;
ghost use Rattle.tql_expr.specs.Meaning.{cond, HasExpr, HasCond, Stays};
ghost use Rattle.tql_syntax_tree.specs.Expressions.{expr_of, boxed_expr_of};
ghost use Rattle.tql_bind_expr.specs.Bounds.{typed_of};
ghost use Rattle.tql_bind_expr.specs.Gathered.{Gathers};
ghost use Rattle.tql_bind_expr.specs.Scopes.{scope_of};

use crate::comparisons::{compared, negated_if};
use std::alloc::AllocError;
use tql_bind_expr::expressions::sum;
use tql_bind_expr::faults::Faults;
use tql_bind_expr::scope::{Known, Typed};
use tql_expr::terms::{CondId, Terms};
use tql_memory::Memory;
use tql_syntax_tree::expression::Expr;
use tql_value::comparison::Comparison;

/// Binds the equalities of a bound operand with each expression of a list, joined by OR.
pub(crate) fn one_of(
    memory: Memory,
    scope: &[Known<'_>],
    operand: Typed,
    first: &Expr<'_>,
    more: &[Box<Expr<'_>, Memory>],
    terms: &mut Terms,
    faults: &mut Faults,
) -> Result<CondId, AllocError>
    requires { HasExpr terms.old operand.expr }
    ensures bound { IfOk result
        (λ c. Gathers (names.in_list (scope_of scope.now) (typed_of terms.old operand) (expr_of first.now)
        (map boxed_expr_of more.now)) faults.old faults.new (cond terms.new c)) }
    ensures stays { Stays terms.old terms.new }
    ensures held { IfOk result (λ c. HasCond terms.new c) }
{
    let mut last = compared(
        memory,
        scope,
        operand,
        Comparison::Equal,
        first,
        terms,
        faults,
    )?;
    let mut before = Vec::new(memory);
    for next in more {
        let equality = compared(
            memory,
            scope,
            operand,
            Comparison::Equal,
            next,
            terms,
            faults,
        )?;
        before.push(last)?;
        last = equality;
    }
    terms.push_one_of(&before, last)
}

/// Binds IN or NOT IN.
pub(crate) fn in_test(
    memory: Memory,
    scope: &[Known<'_>],
    is_negated: bool,
    operand: &Expr<'_>,
    first: &Expr<'_>,
    more: &[Box<Expr<'_>, Memory>],
    terms: &mut Terms,
    faults: &mut Faults,
) -> Result<CondId, AllocError>
    ensures bound { IfOk result
        (λ c. Gathers (names.test (scope_of scope.now)
        (tree.InTest is_negated (expr_of operand.now) (expr_of first.now) (map boxed_expr_of more.now)))
        faults.old faults.new (cond terms.new c)) }
    ensures stays { Stays terms.old terms.new }
    ensures held { IfOk result (λ c. HasCond terms.new c) }
{
    let operand = sum(memory, scope, operand, terms, faults)?;
    let is_among = one_of(memory, scope, operand, first, more, terms, faults)?;
    negated_if(is_negated, is_among, terms)
}
