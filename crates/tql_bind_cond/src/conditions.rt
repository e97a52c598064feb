//! Binding of conditions: from the syntax tree to nodes in the arena of a statement. Each function follows the
//! definition of `Names` in `tql_spec` that its contract names: the same parts in the same order. The members of AND
//! and OR are bound in loops, so the recursion is only as deep as the parentheses.
ghost use Rattle.std.specs.Prelude.{IfOk};
ghost use Rattle.tql_spec.specs.Names as names;
ghost use Rattle.tql_expr.specs.Meaning.{cond, HasCond, Stays};
ghost use Rattle.tql_syntax_tree.specs.Conditions.{cond_of, conj_of, factor_of, test_of};
ghost use Rattle.tql_bind_expr.specs.Gathered.{Gathers};
ghost use Rattle.tql_bind_expr.specs.Scopes.{scope_of};

use crate::comparisons::{between, compare, negated_if, null_test};
use crate::membership::in_test;
use crate::relations::{contains_period, contains_point, relation_test};
use std::alloc::AllocError;
use tql_bind_expr::faults::Faults;
use tql_bind_expr::scope::Known;
use tql_expr::terms::{CondId, Terms};
use tql_memory::Memory;
use tql_syntax_tree::condition::{Cond, Conj, Factor, Test};

/// Binds a condition: its parts, joined by OR. The only error is a refused allocation; faults are collected.
#[cycle(conditions)]
pub fn condition(
    memory: Memory,
    scope: &[Known<'_>],
    condition: &Cond<'_>,
    terms: &mut Terms,
    faults: &mut Faults,
) -> Result<CondId, AllocError>
    ensures bound { IfOk result
        (λ c. Gathers (names.condition (scope_of scope.now) (cond_of condition.now))
        faults.old faults.new (cond terms.new c)) }
    ensures stays { Stays terms.old terms.new }
    ensures held { IfOk result (λ c. HasCond terms.new c) }
{
    let first = conj(memory, scope, &condition.first, terms, faults)?;
    let mut rest = Vec::new(memory);
    for part in &condition.more {
        let next = conj(memory, scope, part, terms, faults)?;
        rest.push(next)?;
    }
    terms.push_any(first, &rest)
}

/// Binds the parts between two ORs, joined by AND.
#[cycle(conditions)]
fn conj(
    memory: Memory,
    scope: &[Known<'_>],
    conj: &Conj<'_>,
    terms: &mut Terms,
    faults: &mut Faults,
) -> Result<CondId, AllocError>
    ensures bound { IfOk result
        (λ c. Gathers (names.conj (scope_of scope.now) (conj_of conj.now)) faults.old faults.new (cond terms.new c)) }
    ensures stays { Stays terms.old terms.new }
    ensures held { IfOk result (λ c. HasCond terms.new c) }
{
    let first = factor(memory, scope, &conj.first, terms, faults)?;
    let mut rest = Vec::new(memory);
    for part in &conj.more {
        let next = factor(memory, scope, part, terms, faults)?;
        rest.push(next)?;
    }
    terms.push_all(first, &rest)
}

/// Binds a test with or without NOT. The only error is a refused allocation; faults are collected.
#[cycle(conditions)]
pub fn factor(
    memory: Memory,
    scope: &[Known<'_>],
    factor: &Factor<'_>,
    terms: &mut Terms,
    faults: &mut Faults,
) -> Result<CondId, AllocError>
    ensures bound { IfOk result
        (λ c. Gathers (names.factor (scope_of scope.now) (factor_of factor.now))
        faults.old faults.new (cond terms.new c)) }
    ensures stays { Stays terms.old terms.new }
    ensures held { IfOk result (λ c. HasCond terms.new c) }
{
    let inner = test(memory, scope, &factor.test, terms, faults)?;
    negated_if(factor.is_negated, inner, terms)
}

/// Binds a test, or a condition in parentheses.
#[cycle(conditions)]
fn test(
    memory: Memory,
    scope: &[Known<'_>],
    test: &Test<'_>,
    terms: &mut Terms,
    faults: &mut Faults,
) -> Result<CondId, AllocError>
    ensures bound { IfOk result
        (λ c. Gathers (names.test (scope_of scope.now) (test_of test.now)) faults.old faults.new (cond terms.new c)) }
    ensures stays { Stays terms.old terms.new }
    ensures held { IfOk result (λ c. HasCond terms.new c) }
{
    match test {
        Test::Grouped(inner) => condition(memory, scope, inner, terms, faults),
        Test::Compared(sign, left, right) => {
            compare(memory, scope, *sign, left, right, terms, faults)
        }
        Test::Null(is_not, operand) => { null_test(memory, scope, *is_not, operand, terms, faults) }
        Test::Between(is_not, operand, low, high) => {
            between(memory, scope, *is_not, operand, low, high, terms, faults)
        }
        Test::In(is_not, operand, first, more) => {
            in_test(memory, scope, *is_not, operand, first, more, terms, faults)
        }
        Test::Related(left, which, right) => {
            relation_test(memory, scope, left, *which, right, terms, faults)
        }
        Test::ContainsPeriod(left, right) => {
            contains_period(memory, scope, left, right, terms, faults)
        }
        Test::ContainsPoint(left, point) => {
            contains_point(memory, scope, left, point, terms, faults)
        }
    }
}
