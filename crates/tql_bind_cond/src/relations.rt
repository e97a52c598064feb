//! Binding of period predicates: the relations of two periods, and CONTAINS.
ghost use Rattle.std.specs.Prelude.{IfOk};
ghost use Rattle.tql_spec.specs.Names as names;
ghost use Rattle.tql_spec.specs.Period.{Includes};
ghost use Rattle.tql_spec.specs.Syntax as tree;
ghost use Rattle.tql_expr.specs.Meaning.{cond, HasCond, Stays};
ghost use Rattle.tql_period.specs.Relations.{plain_relation};
ghost use Rattle.tql_syntax_tree.specs.Conditions.{marked_of, operand_of, relation_of};
ghost use Rattle.tql_syntax_tree.specs.Expressions.{expr_of, named_of};
ghost use Rattle.tql_value.specs.Views.{plain_kind};
ghost use Rattle.tql_bind_expr.specs.Gathered.{Gathers};
ghost use Rattle.tql_bind_expr.specs.Scopes.{scope_of};
ghost use Rattle.tql_bind_cond.specs.Ends.{ends_of, HasEnds};

use crate::periods::{Ends, ends_at, marked, named_period, operand};
use crate::signs::relation;
use crate::sole_names::sole_name;
use std::alloc::AllocError;
use tql_bind_expr::about::{About, Cause};
use tql_bind_expr::expressions::sum;
use tql_bind_expr::faults::Faults;
use tql_bind_expr::kinds::differ;
use tql_bind_expr::names::start_of;
use tql_bind_expr::scope::Known;
use tql_expr::terms::{CondId, Terms};
use tql_memory::Memory;
use tql_period::predicates::Relation;
use tql_syntax_tree::condition as written;
use tql_syntax_tree::condition::{Marked, Operand};
use tql_syntax_tree::expression::{Expr, Named};
use tql_value::refusal::Refusal;
use tql_value::value::Kind;

/// Adds a relation of two periods. Adds a fault if the types of their points are known and differ.
fn related(
    which: Relation,
    left: Ends,
    right: Ends,
    terms: &mut Terms,
    faults: &mut Faults,
) -> Result<CondId, AllocError>
    requires left { HasEnds terms.old left }
    requires right { HasEnds terms.old right }
    ensures bound { IfOk result
        (λ c. Gathers (names.related (plain_relation which) (ends_of terms.old left) (ends_of terms.old right))
        faults.old faults.new (cond terms.new c)) }
    ensures stays { Stays terms.old terms.new }
    ensures held { IfOk result (λ c. HasCond terms.new c) }
{
    faults.refuse_if(
        differ(left.kind, right.kind),
        Refusal::TypesDoNotFit,
        About::at(Cause::KindsDiffer, left.at)
            .and(right.at)
            .kinds(left.kind, right.kind),
    );
    terms.push_related(which, (left.start, left.end), (right.start, right.end))
}

/// Binds a relation of two periods other than CONTAINS.
pub(crate) fn relation_test(
    memory: Memory,
    scope: &[Known<'_>],
    left: &Operand<'_>,
    which: written::Relation,
    right: &Operand<'_>,
    terms: &mut Terms,
    faults: &mut Faults,
) -> Result<CondId, AllocError>
    ensures bound { IfOk result
        (λ c. Gathers (names.test (scope_of scope.now)
        (tree.RelationTest (operand_of left.now) (relation_of which) (operand_of right.now)))
        faults.old faults.new (cond terms.new c)) }
    ensures stays { Stays terms.old terms.new }
    ensures held { IfOk result (λ c. HasCond terms.new c) }
{
    let left = operand(memory, scope, left, terms, faults)?;
    let right = operand(memory, scope, right, terms, faults)?;
    related(relation(which), left, right, terms, faults)
}

/// Binds CONTAINS with PERIOD (..) or SYSTEM_TIME.
pub(crate) fn contains_period(
    memory: Memory,
    scope: &[Known<'_>],
    left: &Operand<'_>,
    right: &Marked<'_>,
    terms: &mut Terms,
    faults: &mut Faults,
) -> Result<CondId, AllocError>
    ensures bound { IfOk result
        (λ c. Gathers (names.test (scope_of scope.now)
        (tree.ContainsPeriod (operand_of left.now) (marked_of right.now))) faults.old faults.new (cond terms.new c)) }
    ensures stays { Stays terms.old terms.new }
    ensures held { IfOk result (λ c. HasCond terms.new c) }
{
    let left = operand(memory, scope, left, terms, faults)?;
    let right = marked(memory, scope, right, terms, faults)?;
    related(Relation::Contains, left, right, terms, faults)
}

/// Binds CONTAINS with a point. Adds a fault if its type and that of the period's points are known and differ.
fn contained_point(
    memory: Memory,
    scope: &[Known<'_>],
    period: Ends,
    point: &Expr<'_>,
    terms: &mut Terms,
    faults: &mut Faults,
) -> Result<CondId, AllocError>
    requires { HasEnds terms.old period }
    ensures bound { IfOk result
        (λ c. Gathers (names.contained_point (scope_of scope.now) (ends_of terms.old period) (expr_of point.now))
        faults.old faults.new (cond terms.new c)) }
    ensures stays { Stays terms.old terms.new }
    ensures held { IfOk result (λ c. HasCond terms.new c) }
{
    let point = sum(memory, scope, point, terms, faults)?;
    faults.refuse_if(
        differ(period.kind, point.kind),
        Refusal::TypesDoNotFit,
        About::at(Cause::KindsDiffer, period.at)
            .and(point.start)
            .kinds(period.kind, point.kind),
    );
    terms.push_contains_point((period.start, period.end), point.expr)
}

/// Binds CONTAINS with the application period of these two columns.
fn contained_period(
    period: Ends,
    start: usize,
    end: usize,
    kind: Kind,
    at: u32,
    terms: &mut Terms,
    faults: &mut Faults,
) -> Result<CondId, AllocError>
    requires { HasEnds terms.old period }
    ensures bound { IfOk result
        (λ c. Gathers (names.related Includes (ends_of terms.old period) (names.ends_at start end (plain_kind kind)))
        faults.old faults.new (cond terms.new c)) }
    ensures stays { Stays terms.old terms.new }
    ensures held { IfOk result (λ c. HasCond terms.new c) }
{
    let right = ends_at(start, end, kind, at, terms)?;
    related(Relation::Contains, period, right, terms, faults)
}

/// Binds CONTAINS with a name, which means an application period or else a point.
fn contained_named(
    memory: Memory,
    scope: &[Known<'_>],
    period: Ends,
    right: &Expr<'_>,
    named: Named<'_>,
    terms: &mut Terms,
    faults: &mut Faults,
) -> Result<CondId, AllocError>
    requires { HasEnds terms.old period }
    ensures bound { IfOk result
        (λ c. Gathers (names.contained_named (scope_of scope.now) (ends_of terms.old period) (expr_of right.now)
        (names.things (scope_of scope.now) (named_of named.entry))) faults.old faults.new (cond terms.new c)) }
    ensures stays { Stays terms.old terms.new }
    ensures held { IfOk result (λ c. HasCond terms.new c) }
{
    let found = named_period(memory, scope, named)?;
    match found {
        Some((start, end, kind)) => {
            contained_period(period, start, end, kind, start_of(named), terms, faults)
        }
        None => contained_point(memory, scope, period, right, terms, faults),
    }
}

/// Binds CONTAINS with an expression: a period if it is the name of one, else a point.
fn contained(
    memory: Memory,
    scope: &[Known<'_>],
    period: Ends,
    right: &Expr<'_>,
    terms: &mut Terms,
    faults: &mut Faults,
) -> Result<CondId, AllocError>
    requires { HasEnds terms.old period }
    ensures bound { IfOk result
        (λ c. Gathers (names.contained (scope_of scope.now) (ends_of terms.old period) (expr_of right.now)
        (names.sole_name (expr_of right.now))) faults.old faults.new (cond terms.new c)) }
    ensures stays { Stays terms.old terms.new }
    ensures held { IfOk result (λ c. HasCond terms.new c) }
{
    match sole_name(right) {
        None => contained_point(memory, scope, period, right, terms, faults),
        Some(named) => contained_named(memory, scope, period, right, named, terms, faults),
    }
}

/// Binds CONTAINS with an expression.
pub(crate) fn contains_point(
    memory: Memory,
    scope: &[Known<'_>],
    left: &Operand<'_>,
    right: &Expr<'_>,
    terms: &mut Terms,
    faults: &mut Faults,
) -> Result<CondId, AllocError>
    ensures bound { IfOk result
        (λ c. Gathers (names.test (scope_of scope.now) (tree.ContainsPoint (operand_of left.now) (expr_of right.now)))
        faults.old faults.new (cond terms.new c)) }
    ensures stays { Stays terms.old terms.new }
    ensures held { IfOk result (λ c. HasCond terms.new c) }
{
    let left = operand(memory, scope, left, terms, faults)?;
    contained(memory, scope, left, right, terms, faults)
}
