//! Binding of the CHECK constraints of a new table.
ghost use Rattle.std.specs.Prelude.{◌≡◌, ◌++◌, ◌∷◌, [], IfOk, OnOk, option_map};
ghost use Rattle.std.specs.Option.{ForSome};
ghost use Rattle.tql_spec.specs.Creation.{has_number};
ghost use Rattle.tql_spec.specs.Names.{check_each};
ghost use Rattle.tql_spec.specs.Words.{listed};
ghost use Rattle.tql_catalog.specs.Definitions.{checks_of};
ghost use Rattle.tql_expr.specs.Meaning.{cond, HasCond, Stays};
ghost use Rattle.tql_syntax_tree.specs.Conditions.{cond_of};
ghost use Rattle.tql_syntax_tree.specs.Statements.{constraint_of, element_of};
ghost use Rattle.tql_bind_expr.specs.Gathered.{Gathers};
ghost use Rattle.tql_bind_expr.specs.Scopes.{scope_of};
ghost use Rattle.tql_bind_check.specs.Checking.{check_by, check_parts, checks_in, elements_in, is_wrong_check};

use std::alloc::AllocError;
use tql_bind_cond::conditions::condition;
use tql_bind_expr::about::{About, Cause};
use tql_bind_expr::faults::Faults;
use tql_bind_expr::scope::Known;
use tql_catalog::constraint::Checks;
use tql_expr::search::Search;
use tql_expr::terms::{CondId, Terms};
use tql_memory::Memory;
use tql_syntax_tree::condition::Cond;
use tql_syntax_tree::statement::{Constraint, CreateTree, Element};
use tql_value::refusal::Refusal;

/// Whether a condition has an aggregate or one of the generated columns.
fn is_wrong_check(terms: &Terms, check: CondId, generated: &[usize]) -> bool
    requires { HasCond terms.now check }
    ensures { result ≡ is_wrong_check (λ i. has_number i generated.now) (cond terms.now check) }
{
    terms.finds_in(Search::Aggregate, check) || terms.finds_in(Search::OneOf(generated), check)
}

/// Returns what the fault of a check with an aggregate or a generated column is about.
fn wrong_check(terms: &Terms, check: CondId, faults: &Faults) -> About
    requires { HasCond terms.now check }
{
    if terms.finds_in(Search::Aggregate, check) {
        faults.of_aggregate()
    } else {
        About::at(Cause::GeneratedInCheck, 0)
    }
}

/// Returns the condition of an element, if it is a check.
fn check_of<'t, 'a>(element: &'t Element<'a>) -> Option<&'t Cond<'a>>
    ensures { listed (option_map (λ c. cond_of c.now) result) ≡ checks_in (element_of element.now ∷ []) }
{
    match element {
        Element::Constraint(_, constraint) => constraint_check(constraint),
        Element::Column(_) | Element::Period(_) => None,
    }
}

/// Returns the condition of a constraint, if it is a check.
fn constraint_check<'t, 'a>(constraint: &'t Constraint<'a>) -> Option<&'t Cond<'a>>
    ensures { listed (option_map (λ c. cond_of c.now) result) ≡ check_parts (constraint_of constraint.now ∷ []) }
{
    match constraint {
        Constraint::Check(condition) => Some(condition),
        Constraint::Key(_) | Constraint::Foreign(_) => None,
    }
}

/// Binds a check. Adds the faults of its condition, and one if it has an aggregate or a generated column. The only
/// error is a refused allocation.
fn bound_check(
    memory: Memory,
    scope: &[Known<'_>],
    generated: &[usize],
    check: &Cond<'_>,
    terms: &mut Terms,
    faults: &mut Faults,
) -> Result<CondId, AllocError>
    ensures bound { IfOk result
        (λ c. Gathers (check_by (λ i. has_number i generated.now) (scope_of scope.now) (cond_of check.now))
        faults.old faults.new (cond terms.new c)) }
    ensures stays { Stays terms.old terms.new }
    ensures held { IfOk result (λ c. HasCond terms.new c) }
{
    let bound = condition(memory, scope, check, terms, faults)?;
    let is_wrong = is_wrong_check(terms, bound, generated);
    let about = wrong_check(terms, bound, faults);
    faults.refuse_if(is_wrong, Refusal::FormNotAllowedHere, about);
    Ok(bound)
}

/// Binds the check of an element, if it is one. Adds the faults of the check. The only error is a refused allocation.
fn element_check(
    memory: Memory,
    scope: &[Known<'_>],
    generated: &[usize],
    element: &Element<'_>,
    terms: &mut Terms,
    faults: &mut Faults,
) -> Result<Option<CondId>, AllocError>
    ensures bound { IfOk result
        (λ found. Gathers (check_each (check_by (λ i. has_number i generated.now) (scope_of scope.now))
        (checks_in (element_of element.now ∷ []))) faults.old faults.new
        (listed (option_map (cond terms.new) found))) }
    ensures stays { Stays terms.old terms.new }
    ensures held { IfOk result (λ found. ForSome found (HasCond terms.new)) }
{
    match check_of(element) {
        Some(check) => {
            let bound = bound_check(memory, scope, generated, check, terms, faults)?;
            Ok(Some(bound))
        }
        None => Ok(None),
    }
}

/// Adds the check, if there is one.
fn add_check(checks: &mut Vec<CondId, Memory>, found: Option<CondId>) -> Result<(), AllocError>
    ensures { OnOk result (checks.new.items ≡ checks.old.items ++ listed found) }
{
    if let Some(check) = found {
        checks.push(check)?;
    }
    Ok(())
}

/// Binds the checks of a new table, in the order of the statement, without names. Adds the faults of each. The only
/// error is a refused allocation.
pub fn bound_checks(
    memory: Memory,
    scope: &[Known<'_>],
    generated: &[usize],
    create: &CreateTree<'_>,
    faults: &mut Faults,
) -> Result<Checks, AllocError>
    ensures { IfOk result
        (λ bs. Gathers (check_each (check_by (λ i. has_number i generated.now) (scope_of scope.now))
        (checks_in (elements_in create.now))) faults.old faults.new (checks_of bs)) }
{
    let mut terms = Terms::new(memory);
    let mut conditions = Vec::new(memory);
    let found = element_check(memory, scope, generated, &create.first, &mut terms, faults)?;
    add_check(&mut conditions, found)?;
    for element in &create.more {
        let found = element_check(memory, scope, generated, element, &mut terms, faults)?;
        add_check(&mut conditions, found)?;
    }
    Ok(Checks {
        terms,
        conditions,
        names: Vec::new(memory),
    })
}
