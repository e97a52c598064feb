//! The parts of a conjunct, and the test that a part is.
ghost use Rattle.std.specs.Prelude.{◌≡◌, ◌∷◌, ◌<◌, ◌&&◌, [], false, IfSome, IsNone, IsTrue, length, nat_lt, not};
ghost use Rattle.std.specs.List.{list_any};
ghost use Rattle.tql_spec.specs.Binding.{all_assignable, is_generated};
ghost use Rattle.tql_spec.specs.Expression.{And};
ghost use Rattle.tql_catalog.specs.Rows.{IsStoredAt};
ghost use Rattle.tql_expr.specs.Meaning.{cond, HasCond};
ghost use Rattle.tql_plan_access.specs.Choices.{is_choice as choice};
ghost use Rattle.tql_plan_screen.specs.Coded.{IsTestFor, compared_test};
ghost use Rattle.tql_plan_screen.specs.Screens.{is_compared, parts};

use crate::compared::{Compared, comparison_of};
use crate::sets::chosen_column;
use tql_catalog::table_def::TableDef;
use tql_expr::node::Node;
use tql_expr::terms::{CondId, Terms};
use tql_plan_access::alternatives::is_choice;

/// An AND.
#[derive(Clone, Copy)]
pub(crate) struct Conjunction {
    pub(crate) left: CondId,
    pub(crate) right: CondId,
}

/// Returns the sides of a condition that is an AND.
pub(crate) fn sides(terms: &Terms, c: CondId) -> Option<Conjunction>
    requires { HasCond terms.now c }
    ensures left { IfSome result (λ s. s.left.place < c.place) }
    ensures right { IfSome result (λ s. s.right.place < c.place) }
    ensures are { IfSome result (λ s. cond terms.now c ≡ And (cond terms.now s.left) (cond terms.now s.right)) }
    ensures none { IsNone result → parts (cond terms.now c) ≡ cond terms.now c ∷ [] }
{
    match terms.node(c.place) {
        Node::And(left, right) => Some(Conjunction {
            left: CondId { place: left },
            right: CondId { place: right },
        }),
        _ => None,
    }
}

/// Whether a column of a table is stored: it exists, and is not generated.
fn is_stored(definition: &TableDef, column: usize) -> bool
    ensures { result ≡ (nat_lt column (length definition.now.columns) && not (is_generated definition.now column)) }
{
    column < definition.columns().len() && !definition.is_generated(column)
}

/// Returns the comparison of a condition that compares a stored column with a literal, with the number at which the
/// column is stored.
pub(crate) fn stored_comparison<'a>(
    definition: &TableDef,
    terms: &'a Terms,
    c: CondId,
) -> Option<Compared<'a>>
    requires { HasCond terms.now c }
    ensures test { IfSome result (λ t. IsTestFor definition.now (cond terms.now c) (compared_test t)) }
    ensures none { IsNone result
        → list_any (λ i. is_compared i (cond terms.now c)) (all_assignable definition.now) ≡ false }
{
    match comparison_of(terms, c) {
        Some(compared) => {
            if !is_stored(definition, compared.column) {
                return None;
            }
            let column = definition.stored_number(compared.column);
            Some(Compared { column, ..compared })
        }
        None => None,
    }
}

/// Returns the stored column of which a condition is a choice.
pub(crate) fn stored_choice(definition: &TableDef, terms: &Terms, c: CondId) -> Option<usize>
    requires { HasCond terms.now c }
    ensures choice { IfSome result (λ i. IsTrue (choice i (cond terms.now c))) }
    ensures within { IfSome result (λ i. i < length definition.now.columns) }
    ensures stored { IfSome result (λ i. is_generated definition.now i ≡ false) }
    ensures none { IsNone result
        → list_any (λ i. is_compared i (cond terms.now c)) (all_assignable definition.now) ≡ false
        → list_any (λ i. choice i (cond terms.now c)) (all_assignable definition.now) ≡ false }
{
    match chosen_column(terms, c) {
        Some(column) => {
            if !is_stored(definition, column) {
                return None;
            }
            if is_choice(terms, c, column) {
                Some(column)
            } else {
                None
            }
        }
        None => None,
    }
}
