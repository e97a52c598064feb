//! Sets of values: the literals of an IN, or of an OR of equalities.
ghost use Rattle.std.specs.Prelude.{◌≡◌, map, option_map};
ghost use Rattle.std.specs.List.{list_any};
ghost use Rattle.tql_expr.specs.Meaning.{cond, HasCond};
ghost use Rattle.tql_plan_access.specs.Alternatives.{values_of};
ghost use Rattle.tql_plan_laws.specs.Equalities.{agree};
ghost use Rattle.tql_value.specs.Views.{datum_of_view};
ghost use Rattle.tql_plan_screen.specs.Coded.{among_test, chosen_column as column_chosen};
ghost use Rattle.tql_plan_screen.specs.Coded.{compared_column as column_compared};
ghost use Rattle.tql_plan_screen.specs.Screens.{is_admitted, is_met};

use crate::compared::comparison_of;
use tql_expr::node::Node;
use tql_expr::terms::{CondId, Terms};
use tql_plan_access::alternatives::Alternatives;
use tql_row::row::Row;
use tql_value::comparison::order;
use tql_value::value::View;

/// Whether a set has a value, found by halving. NULL is in no set.
fn has_value(set: &Alternatives<'_>, value: View<'_>) -> bool
    ensures { result ≡ list_any (agree (datum_of_view value.entry)) (values_of set.now) }
{
    set.values
        .binary_search_by(|other| order(*other, value))
        .is_ok()
}

/// Whether a row's value in the column of a set is in the set.
fn is_among(set: &Alternatives<'_>, row: &Row) -> bool
    ensures { result ≡ is_met (among_test set.now) row.now }
{
    has_value(set, row.column(set.column))
}

/// Whether a row's values are in all sets.
pub(crate) fn are_among(sets: &[Alternatives<'_>], row: &Row) -> bool
    ensures { result ≡ is_admitted (map among_test sets.now) row.now }
{
    for set in sets {
        if !is_among(set, row) {
            return false;
        }
    }
    true
}

/// Returns the column that a condition compares with a literal.
fn compared_column(terms: &Terms, c: CondId) -> Option<usize>
    requires { HasCond terms.now c }
    ensures { result ≡ column_compared (cond terms.now c) }
{
    match comparison_of(terms, c) {
        Some(compared) => Some(compared.column),
        None => None,
    }
}

/// Returns the only column of which a condition can be a choice: that of an equality. One side of an OR that is a
/// choice is an equality, so a long list is not followed.
pub(crate) fn chosen_column(terms: &Terms, c: CondId) -> Option<usize>
    requires { HasCond terms.now c }
    ensures { result ≡ column_chosen (cond terms.now c) }
{
    match terms.node(c.place) {
        Node::Or(first, second) => match compared_column(terms, CondId { place: first }) {
            Some(column) => Some(column),
            None => compared_column(terms, CondId { place: second }),
        },
        _ => None,
    }
}
