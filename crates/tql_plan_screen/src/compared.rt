//! Comparisons of a column with a literal.
ghost use Rattle.std.specs.Prelude.{◌≡◌, ◌<◌, map, option_map};
ghost use Rattle.std.specs.Ordering.{int_cmp};
ghost use Rattle.tql_spec.specs.Datum.{accepts};
ghost use Rattle.tql_expr.specs.Trees.{expr_of, term_in};
ghost use Rattle.tql_expr.specs.Meaning.{cond, size, trees, HasCond};
ghost use Rattle.tql_plan_laws.specs.Constants.{literal_of};
ghost use Rattle.tql_plan_laws.specs.Equalities.{column_of};
ghost use Rattle.tql_value.specs.Views.{datum_of_view, plain_comparison};
ghost use Rattle.tql_plan_screen.specs.Coded.{compared_test};
ghost use Rattle.tql_plan_screen.specs.Screens.{compared_with as compared_by, comparison_in, is_admitted, is_met};
ghost use Rattle.tql_plan_screen.specs.Screens.{turned as turned_sign};

use tql_expr::node::Node;
use tql_expr::terms::{CondId, Terms};
use tql_row::row::Row;
use tql_value::comparison::{Comparison, compare};
use tql_value::value::View;

/// The comparison of a column with a literal.
#[derive(Clone, Copy)]
pub(crate) struct Compared<'a> {
    pub(crate) column: usize,
    pub(crate) sign: Comparison,
    pub(crate) value: View<'a>,
}

/// Whether a number satisfies a comparison with a literal.
fn holds(sign: Comparison, number: i64, literal: i64) -> bool
    ensures { result ≡ accepts (plain_comparison sign) (int_cmp number literal) }
{
    match sign {
        Comparison::Equal => number == literal,
        Comparison::NotEqual => number != literal,
        Comparison::Less => number < literal,
        Comparison::LessOrEqual => number <= literal,
        Comparison::Greater => number > literal,
        Comparison::GreaterOrEqual => number >= literal,
    }
}

/// Whether the stored cells of a row meet a comparison. Numbers, days and moments are compared in place.
#[tactic(auto, using(crate::proofs::Turned::truth_is))]
fn is_met_by(compared: &Compared<'_>, row: &Row) -> bool
    ensures { result ≡ is_met (compared_test compared.now) row.now }
{
    match (row.column(compared.column), compared.value) {
        (View::Int(number), View::Int(literal)) => holds(compared.sign, number, literal),
        (View::Day(day), View::Day(literal)) => holds(compared.sign, day, literal),
        (View::Moment(moment), View::Moment(literal)) => holds(compared.sign, moment, literal),
        (cell, literal) => compare(compared.sign, cell, literal).is_true(),
    }
}

/// Whether the stored cells of a row meet all comparisons.
pub(crate) fn are_met(comparisons: &[Compared<'_>], row: &Row) -> bool
    ensures { result ≡ is_admitted (map compared_test comparisons.now) row.now }
{
    for compared in comparisons {
        if !is_met_by(compared, row) {
            return false;
        }
    }
    true
}

/// Returns the column that an expression is.
fn column_at(terms: &Terms, at: usize) -> Option<usize>
    requires { at < size terms.now }
    ensures { result ≡ column_of (expr_of (term_in (trees terms.now) at)) }
{
    match terms.node(at) {
        Node::Column(number) => Some(number),
        _ => None,
    }
}

/// Returns the value of an expression that is a literal. A condition counts as NULL.
fn literal_at<'a>(terms: &'a Terms, at: usize) -> Option<View<'a>>
    requires { at < size terms.now }
    ensures { option_map datum_of_view result ≡ literal_of (expr_of (term_in (trees terms.now) at)) }
{
    match terms.node(at) {
        Node::Literal(place) => Some(terms.literal(place)),
        Node::Column(_)
        | Node::Negate(_)
        | Node::Binary(..)
        | Node::CountRows
        | Node::Aggregate(..) => None,
        _ => Some(View::Null),
    }
}

/// Returns the comparison of two expressions, if the first is a column and the second is a literal.
fn compared_with<'a>(terms: &'a Terms, sign: Comparison, a: usize, b: usize) -> Option<Compared<'a>>
    requires first { a < size terms.now }
    requires second { b < size terms.now }
    ensures { option_map compared_test result ≡ compared_by (plain_comparison sign)
        (expr_of (term_in (trees terms.now) a)) (expr_of (term_in (trees terms.now) b)) }
{
    match (column_at(terms, a), literal_at(terms, b)) {
        (Some(column), Some(value)) => Some(Compared {
            column,
            sign,
            value,
        }),
        _ => None,
    }
}

/// Returns a sign with its sides exchanged.
fn turned(sign: Comparison) -> Comparison
    ensures { plain_comparison result ≡ turned_sign (plain_comparison sign) }
{
    match sign {
        Comparison::Equal => Comparison::Equal,
        Comparison::NotEqual => Comparison::NotEqual,
        Comparison::Less => Comparison::Greater,
        Comparison::LessOrEqual => Comparison::GreaterOrEqual,
        Comparison::Greater => Comparison::Less,
        Comparison::GreaterOrEqual => Comparison::LessOrEqual,
    }
}

/// Returns the comparison of a condition that compares a column with a literal, either way round.
pub(crate) fn comparison_of<'a>(terms: &'a Terms, c: CondId) -> Option<Compared<'a>>
    requires { HasCond terms.now c }
    ensures { option_map compared_test result ≡ comparison_in (cond terms.now c) }
{
    match terms.node(c.place) {
        Node::Compare(sign, a, b) => match compared_with(terms, sign, a, b) {
            Some(compared) => Some(compared),
            None => compared_with(terms, turned(sign), b, a),
        },
        _ => None,
    }
}
