//! The range of numbers, days or moments to which comparisons with literals limit a column.
ghost use Rattle.std.specs.Prelude.{◌≡◌, ◌<◌, All, map, option_map};
ghost use Rattle.tql_spec.specs.Expression.{Compare};
ghost use Rattle.tql_value.specs.Views.{datum_of_view, plain_comparison};
ghost use Rattle.tql_expr.specs.Meaning.{cond, size, trees, HasCond};
ghost use Rattle.tql_expr.specs.Trees.{expr_of, term_in};
ghost use Rattle.tql_plan_laws.specs.Constants.{is_column, literal_of};
ghost use Rattle.tql_plan_access.specs.Limits.{plain_limit};
ghost use Rattle.tql_plan_access.specs.Ranges.{admitted as admitted_by, compared as compared_in, limit_in};
ghost use Rattle.tql_plan_access.specs.Ranges.{limit_of as limit_said, limiting as limiting_from};
ghost use Rattle.tql_plan_access.specs.Ranges.{limits as limits_from};
ghost use Rattle.tql_plan_access.specs.Ranges.{numbers_of, range_between as between_limits, range_in, RangesAreFound};
ghost use Rattle.tql_plan_access.specs.Ranges.{RangesAreMet, turned as turned_of, with_value};

use tql_expr::node::Node;
use tql_expr::terms::{CondId, Terms};
use tql_value::comparison::Comparison;
use tql_value::value::View;

/// A comparison of a column with a literal, with the column on the left.
#[derive(Clone, Copy)]
pub(crate) struct Limit<'a> {
    sign: Comparison,
    value: View<'a>,
}

/// States that a row that meets conjuncts has a value of the range to which they limit a column, and that ranges are
/// found.
pub fn ranges_are_met()
    ensures met { RangesAreMet }
    ensures found { RangesAreFound }
{}

/// Returns a comparison with its sides exchanged.
fn turned(sign: Comparison) -> Comparison
    ensures { plain_comparison result ≡ turned_of (plain_comparison sign) }
{
    match sign {
        Comparison::Equal => Comparison::Equal,
        Comparison::NotEqual => Comparison::NotEqual,
        Comparison::Less => Comparison::Greater,
        Comparison::LessOrEqual => Comparison::GreaterOrEqual,
        Comparison::Greater => Comparison::Less,
        Comparison::GreaterOrEqual => Comparison::LessOrEqual,
    }
}

/// Returns the value of an expression that is a literal. A condition counts as NULL.
fn literal_at(terms: &Terms, at: usize) -> Option<View<'_>>
    requires { at < size terms.now }
    ensures { option_map datum_of_view result ≡ literal_of (expr_of (term_in (trees terms.now) at)) }
{
    match terms.node(at) {
        Node::Literal(place) => Some(terms.literal(place)),
        Node::Column(_)
        | Node::Negate(_)
        | Node::Binary(..)
        | Node::CountRows
        | Node::Aggregate(..) => None,
        _ => Some(View::Null),
    }
}

/// Whether an expression is this column.
fn is_column_at(terms: &Terms, at: usize, column: usize) -> bool
    requires { at < size terms.now }
    ensures { result ≡ is_column column (expr_of (term_in (trees terms.now) at)) }
{
    match terms.node(at) {
        Node::Column(number) => column == number,
        _ => false,
    }
}

/// Returns the comparison with a literal, if there is one.
fn with_literal<'a>(sign: Comparison, value: Option<View<'a>>) -> Option<Limit<'a>>
    ensures { option_map plain_limit result
        ≡ with_value (plain_comparison sign) (option_map datum_of_view value.entry) }
{
    match value {
        Some(value) => Some(Limit { sign, value }),
        None => None,
    }
}

/// Returns the comparison of this column with a literal, if one of two expressions is the column and the other one is a
/// literal.
fn compared_beside<'a>(
    terms: &'a Terms,
    sign: Comparison,
    a: usize,
    b: usize,
    column: usize,
) -> Option<Limit<'a>>
    requires first { a < size terms.now }
    requires second { b < size terms.now }
    ensures { option_map plain_limit result ≡ compared_in column
        (Compare (plain_comparison sign) (expr_of (term_in (trees terms.now) a))
        (expr_of (term_in (trees terms.now) b))) }
{
    if is_column_at(terms, a, column) {
        with_literal(sign, literal_at(terms, b))
    } else if is_column_at(terms, b, column) {
        with_literal(turned(sign), literal_at(terms, a))
    } else {
        None
    }
}

/// Returns the comparison of this column with a literal that a condition is.
fn compared<'a>(terms: &'a Terms, c: CondId, column: usize) -> Option<Limit<'a>>
    requires { HasCond terms.now c }
    ensures { option_map plain_limit result ≡ compared_in column (cond terms.now c) }
{
    match terms.node(c.place) {
        Node::Compare(sign, a, b) => compared_beside(terms, sign, a, b, column),
        _ => None,
    }
}

/// Whether a comparison limits its left side from below, or else from above.
fn is_limit(sign: Comparison, is_low: bool) -> bool
    ensures { result ≡ limits_from is_low (plain_comparison sign) }
{
    match sign {
        Comparison::Greater | Comparison::GreaterOrEqual => is_low,
        Comparison::Less | Comparison::LessOrEqual => !is_low,
        Comparison::Equal | Comparison::NotEqual => false,
    }
}

/// Returns the comparison of this column that a condition is, if it limits the column from this side.
fn limiting<'a>(terms: &'a Terms, c: CondId, column: usize, is_low: bool) -> Option<Limit<'a>>
    requires { HasCond terms.now c }
    ensures { option_map plain_limit result ≡ limiting_from is_low (compared_in column (cond terms.now c)) }
{
    match compared(terms, c, column) {
        Some(limit) => {
            if is_limit(limit.sign, is_low) {
                Some(limit)
            } else {
                None
            }
        }
        None => None,
    }
}

/// Returns the limit of this column that a condition is, or that is the first possible part of an AND.
fn limit_of<'a>(terms: &'a Terms, c: CondId, column: usize, is_low: bool) -> Option<Limit<'a>>
    requires { HasCond terms.now c }
    ensures { option_map plain_limit result ≡ limit_said is_low column (cond terms.now c) }
{
    match terms.node(c.place) {
        Node::And(first, second) => {
            match limiting(terms, CondId { place: first }, column, is_low) {
                Some(limit) => Some(limit),
                None => limiting(terms, CondId { place: second }, column, is_low),
            }
        }
        _ => limiting(terms, c, column, is_low),
    }
}

/// Returns the first limit of this column among the conjuncts.
fn first_limit<'a>(
    terms: &'a Terms,
    conjuncts: &[CondId],
    column: usize,
    is_low: bool,
) -> Option<Limit<'a>>
    requires { All (HasCond terms.now) conjuncts.now }
    ensures { option_map plain_limit result ≡ limit_in is_low column (map (cond terms.now) conjuncts.now) }
{
    for conjunct in conjuncts {
        if let Some(limit) = limit_of(terms, *conjunct, column, is_low) {
            return Some(limit);
        }
    }
    None
}

/// Returns two numbers, two days or two moments as numbers; `None` for other values, or if they differ in kind.
fn numbers(low: View<'_>, high: View<'_>) -> Option<(i64, i64)>
    ensures { result ≡ numbers_of (datum_of_view low.entry) (datum_of_view high.entry) }
{
    match (low, high) {
        (View::Int(first), View::Int(last)) => Some((first, last)),
        (View::Day(first), View::Day(last)) => Some((first, last)),
        (View::Moment(first), View::Moment(last)) => Some((first, last)),
        _ => None,
    }
}

/// Returns the first number that a limit admits; `None` if it does not fit into 64 bits.
fn admitted(sign: Comparison, number: i64) -> Option<i64>
    ensures { result ≡ admitted_by (plain_comparison sign) number }
{
    match sign {
        Comparison::Greater => number.checked_add(1),
        Comparison::Less => number.checked_sub(1),
        Comparison::Equal
        | Comparison::NotEqual
        | Comparison::LessOrEqual
        | Comparison::GreaterOrEqual => Some(number),
    }
}

/// Returns the first and the last number between a limit from below and one from above.
fn range_between(low: Limit<'_>, high: Limit<'_>) -> Option<(i64, i64)>
    ensures { result ≡ between_limits (plain_limit low.entry) (plain_limit high.entry) }
{
    let (first, last) = numbers(low.value, high.value)?;
    let first = admitted(low.sign, first)?;
    let last = admitted(high.sign, last)?;
    Some((first, last))
}

/// Returns the first and the last number of the range to which the conjuncts limit a column: whole numbers, days or
/// microseconds since 1970-01-01. Each row that meets the conjuncts has a number, a day or a moment of the range.
/// `None` if they limit it from one side alone. Allocates no memory.
pub(crate) fn range(terms: &Terms, conjuncts: &[CondId], column: usize) -> Option<(i64, i64)>
    requires { All (HasCond terms.now) conjuncts.now }
    ensures { result ≡ range_in column (map (cond terms.now) conjuncts.now) }
{
    let low = first_limit(terms, conjuncts, column, true)?;
    let high = first_limit(terms, conjuncts, column, false)?;
    range_between(low, high)
}
