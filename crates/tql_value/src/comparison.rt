//! The order of values, and the comparisons based on it.
ghost use Rattle.std.specs.Prelude.{◌≡◌};
ghost use Rattle.tql_spec.specs.Datum.{order as order_of, rank as rank_of, compare as compared, accepts as accepted};
ghost use Rattle.tql_value.specs.Views.{datum_of_view, plain_truth, plain_comparison};

use crate::truth::Truth;
use crate::value::View;
use std::cmp::Ordering;

/// The comparison operators, ISO/IEC 9075-2:2011, 8.2.
#[derive(Clone, Copy, PartialEq, Eq, Debug)]
pub enum Comparison {
    /// `=`
    Equal,
    /// `<>`
    NotEqual,
    /// `<`
    Less,
    /// `<=`
    LessOrEqual,
    /// `>`
    Greater,
    /// `>=`
    GreaterOrEqual,
}

impl Comparison {
    /// Whether two values in this order satisfy the operator.
    pub fn accepts(self, order: Ordering) -> bool
        ensures { result ≡ accepted (plain_comparison self) order }
    {
        match self {
            Comparison::Equal => order.is_eq(),
            Comparison::NotEqual => order.is_ne(),
            Comparison::Less => order.is_lt(),
            Comparison::LessOrEqual => order.is_le(),
            Comparison::Greater => order.is_gt(),
            Comparison::GreaterOrEqual => order.is_ge(),
        }
    }
}

/// Returns the rank of a value's kind, NULL first.
fn rank(view: View<'_>) -> u8
    ensures { result ≡ rank_of (datum_of_view view.entry) }
{
    match view {
        View::Null => 0,
        View::Int(_) => 1,
        View::Text(_) => 2,
        View::Day(_) => 3,
        View::Moment(_) => 4,
    }
}

/// Returns the order of two values, NULL first. Texts are ordered by their UTF-8 bytes, without padding (this project's
/// choice). Values of two kinds, which never occur in one column, are ordered by their kinds.
pub fn order(a: View<'_>, b: View<'_>) -> Ordering
    ensures { result ≡ order_of (datum_of_view a.entry) (datum_of_view b.entry) }
{
    match (a, b) {
        (View::Int(x), View::Int(y)) => x.cmp(&y),
        (View::Text(x), View::Text(y)) => x.cmp(y),
        (View::Day(x), View::Day(y)) => x.cmp(&y),
        (View::Moment(x), View::Moment(y)) => x.cmp(&y),
        _ => rank(a).cmp(&rank(b)),
    }
}

/// Returns the truth of a comparison of two values; with NULL it is UNKNOWN. Values of two kinds, which no statement
/// compares, compare as they are ordered.
pub fn compare(sign: Comparison, a: View<'_>, b: View<'_>) -> Truth
    ensures { plain_truth result
        ≡ compared (plain_comparison sign) (datum_of_view a.entry) (datum_of_view b.entry) }
{
    if a.is_null() || b.is_null() {
        Truth::Unknown
    } else {
        Truth::from(sign.accepts(order(a, b)))
    }
}
