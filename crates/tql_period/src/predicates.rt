//! The predicates on periods, by three-valued comparisons of their ends.
ghost use Rattle.std.specs.Prelude.{◌≡◌};
ghost use Rattle.tql_spec.specs.Datum.{Day, Moment};
ghost use Rattle.tql_spec.specs.Period.{predicate as predicate_of, contains_point as point_formula};
ghost use Rattle.tql_value.specs.Views.{datum_of_view, plain_truth};
ghost use Rattle.tql_period.specs.Relations.{plain_relation, data_of, SaysOfPoints, SaysOfPoint};

use tql_value::comparison::{Comparison, compare};
use tql_value::truth::Truth;
use tql_value::value::View;

/// The predicates between two periods, ISO/IEC 9075-2:2011, 8.20.
#[derive(Clone, Copy, PartialEq, Eq, Debug)]
pub enum Relation {
    /// Some point is in both.
    Overlaps,
    /// Each point of the second is in the first.
    Contains,
    /// They have the same points.
    Equals,
    /// Each point of the first is before each of the second.
    Precedes,
    /// Each point of the first is after each of the second.
    Succeeds,
    /// The first precedes the second, and no point lies between them.
    ImmediatelyPrecedes,
    /// The first succeeds the second, and no point lies between them.
    ImmediatelySucceeds,
}

/// Returns the truth of a predicate on two periods, each given by its start and its end. The start need not be before
/// the end, and both may be NULL: they are compared in three-valued logic (this project's choice).
pub fn predicate(which: Relation, x: (View<'_>, View<'_>), y: (View<'_>, View<'_>)) -> Truth
    ensures formulas { plain_truth result
        ≡ predicate_of (plain_relation which) (data_of x.entry) (data_of y.entry) }

    // What it says about periods that start before they end and have no NULL.
    ensures days { SaysOfPoints Day (plain_relation which)
        (data_of x.entry) (data_of y.entry) (plain_truth result) }
    ensures moments { SaysOfPoints Moment (plain_relation which)
        (data_of x.entry) (data_of y.entry) (plain_truth result) }
{
    tql_spec::predicates_on_points();
    by_ends(which, x, y)
}

// Returns the truth of the predicate, by comparisons of the ends.
fn by_ends(which: Relation, x: (View<'_>, View<'_>), y: (View<'_>, View<'_>)) -> Truth
    ensures { plain_truth result
        ≡ predicate_of (plain_relation which) (data_of x.entry) (data_of y.entry) }
{
    let (x_start, x_end) = x;
    let (y_start, y_end) = y;
    match which {
        Relation::Overlaps => compare(Comparison::Less, x_start, y_end).and(compare(
            Comparison::Less,
            y_start,
            x_end,
        )),
        Relation::Contains => {
            compare(Comparison::LessOrEqual, x_start, y_start).and(compare(
                Comparison::LessOrEqual,
                y_end,
                x_end,
            ))
        }
        Relation::Equals => compare(Comparison::Equal, x_start, y_start).and(compare(
            Comparison::Equal,
            x_end,
            y_end,
        )),
        Relation::Precedes => compare(Comparison::LessOrEqual, x_end, y_start),
        Relation::Succeeds => compare(Comparison::GreaterOrEqual, x_start, y_end),
        Relation::ImmediatelyPrecedes => compare(Comparison::Equal, x_end, y_start),
        Relation::ImmediatelySucceeds => compare(Comparison::Equal, x_start, y_end),
    }
}

/// Returns the truth of CONTAINS with a point, for a period given by its start and its end. As in `predicate`, the
/// start need not be before the end, and the ends and the point may be NULL (this project's choice).
pub fn contains_point(x: (View<'_>, View<'_>), point: View<'_>) -> Truth
    ensures formula { plain_truth result ≡ point_formula (data_of x.entry) (datum_of_view point.entry) }

    // What it says about a period and a point without NULL.
    ensures days { SaysOfPoint Day (data_of x.entry) (datum_of_view point.entry) (plain_truth result) }
    ensures moments { SaysOfPoint Moment (data_of x.entry) (datum_of_view point.entry) (plain_truth result) }
{
    let (start, end) = x;
    compare(Comparison::LessOrEqual, start, point).and(compare(Comparison::Less, point, end))
}
