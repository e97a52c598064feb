//! Periods in groups. Periods of different groups share no point.
ghost use Rattle.std.specs.Prelude.{◌≡◌};
ghost use Rattle.std.specs.Ordering.{int_cmp, ordering_then};
ghost use Rattle.tql_spec.specs.Period.{share_a_point};
ghost use Rattle.tql_period.specs.Points.{points_of};
ghost use Rattle.tql_index.specs.Line.{place_of};
ghost use Rattle.tql_index.specs.Spans.{span_of, in_group, all_of_group, points_between};

use crate::line::Place;
use std::cmp::Ordering;
use tql_period::period::Period;

/// A period in a group.
#[derive(Clone, Copy, PartialEq, Eq, Debug)]
pub struct Span {
    /// The group.
    pub group: i64,
    /// The period in the group.
    pub period: Period,
}

impl Span {
    /// Returns a period in group 0, in which each point has its own number.
    pub fn of(period: Period) -> Span
        ensures { span_of result ≡ points_of period }
    {
        Span { group: 0, period }
    }

    /// Returns a period in a group.
    pub fn within(group: i64, period: Period) -> Span
        ensures { span_of result ≡ in_group group (points_of period) }
    {
        Span { group, period }
    }

    /// Returns all points of a group but `i64::MAX`.
    pub fn all(group: i64) -> Span
        ensures { span_of result ≡ all_of_group group }
    {
        Span {
            group,
            period: Period {
                start: i64::MIN,
                end: i64::MAX,
            },
        }
    }

    /// Whether the span shares a point with the line from one place up to another.
    pub fn shares(self, from: Place, to: Place) -> bool
        ensures { result ≡ share_a_point (span_of self) (points_between from to) }
    {
        if !from.is_before(to) {
            return false;
        }
        self.start().is_before(to) && from.is_before(self.end())
    }

    /// Returns the first point.
    pub fn start(self) -> Place
        ensures { place_of result ≡ (span_of self).start }
    {
        Place {
            group: self.group,
            point: self.period.start,
        }
    }

    /// Returns the point after the last one.
    pub fn end(self) -> Place
        ensures { place_of result ≡ (span_of self).end }
    {
        Place {
            group: self.group,
            point: self.period.end,
        }
    }

    /// Compares two spans: by start, then by end.
    pub(crate) fn compare(self, other: Span) -> Ordering
        ensures { result ≡ ordering_then (int_cmp (span_of self).start (span_of other).start)
            (int_cmp (span_of self).end (span_of other).end) }
    {
        let starts = self.group.cmp(&other.group);
        let starts = starts.then(self.period.start.cmp(&other.period.start));
        starts.then(self.period.end.cmp(&other.period.end))
    }
}
