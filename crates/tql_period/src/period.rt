//! A period: the points from its start, inclusive, to its end, exclusive.
ghost use Rattle.std.specs.Prelude.{◌<ℤ◌};

/// A period: the points from its start, inclusive, to its end, exclusive. It always starts before it ends, so it
/// contains a point. Points are days or microseconds since 1970-01-01. On periods see Kulkarni and Michels, Temporal
/// features in SQL:2011, SIGMOD Record 41(3), 2012.
#[derive(Clone, Copy, PartialEq, Eq, Debug)]
pub struct Period {
    /// The first point.
    pub start: i64,
    /// The point after the last one.
    pub end: i64,
    pub ghost rising: { start <ℤ end },
}

impl Period {
    ghost use Rattle.std.specs.Prelude.{◌≡◌, ◌↔◌, IsSome, IfSome};
    ghost use Rattle.tql_spec.specs.Period.{holds as held, share_a_point};
    ghost use Rattle.tql_period.specs.Points.{points_of};

    /// Returns the period with these ends, or `None` if the start is not before the end.
    pub fn new(start: i64, end: i64) -> Option<Self>
        ensures rising { IsSome result ↔ (start <ℤ end) }
        ensures ends { IfSome result (λ x. points_of x ≡ record { start = start; end = end }) }
    {
        if start < end {
            Some(Period { start, end })
        } else {
            None
        }
    }

    /// Whether the period contains the point.
    pub fn holds(self, point: i64) -> bool
        ensures { result ≡ held (points_of self) point }
    {
        self.start <= point && point < self.end
    }

    /// Whether the two periods share a point.
    pub fn shares_a_point(self, other: Period) -> bool
        ensures { result ≡ share_a_point (points_of self) (points_of other) }
    {
        self.start < other.end && other.start < self.end
    }
}
