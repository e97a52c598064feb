//! The parts into which FOR PORTION OF cuts a period.
ghost use Rattle.std.specs.Prelude.{◌≡◌, ◌<ℤ◌, ◌≤ℤ◌};
ghost use Rattle.tql_spec.specs.Period.{Holds, before as part_before, inside as part_inside, after as part_after};
ghost use Rattle.tql_spec.specs.Period.{if_any};
ghost use Rattle.tql_period.specs.Points.{points_of, points_of_piece, HoldsExactly};

use crate::period::Period;

/// The parts into which a portion cuts a period. A part without points is `None`.
#[derive(Clone, Copy, PartialEq, Eq, Debug)]
pub struct Pieces {
    /// The points before the portion.
    pub before: Option<Period>,
    /// The points in the portion.
    pub inside: Option<Period>,
    /// The points from the end of the portion on.
    pub after: Option<Period>,
}

/// Cuts a period into its points before the portion, those in it, and those from its end on. FOR PORTION OF does this
/// to a row's period, ISO/IEC 9075-2:2011, 14.9 and 14.14.
pub fn split(period: Period, portion: Period) -> Pieces
    ensures before { HoldsExactly result.before
        (λ p. Holds (points_of period) p × (p <ℤ portion.start)) }
    ensures inside { HoldsExactly result.inside
        (λ p. Holds (points_of period) p × Holds (points_of portion) p) }
    ensures after { HoldsExactly result.after
        (λ p. Holds (points_of period) p × (portion.end ≤ℤ p)) }

    // The same, by the ends of the parts.
    ensures before_ends { points_of_piece result.before
        ≡ if_any (part_before portion.start (points_of period)) }
    ensures inside_ends { points_of_piece result.inside
        ≡ if_any (part_inside (points_of portion) (points_of period)) }
    ensures after_ends { points_of_piece result.after
        ≡ if_any (part_after portion.end (points_of period)) }
{
    Pieces {
        before: Period::new(period.start, period.end.min(portion.start)),
        inside: Period::new(period.start.max(portion.start), period.end.min(portion.end)),
        after: Period::new(period.start.max(portion.end), period.end),
    }
}
