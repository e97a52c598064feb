//! Coverage: whether parts, sorted by start, include each point of a whole.
ghost use Rattle.std.specs.Prelude.{◌↔◌, IsTrue, map};
ghost use Rattle.tql_spec.specs.Period.{Covers};
ghost use Rattle.tql_period.specs.Points.{points_of, StartsRise};

use crate::period::Period;

/// Whether each period starts where the one before it starts, or later.
pub fn starts_rise(parts: &[Period]) -> bool
    ensures { IsTrue result ↔ StartsRise parts.now }
{
    parts.is_sorted_by(|part, next| part.start <= next.start)
}

/// Whether each point of the whole is in some part. The parts are sorted by start; they may overlap and repeat.
pub fn covers(parts: &[Period], whole: Period) -> bool
    requires { StartsRise parts.now }
    ensures { IsTrue result ↔ Covers (map points_of parts.now) (points_of whole) }
{
    let mut reach = whole.start;
    for part in parts {
        if part.start > reach {
            break;
        }
        reach = reach.max(part.end);
    }
    whole.end <= reach
}
