//! The places of the points of all groups on one line.
ghost use Rattle.std.specs.Prelude.{◌≡◌, ◌+ℤ◌, pos, int_lt};
ghost use Rattle.std.specs.Int.{int_max};
ghost use Rattle.tql_index.specs.Line.{place_of, first_place};

/// A point of a group. Places are ordered by group, then by point.
#[derive(Clone, Copy)]
pub struct Place {
    /// The group.
    pub group: i64,
    /// The point in the group.
    pub point: i64,
}

impl Place {
    /// Returns the place after a point of group 0.
    pub fn after(point: i64) -> Place
        ensures { place_of result ≡ point +ℤ pos 1 }
    {
        if point == i64::MAX {
            Place {
                group: 1,
                point: i64::MIN,
            }
        } else {
            Place {
                group: 0,
                point: point + 1,
            }
        }
    }

    /// Returns the first place of the line.
    pub fn first() -> Place
        ensures { place_of result ≡ first_place }
    {
        Place {
            group: i64::MIN,
            point: i64::MIN,
        }
    }

    /// Whether this place is before another.
    pub fn is_before(self, other: Place) -> bool
        ensures { result ≡ int_lt (place_of self) (place_of other) }
    {
        if self.group == other.group {
            self.point < other.point
        } else {
            self.group < other.group
        }
    }

    /// Returns the later of two places.
    pub fn later(self, other: Place) -> Place
        ensures { place_of result ≡ int_max (place_of self) (place_of other) }
    {
        if self.is_before(other) { other } else { self }
    }
}
