//! Three-valued logic.
ghost use Rattle.std.specs.Prelude.{◌≡◌};
ghost use Rattle.tql_spec.specs.Truth.{and as both, or as either, negated, is_true as true_of, is_false as false_of};
ghost use Rattle.tql_value.specs.Views.{plain_truth};

/// The truth of a condition, in the three-valued logic of ISO/IEC 9075-2:2011, boolean value expression.
#[derive(Clone, Copy, PartialEq, Eq, Debug)]
pub enum Truth {
    /// The condition does not hold.
    False,
    /// It is not known, because of a NULL.
    Unknown,
    /// The condition holds.
    True,
}

impl Truth {
    /// Returns the lesser of the two, in the order FALSE, UNKNOWN, TRUE.
    pub fn and(self, other: Truth) -> Truth
        ensures { plain_truth result ≡ both (plain_truth self) (plain_truth other) }
    {
        match (self, other) {
            (Truth::False, _) | (_, Truth::False) => Truth::False,
            (Truth::True, Truth::True) => Truth::True,
            _ => Truth::Unknown,
        }
    }

    /// Returns the greater of the two, in the order FALSE, UNKNOWN, TRUE.
    pub fn or(self, other: Truth) -> Truth
        ensures { plain_truth result ≡ either (plain_truth self) (plain_truth other) }
    {
        match (self, other) {
            (Truth::True, _) | (_, Truth::True) => Truth::True,
            (Truth::False, Truth::False) => Truth::False,
            _ => Truth::Unknown,
        }
    }

    /// Returns TRUE for FALSE and FALSE for TRUE; UNKNOWN stays.
    pub fn not(self) -> Truth
        ensures { plain_truth result ≡ negated (plain_truth self) }
    {
        match self {
            Truth::False => Truth::True,
            Truth::Unknown => Truth::Unknown,
            Truth::True => Truth::False,
        }
    }

    /// Whether it is TRUE. WHERE, ON and HAVING keep rows by this test.
    pub fn is_true(self) -> bool
        ensures { result ≡ true_of (plain_truth self) }
    {
        matches!(self, Truth::True)
    }

    /// Whether it is FALSE. A CHECK refuses rows by this test.
    pub fn is_false(self) -> bool
        ensures { result ≡ false_of (plain_truth self) }
    {
        matches!(self, Truth::False)
    }
}

impl From<bool> for Truth {
    ghost use Rattle.std.specs.Prelude.{◌≡◌};
    ghost use Rattle.tql_spec.specs.Truth.{truth_of};
    ghost use Rattle.tql_value.specs.Views.{plain_truth};

    ghost from_gives = { λ b t. plain_truth t ≡ truth_of b };

    fn from(holds: bool) -> Self {
        if holds { Truth::True } else { Truth::False }
    }
}
