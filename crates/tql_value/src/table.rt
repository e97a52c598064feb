//! The number of a table.
ghost use Rattle.std.specs.Prelude.{◌≡◌, ◌↔◌, ◌<◌, ℕ, IsSome, IfSome};

use std::marker::Model;

/// The number of a table, below 1,000, which is the greatest number of tables. The model is the number.
#[derive(Clone, Copy, PartialEq, Eq, PartialOrd, Ord, Hash, Debug)]
pub struct TableId {
    number: u16,
}

impl Model for TableId {
    ghost use Rattle.std.specs.Prelude.{ℕ, ◌<◌};

    ghost Value = { ℕ };

    ghost view = { λ t. t.number };

    ghost invariant = { λ t. t.number < 1000 };

    ghost inverse = { λ n. record { number = n } };
}

impl TableId {
    /// Creates the number of a table; `None` from 1,000 on.
    pub fn new(number: u16) -> Option<TableId>
        ensures within { IsSome result ↔ (number < 1000) }
        ensures value { IfSome result (λ t. t ≡ number) }
    {
        if number < 1000 {
            Some(TableId { number })
        } else {
            None
        }
    }

    /// Returns the number, below 1,000.
    pub fn number(self) -> u16
        ensures value { result ≡ self }
        ensures within { self < 1000 }
    {
        self.number
    }
}
