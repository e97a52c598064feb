//! The constraints on a table's rows: keys, references to other tables, and checks.
ghost use Rattle.std.specs.Prelude.{◌≡◌, All};
ghost use Rattle.tql_spec.specs.Creation.{same_numbers};
ghost use Rattle.tql_expr.specs.Meaning.{HasCond};

use tql_expr::terms::{CondId, Terms};
use tql_memory::Memory;

/// A key: no two rows have the same values in its columns. With WITHOUT OVERLAPS, this applies only to rows whose
/// periods share a point (ISO/IEC 9075-2:2011, 11.7 `<unique constraint definition>`).
pub struct Key {
    /// The name, for messages. It is not part of the model.
    pub name: String<Memory>,
    /// The columns, by number from 0.
    pub columns: Vec<usize, Memory>,
    /// Whether the key has WITHOUT OVERLAPS.
    pub by_period: bool,
}

impl Drop for Key {
    fn drop(self) {
        let Key {
            name,
            columns,
            by_period: _,
        } = self;
        drop(name);
        drop(columns);
    }
}

impl Key {
    ghost use Rattle.std.specs.Prelude.{◌≡◌, ◌&&◌, not, if◌then◌else◌};
    ghost use Rattle.tql_spec.specs.Creation.{same_numbers};
    ghost use Rattle.tql_catalog.specs.Definitions.{key_of};

    /// Whether the key has these columns, in this order, and has WITHOUT OVERLAPS exactly if `by_period` is true.
    pub fn is_of(&self, by_period: bool, columns: &[usize]) -> bool
        ensures { result ≡ (same_numbers (key_of self.now).columns columns.now
            && (if by_period then (key_of self.now).by_period else not (key_of self.now).by_period)) }
    {
        are_same(&self.columns, columns) && self.by_period == by_period
    }
}

/// A reference to a key of another table (ISO/IEC 9075-2:2011, 11.8 `<referential constraint definition>`).
pub struct Reference {
    /// The name, for messages. It is not part of the model.
    pub name: String<Memory>,
    /// The columns, by number from 0.
    pub columns: Vec<usize, Memory>,
    /// Whether the reference has PERIOD.
    pub by_period: bool,
    /// The name of the referenced table.
    pub parent: String<Memory>,
    /// The columns of the referenced table, as its key lists them.
    pub parent_columns: Vec<usize, Memory>,
}

impl Drop for Reference {
    fn drop(self) {
        let Reference {
            name,
            columns,
            by_period: _,
            parent,
            parent_columns,
        } = self;
        drop(name);
        drop(columns);
        drop(parent);
        drop(parent_columns);
    }
}

impl Reference {
    ghost use Rattle.std.specs.Prelude.{◌≡◌, string_bytes};
    ghost use Rattle.tql_spec.specs.Words.{same_text};

    /// Whether the reference is to the table of this name.
    pub fn is_to(&self, name: &str) -> bool
        ensures { result ≡ same_text name.now (string_bytes self.now.parent) }
    {
        name == self.parent.as_str()
    }
}

/// The CHECKs of a table: conditions on its rows, with terms of their own (ISO/IEC 9075-2:2011, 11.9
/// `<check constraint definition>`).
pub struct Checks {
    pub terms: Terms,
    pub conditions: Vec<CondId, Memory>,
    /// The name of each condition, in the same order, for messages. The names are not part of the model.
    pub names: Vec<String<Memory>, Memory>,
    ghost held: { All (HasCond terms) conditions.items },
}

impl Drop for Checks {
    fn drop(self) {
        let Checks {
            terms,
            conditions,
            names,
        } = self;
        drop(terms);
        drop(conditions);
        drop(names);
    }
}

impl Checks {
    ghost use Rattle.std.specs.Prelude.{◌≡◌, []};
    ghost use Rattle.tql_catalog.specs.Definitions.{checks_of};

    /// Creates an empty list of checks. Allocates no memory.
    pub fn none(memory: Memory) -> Checks
        ensures { checks_of result ≡ [] }
    {
        Checks {
            terms: Terms::new(memory),
            conditions: Vec::new(memory),
            names: Vec::new(memory),
        }
    }

    /// Returns these checks with these names instead of their own.
    pub fn named(self, names: Vec<String<Memory>, Memory>) -> Checks
        ensures { checks_of result ≡ checks_of self }
    {
        let Checks {
            terms,
            conditions,
            names: _,
        } = self;
        Checks {
            terms,
            conditions,
            names,
        }
    }
}

/// Whether two lists of numbers are equal.
fn are_same(numbers: &[usize], others: &[usize]) -> bool
    ensures { result ≡ same_numbers numbers.now others.now }
{
    numbers == others
}
