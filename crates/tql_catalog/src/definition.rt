//! The parts of the definition of a table.
ghost use Rattle.std.specs.Prelude.{◌≡◌};
ghost use Rattle.tql_spec.specs.Creation as spec;
ghost use Rattle.tql_value.specs.Views.{plain_kind};

use tql_memory::Memory;
use tql_value::value::Kind;

/// A column. Its limit is the n of VARCHAR(n), in characters.
pub struct Column {
    pub name: String<Memory>,
    pub kind: Kind,
    pub limit: Option<u64>,
    /// Whether the column refuses NULL.
    pub is_required: bool,
}

impl Column {
    ghost use Rattle.std.specs.Prelude.{string_bytes};
    ghost use Rattle.tql_spec.specs.Words.{same_text};

    /// Whether this is the name of the column.
    pub fn is_named(&self, name: &str) -> bool
        ensures { result ≡ same_text name.now (string_bytes self.now.name) }
    {
        name == self.name.as_str()
    }
}

/// The generated columns of a system-versioned table, by their numbers from 0.
#[derive(Clone, Copy)]
pub struct System {
    /// GENERATED ALWAYS AS ROW START.
    pub start: usize,
    /// GENERATED ALWAYS AS ROW END.
    pub end: usize,
}

/// The application period of a table: its name, and its columns by number from 0. Both hold days, or both hold moments.
pub struct Application {
    pub name: String<Memory>,
    /// The column of the first point of a row's period.
    pub start: usize,
    /// The column of the point that follows a row's period.
    pub end: usize,
}

impl Drop for Application {
    fn drop(self) {
        let Application {
            name,
            start: _,
            end: _,
        } = self;
        drop(name);
    }
}

impl Drop for Column {
    fn drop(self) {
        let Column {
            name,
            kind: _,
            limit: _,
            is_required: _,
        } = self;
        drop(name);
    }
}

/// Whether both kinds are days, or both are moments.
pub fn are_ends(start: Kind, end: Kind) -> bool
    ensures { result ≡ spec.are_ends (plain_kind start) (plain_kind end) }
{
    matches!(
        (start, end),
        (Kind::Day, Kind::Day) | (Kind::Moment, Kind::Moment)
    )
}
