//! The names of the application periods of a new table. A statement can declare many periods, and name one in each of
//! many keys and references, so a period is found by its name without a walk over the others.
ghost use Rattle.std.specs.Prelude.{◌≡◌, [], IfOk, OnOk, map};
ghost use Rattle.std.specs.HashMap.{get_by_text};
ghost use Rattle.tql_bind_draft.specs.Drafts.{application_part, names_of_periods};
ghost use Rattle.tql_bind_draft.specs.PeriodNames.{AreNames, IsAdded};

use crate::draft::NewApplication;
use indexmap::IndexMap;
use std::alloc::AllocError;
use std::hash::{BuildHasherDefault, FoldHasher};
use tql_memory::Memory;

/// Names of periods, each with the position of the first period that has it.
type Places = IndexMap<String<Memory>, usize, BuildHasherDefault<FoldHasher>, Memory>;

/// The names of the application periods of a new table.
pub struct PeriodNames {
    first: Places,
    /// The position of the first period whose name a later period has too.
    repeated: Option<usize>,
}

impl Drop for PeriodNames {
    fn drop(self) {
        let PeriodNames { first, repeated: _ } = self;
        drop(first);
    }
}

/// Returns the lesser of two positions; the first may be missing.
fn lesser(least: Option<usize>, place: usize) -> usize {
    match least {
        Some(least) if least < place => least,
        _ => place,
    }
}

impl PeriodNames {
    /// Returns the names of no periods.
    pub fn none(memory: Memory) -> PeriodNames
        ensures { AreNames result [] }
    {
        PeriodNames {
            first: IndexMap::new(memory),
            repeated: None,
        }
    }

    /// Returns the position of the first period of this name.
    pub fn place_of(&self, name: &str) -> Option<usize>
        ensures { result ≡ get_by_text self.now.first name.now }
    {
        match self.first.get(name) {
            Some(place) => Some(*place),
            None => None,
        }
    }

    /// Returns the position of the first period whose name a later period has too.
    pub fn repeated(&self) -> Option<usize>
        ensures { result ≡ self.now.repeated }
    {
        self.repeated
    }

    /// Adds the name of the period at this position. The only error is a refused allocation.
    fn add(&mut self, place: usize, name: &str) -> Result<(), AllocError>
        ensures { OnOk result (IsAdded self.old self.new place name.now) }
    {
        match self.place_of(name) {
            Some(first) => self.repeated = Some(lesser(self.repeated, first)),
            None => {
                let name = String::from_str(*self.first.allocator(), name)?;
                self.first.insert(name, place)?;
            }
        }
        Ok(())
    }
}

/// Returns the names of the application periods. The only error is a refused allocation.
pub fn period_names(memory: Memory, periods: &[NewApplication]) -> Result<PeriodNames, AllocError>
    ensures { IfOk result
        (λ names. AreNames names (names_of_periods (map application_part periods.now))) }
{
    let mut names = PeriodNames::none(memory);
    for (place, period) in periods.iter().enumerate() {
        names.add(place, &period.name.text)?;
    }
    Ok(names)
}
