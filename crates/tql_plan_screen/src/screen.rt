//! Screens: the tests of stored columns by which rows are admitted.
ghost use Rattle.std.specs.Prelude.{◌≡◌, ◌∷◌, ◌++◌, ◌==◌, [], false, length, map, OnOk, List};
ghost use Rattle.tql_plan_screen.specs.Coded.{Admits, among_test, compared_test};
ghost use Rattle.tql_plan_screen.specs.Screens.{is_admitted, no_screen, ScreenIsEnough, WholeScreenDecides};

use crate::compared::{Compared, are_met};
use crate::sets::are_among;
use std::alloc::AllocError;
use std::marker::Model;
use tql_memory::Memory;
use tql_plan_access::alternatives::Alternatives;
use tql_plan_access::safe::safe_part_decides;
use tql_plan_laws::safe_conjuncts_filter;
use tql_row::row::Row;

/// Tests of stored columns against literals. Comparisons and sets of values are kept apart, so that a comparison is
/// asked without a branch on its kind.
pub struct Screen<'a> {
    comparisons: Vec<Compared<'a>, Memory>,
    sets: Vec<Alternatives<'a>, Memory>,
    is_whole: bool,
}

impl<'a> Drop for Screen<'a> {
    fn drop(self) {
        let Screen {
            comparisons,
            sets,
            is_whole: _,
        } = self;
        drop(comparisons);
        drop(sets);
    }
}

impl<'a> Model for Screen<'a> {
    ghost use Rattle.tql_plan_screen.specs.Coded.{tests_of};
    ghost use Rattle.tql_plan_screen.specs.Screens.{Screening};

    ghost Value = { Screening };

    ghost view = { λ s. record { tests = tests_of s.comparisons.items s.sets.items; whole = s.is_whole } };
}

/// States that it is enough to look at the rows that a screen admits, and that these are the rows that pass if the
/// screen is whole.
pub fn screens_are_enough()
    ensures enough { ScreenIsEnough }
    ensures whole { WholeScreenDecides }
{
    safe_part_decides();
    safe_conjuncts_filter();
}

impl<'a> Screen<'a> {
    /// Makes the screen without tests, which admits all rows and is not whole.
    pub fn none(memory: Memory) -> Screen<'a>
        ensures { result ≡ no_screen }
    {
        Screen::begun(memory, false)
    }

    /// Makes a screen without tests.
    pub(crate) fn begun(memory: Memory, is_whole: bool) -> Screen<'a>
        ensures { result ≡ record { tests = []; whole = is_whole } }
    {
        Screen {
            comparisons: Vec::new(memory),
            sets: Vec::new(memory),
            is_whole,
        }
    }

    /// Whether the conjuncts of which this screen was made need not be evaluated: none can be out of range, and exactly
    /// the admitted rows pass them.
    pub fn is_whole(&self) -> bool
        ensures { result ≡ self.now.whole }
    {
        self.is_whole
    }

    /// Whether the screen has no tests, so that it admits all rows.
    #[tactic(auto, using(crate::proofs::Added::none_there))]
    pub fn is_empty(&self) -> bool
        ensures { result ≡ (length self.now.tests == 0) }
    {
        self.comparisons.is_empty() && self.sets.is_empty()
    }

    /// Whether the stored cells of a row meet all tests. Allocates no memory.
    #[tactic(auto, using(crate::proofs::Added::both_met))]
    pub fn admits(&self, row: &Row) -> bool
        ensures { result ≡ is_admitted self.now.tests row.now }
    {
        are_met(&self.comparisons, row) && are_among(&self.sets, row)
    }

    /// Adds a comparison.
    #[tactic(auto, using(crate::proofs::Added::with_comparison))]
    pub(crate) fn add_comparison(&mut self, compared: Compared<'a>) -> Result<(), AllocError>
        ensures tests { OnOk result (Admits (compared_test compared.entry) self.old.tests self.new.tests) }
        ensures whole { OnOk result (self.new.whole ≡ self.old.whole) }
    {
        self.comparisons.push(compared)?;
        Ok(())
    }

    /// Adds a set of values.
    #[tactic(auto, using(crate::proofs::Added::with_set))]
    pub(crate) fn add_set(&mut self, set: Alternatives<'a>) -> Result<(), AllocError>
        ensures tests { OnOk result (Admits (among_test set.entry) self.old.tests self.new.tests) }
        ensures whole { OnOk result (self.new.whole ≡ self.old.whole) }
    {
        self.sets.push(set)?;
        Ok(())
    }

    /// Lets the screen be not whole.
    pub(crate) fn leave_open(&mut self)
        ensures tests { self.new.tests ≡ self.old.tests }
        ensures whole { self.new.whole ≡ false }
    {
        self.is_whole = false;
    }
}
