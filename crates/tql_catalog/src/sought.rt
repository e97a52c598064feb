//! The columns by which rows of a table are looked up, as the store needs them: by number among the stored columns.
ghost use Rattle.std.specs.Prelude.{IfOk, OnOk, IsTrue, List, ℕ, ◌++◌};
ghost use Rattle.std.specs.List.{AllZip};
ghost use Rattle.tql_catalog.specs.Rows.{are_assignable, AreStoredAt};
ghost use Rattle.tql_catalog.specs.Sought.{key_columns, reference_columns, sought_columns, lists_of, IsPeriodStoredAt};

use crate::table_def::TableDef;
use std::alloc::AllocError;
use tql_memory::Memory;

impl TableDef {
    /// Returns the numbers of these columns among the stored ones, from 0. None of the columns may be generated.
    pub fn stored_numbers(
        &self,
        memory: Memory,
        columns: &[usize],
    ) -> Result<Vec<usize, Memory>, AllocError>
        requires { IsTrue (are_assignable self.now columns.now) }
        ensures { IfOk result (λ stored. AreStoredAt self.now columns.now stored.items) }
    {
        let mut stored = Vec::with_capacity(memory, columns.len())?;
        for column in columns {
            stored.push(self.stored_number(*column))?;
        }
        Ok(stored)
    }

    /// Adds the list of the columns of each key.
    fn add_key_lists(
        &self,
        memory: Memory,
        lists: &mut Vec<Vec<usize, Memory>, Memory>,
    ) -> Result<(), AllocError>
        ensures { OnOk result ((before : List (List ℕ))
            → AllZip (AreStoredAt self.now) before (lists_of lists.old.items)
            → AllZip (AreStoredAt self.now) (before ++ key_columns self.now) (lists_of lists.new.items)) }
    {
        for key in self.keys() {
            lists.push(self.stored_numbers(memory, &key.columns)?)?;
        }
        Ok(())
    }

    /// Adds the list of the columns of each reference.
    fn add_reference_lists(
        &self,
        memory: Memory,
        lists: &mut Vec<Vec<usize, Memory>, Memory>,
    ) -> Result<(), AllocError>
        ensures { OnOk result ((before : List (List ℕ))
            → AllZip (AreStoredAt self.now) before (lists_of lists.old.items)
            → AllZip (AreStoredAt self.now) (before ++ reference_columns self.now) (lists_of lists.new.items)) }
    {
        for reference in self.references() {
            lists.push(self.stored_numbers(memory, &reference.columns)?)?;
        }
        Ok(())
    }

    /// Returns the lists of columns by which rows are looked up: those of the keys, then those of the references, each
    /// in the order of declaration. Each column is given by its number among the stored ones.
    pub fn sought_lists(
        &self,
        memory: Memory,
    ) -> Result<Vec<Vec<usize, Memory>, Memory>, AllocError>
        ensures { IfOk result
            (λ lists. AllZip (AreStoredAt self.now) (sought_columns self.now) (lists_of lists.items)) }
    {
        let mut lists: Vec<Vec<usize, Memory>, Memory> = Vec::new(memory);
        self.add_key_lists(memory, &mut lists)?;
        self.add_reference_lists(memory, &mut lists)?;
        Ok(lists)
    }

    /// Returns the columns of the application period, by their numbers among the stored ones, or `None` if the table
    /// has no application period.
    pub fn sought_period(&self) -> Option<(usize, usize)>
        ensures { IsPeriodStoredAt self.now self.now.application result }
    {
        match self.application() {
            Some(application) => Some((
                self.stored_number(application.start),
                self.stored_number(application.end),
            )),
            None => None,
        }
    }
}
