//! The names of the constraints of a new table. A constraint without a written name is named as PostgreSQL names it:
//! `PAY_PKEY`, `PAY_A_B_KEY`, `PAY_A_FKEY`, `PAY_CHECK`, or `PAY_A_CHECK` if a CHECK reads that column alone. If the
//! table already has a constraint of that name, a number is appended. Names are for messages: no view of a definition
//! shows them.

use crate::draft::NewList;
use indexmap::IndexMap;
use std::alloc::AllocError;
use std::hash::{BuildHasherDefault, FoldHasher};
use tql_bind_expr::texts::meant;
use tql_catalog::definition::Column;
use tql_memory::Memory;
use tql_syntax_tree::expression::Name;
use tql_syntax_tree::statement::{Constraint, CreateTree, Element};

/// Used names, each with the last number that was appended to it to make another name.
type Taken = IndexMap<String<Memory>, usize, BuildHasherDefault<FoldHasher>, Memory>;

/// The table's name, and the names that its constraints have so far. All written names are there from the start.
pub struct ConstraintNames {
    table: String<Memory>,
    taken: Taken,
}

impl Drop for ConstraintNames {
    fn drop(self) {
        let ConstraintNames { table, taken } = self;
        drop(table);
        drop(taken);
    }
}

/// Returns the name with a number appended.
fn numbered(memory: Memory, name: &str, number: usize) -> Result<String<Memory>, AllocError> {
    let mut text = String::from_str(memory, name)?;
    write!(text, "{number}")?;
    Ok(text)
}

/// Appends an underscore and a name.
fn push_part(name: &mut String<Memory>, part: &str) -> Result<(), AllocError> {
    name.push('_')?;
    name.push_str(part)
}

/// Returns a name of the table's name, the columns of the list, its period if it has one, and the ending.
fn listed_name(
    memory: Memory,
    table: &str,
    list: &NewList,
    ending: &str,
) -> Result<String<Memory>, AllocError> {
    let mut name = String::from_str(memory, table)?;
    for column in &list.columns {
        push_part(&mut name, column.text.as_str())?;
    }
    if let Some(period) = &list.period {
        push_part(&mut name, period.text.as_str())?;
    }
    push_part(&mut name, ending)?;
    Ok(name)
}

/// Returns a name of the table's name, the column if there is one, and the ending.
fn column_name(
    memory: Memory,
    table: &str,
    column: Option<&Column>,
    ending: &str,
) -> Result<String<Memory>, AllocError> {
    let mut name = String::from_str(memory, table)?;
    if let Some(column) = column {
        push_part(&mut name, column.name.as_str())?;
    }
    push_part(&mut name, ending)?;
    Ok(name)
}

impl ConstraintNames {
    /// Returns the names that the statement writes. The only error is a refused allocation.
    pub fn written(memory: Memory, create: &CreateTree<'_>) -> Result<ConstraintNames, AllocError> {
        let mut names = ConstraintNames {
            table: meant(memory, create.table)?,
            taken: IndexMap::new(memory),
        };
        names.take_written(memory, &create.first)?;
        for element in &create.more {
            names.take_written(memory, element)?;
        }
        Ok(names)
    }

    /// Records the name that is written for the element, if any.
    fn take_written(&mut self, memory: Memory, element: &Element<'_>) -> Result<(), AllocError> {
        if let Element::Constraint(Some(name), _) = element {
            let name = meant(memory, *name)?;
            self.taken.insert(name, 0)?;
        }
        Ok(())
    }

    /// Returns the number that was last appended to this name, or 0.
    fn last_number(&self, name: &str) -> usize {
        match self.taken.get(name) {
            Some(number) => *number,
            None => 0,
        }
    }

    /// Returns the first number, after the last one for this name, that makes an unused name.
    fn free_number(&self, memory: Memory, name: &str) -> Result<usize, AllocError> {
        let last = self.last_number(name);
        for number in last.saturating_add(1)..usize::MAX {
            let text = numbered(memory, name, number)?;
            if !self.taken.contains_key(text.as_str()) {
                return Ok(number);
            }
        }
        Ok(last)
    }

    /// Records and returns this name with a number appended.
    fn take_numbered(
        &mut self,
        memory: Memory,
        name: String<Memory>,
    ) -> Result<String<Memory>, AllocError> {
        let number = self.free_number(memory, name.as_str())?;
        let given = numbered(memory, name.as_str(), number)?;
        self.taken.insert(given.clone()?, 0)?;
        self.taken.insert(name, number)?;
        Ok(given)
    }

    /// Records and returns this name, with a number appended if it is already used.
    fn take(&mut self, memory: Memory, name: String<Memory>) -> Result<String<Memory>, AllocError> {
        if self.taken.contains_key(name.as_str()) {
            return self.take_numbered(memory, name);
        }
        self.taken.insert(name.clone()?, 0)?;
        Ok(name)
    }

    /// Returns the name of a key: the written one, else a generated one. The only error is a refused allocation.
    pub fn of_key(
        &mut self,
        memory: Memory,
        written: Option<Name<'_>>,
        is_primary: bool,
        list: &NewList,
    ) -> Result<String<Memory>, AllocError> {
        if let Some(name) = written {
            return meant(memory, name);
        }
        let name = if is_primary {
            column_name(memory, self.table.as_str(), None, "PKEY")?
        } else {
            listed_name(memory, self.table.as_str(), list, "KEY")?
        };
        self.take(memory, name)
    }

    /// Returns the name of a reference: the written one, else a generated one. The only error is a refused allocation.
    pub fn of_reference(
        &mut self,
        memory: Memory,
        written: Option<Name<'_>>,
        list: &NewList,
    ) -> Result<String<Memory>, AllocError> {
        if let Some(name) = written {
            return meant(memory, name);
        }
        let name = listed_name(memory, self.table.as_str(), list, "FKEY")?;
        self.take(memory, name)
    }

    /// Returns a generated name of a check, which reads only this column if there is one. The only error is a refused
    /// allocation.
    pub fn of_check(
        &mut self,
        memory: Memory,
        column: Option<&Column>,
    ) -> Result<String<Memory>, AllocError> {
        let name = column_name(memory, self.table.as_str(), column, "CHECK")?;
        self.take(memory, name)
    }
}
