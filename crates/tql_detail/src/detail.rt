//! Details of a refused statement, in addition to the number and text of the refusal.
use crate::place::Place;
use std::alloc::AllocError;
use std::fmt;
use tql_memory::Memory;

/// The known details of the fault for which a statement is refused. A line on standard error shows the words and the
/// hint; a host can read the fields. Unknown fields are `None` or an empty list.
pub struct Detail {
    /// The place of the fault.
    pub place: Option<Place>,
    /// What is wrong, in one line without the hint.
    pub words: String<Memory>,
    /// What to write instead, or what else helps.
    pub hint: Option<String<Memory>>,
    /// The name of the constraint that a row violates: the declared name, or the name that PostgreSQL would generate.
    pub constraint: Option<String<Memory>>,
    /// The columns of that constraint, or the columns in which a row fails for another reason.
    pub columns: Vec<String<Memory>, Memory>,
    /// The number of that row among the rows of an INSERT, counted from 1.
    pub row: Option<u64>,
    /// Whether the statement is refused because a transaction is open.
    pub in_transaction: bool,
    /// The line of the input on which that transaction was opened. The words contain it too. None if it is not known:
    /// the transaction may have been opened in another input, or by a single statement of the host.
    pub since: Option<u64>,
}

impl Drop for Detail {
    fn drop(self) {
        let Detail {
            place: _,
            words,
            hint,
            constraint,
            columns,
            row: _,
            in_transaction: _,
            since: _,
        } = self;
        drop(words);
        drop(hint);
        drop(constraint);
        drop(columns);
    }
}

impl Detail {
    /// Returns a detail that has only these words.
    pub fn of(words: String<Memory>) -> Detail {
        let memory = *words.allocator();
        Detail {
            place: None,
            words,
            hint: None,
            constraint: None,
            columns: Vec::new(memory),
            row: None,
            in_transaction: false,
            since: None,
        }
    }

    /// Sets the hint. The only error is a refused allocation, which leaves the detail unchanged.
    pub fn advise(&mut self, hint: &str) -> Result<(), AllocError> {
        self.hint = Some(String::from_str(*self.words.allocator(), hint)?);
        Ok(())
    }

    /// Adds a column name. The only error is a refused allocation, which leaves the detail unchanged.
    pub fn add_column(&mut self, name: &str) -> Result<(), AllocError> {
        let name = String::from_str(*self.words.allocator(), name)?;
        self.columns.push(name)?;
        Ok(())
    }

    /// Adds the line on which the open transaction was opened, and appends it to the words. The only error is a refused
    /// allocation, after which the words may end with a prefix of the addition.
    pub fn open_since(&mut self, line: u64) -> Result<(), AllocError> {
        write!(&mut self.words, " since line {line}")?;
        self.since = Some(line);
        Ok(())
    }

    /// Moves the place from the text of a statement to the script. The text begins on line `line`, after `before`
    /// characters of that line.
    pub fn stand_behind(&mut self, line: u64, before: u64) {
        if let Some(place) = self.place {
            self.place = Some(place.within(line, before));
        }
    }

    /// Returns a copy of the detail in `memory`. The only error is a refused allocation.
    pub fn copied(&self, memory: Memory) -> Result<Detail, AllocError> {
        let mut copy = Detail::of(String::from_str(memory, self.words.as_str())?);
        copy.place = self.place;
        copy.row = self.row;
        copy.in_transaction = self.in_transaction;
        copy.since = self.since;
        if let Some(hint) = &self.hint {
            copy.advise(hint.as_str())?;
        }
        if let Some(name) = &self.constraint {
            copy.constraint = Some(String::from_str(memory, name.as_str())?);
        }
        for name in &self.columns {
            copy.add_column(name.as_str())?;
        }
        Ok(copy)
    }
}

impl fmt::Display for Detail {
    /// Writes what is wrong and, after a semicolon, the hint.
    fn fmt<W: fmt::Write>(&self, f: &mut fmt::Formatter<W>) -> fmt::Result {
        f.write_str(self.words.as_str())?;
        match &self.hint {
            Some(hint) => write!(f, "; {hint}"),
            None => Ok(()),
        }
    }
}
