//! The definition of a table.
ghost use Rattle.std.specs.Prelude.{◌≡◌, ◌++◌, ◌<◌, false, length, map, option_map, is_some, string_bytes, IsTrue};
ghost use Rattle.std.specs.Prelude.{IfOk};
ghost use Rattle.std.specs.List.{list_any, list_all};
ghost use Rattle.tql_spec.specs.Binding as binding;
ghost use Rattle.tql_spec.specs.Creation.{has_expr, is_declared_key, uses_column};
ghost use Rattle.tql_spec.specs.Definition.{no_table};
ghost use Rattle.tql_spec.specs.Words.{listed, same_text};
ghost use Rattle.tql_catalog.specs.Defined as defined;
ghost use Rattle.tql_catalog.specs.Defined.{IsDefinition, table_of_parts, with_constraints};
ghost use Rattle.tql_catalog.specs.Definitions.{column_of, system_of, application_of, key_of, reference_of};
ghost use Rattle.tql_catalog.specs.Definitions.{checks_of};
ghost use Rattle.tql_catalog.specs.Rows as rows;
ghost use Rattle.tql_catalog.specs.Rows.{IsStoredAt};
ghost use Rattle.tql_expr.specs.Meaning.{cond, HasCond};

use crate::assignable::{are_open, assignable_numbers, has_repeated, is_generated, stored_number};
use crate::constraint::{Checks, Key, Reference};
use crate::definable::is_definable;
use crate::definition::{Application, Column, System};
use std::alloc::AllocError;
use std::marker::Model;
use std::slice;
use tql_expr::search::Search;
use tql_expr::terms::{CondId, Terms};
use tql_memory::Memory;

/// The definition of a table: its name, its columns, its system period if it is system-versioned, its application
/// period if it has one, and its constraints. No name occurs twice among those of the columns and that of the
/// application period. The generated columns are two of the columns, which hold moments. The columns of the application
/// period are two others, which take no NULL and both hold days, or both hold moments. A key or a reference lists
/// columns of the table that are not generated, each of them once. A check contains no aggregate and no generated
/// column.
pub struct TableDef {
    name: String<Memory>,
    columns: Vec<Column, Memory>,
    system: Option<System>,
    application: Option<Application>,
    keys: Vec<Key, Memory>,
    references: Vec<Reference, Memory>,
    checks: Checks,
    assignable: Vec<usize, Memory>,
}

impl Drop for TableDef {
    fn drop(self) {
        let TableDef {
            name,
            columns,
            system: _,
            application,
            keys,
            references,
            checks,
            assignable,
        } = self;
        drop(name);
        drop(columns);
        drop(application);
        drop(keys);
        drop(references);
        drop(checks);
        drop(assignable);
    }
}

impl Model for TableDef {
    ghost use Rattle.std.specs.Prelude.{◌≡◌, map, option_map, string_bytes};
    ghost use Rattle.tql_spec.specs.Binding.{all_assignable};
    ghost use Rattle.tql_spec.specs.Definition as spec;
    ghost use Rattle.tql_catalog.specs.Codes.{table_def_code};
    ghost use Rattle.tql_catalog.specs.Defined.{IsDefinition, table_of_parts, with_constraints};
    ghost use Rattle.tql_catalog.specs.Definitions.{column_of, system_of, application_of, key_of, reference_of};
    ghost use Rattle.tql_catalog.specs.Definitions.{checks_of};

    ghost Value = { spec.TableDef };

    ghost coded = { table_def_code };

    ghost view = { λ d. with_constraints
        (table_of_parts (string_bytes d.name) (map column_of d.columns.items)
        (option_map system_of d.system)
        (option_map application_of d.application))
        (map key_of d.keys.items) (map reference_of d.references.items) (checks_of d.checks) };

    ghost invariant = { λ d.
        let table = with_constraints
        (table_of_parts (string_bytes d.name) (map column_of d.columns.items) (option_map system_of d.system)
        (option_map application_of d.application))
        (map key_of d.keys.items) (map reference_of d.references.items) (checks_of d.checks) in
        IsDefinition table × (d.assignable.items ≡ all_assignable table) };
}

impl TableDef {
    /// Whether a table may have these columns and periods; `TableDef` gives the rules. Tests what `new` requires, for
    /// hosts whose own binder does not prove it.
    pub fn is_definable(
        columns: &[Column],
        system: Option<System>,
        application: Option<&Application>,
    ) -> bool
        ensures { result ≡ defined.is_definable (map column_of columns.now) (option_map system_of system)
            (option_map (λ a. application_of a.now) application.entry) }
    {
        is_definable(columns, system, application)
    }

    /// Creates the definition of a table without constraints. A table must be allowed to have these columns and
    /// periods.
    pub fn new(
        memory: Memory,
        name: String<Memory>,
        columns: Vec<Column, Memory>,
        system: Option<System>,
        application: Option<Application>,
    ) -> Result<TableDef, AllocError>
        requires { IsTrue (defined.is_definable (map column_of columns.items) (option_map system_of system)
            (option_map application_of application)) }
        ensures { IfOk result
            (λ d. d ≡ table_of_parts (string_bytes name.entry)
            (map column_of columns.entry.items) (option_map system_of system)
            (option_map application_of application)) }
    {
        let assignable = assignable_numbers(memory, columns.len(), system)?;
        Ok(TableDef {
            name,
            columns,
            system,
            application,
            keys: Vec::new(memory),
            references: Vec::new(memory),
            checks: Checks::none(memory),
            assignable,
        })
    }

    /// Whether the table may have these keys, references and checks; `TableDef` gives the rules. Tests what
    /// `with_constraints` requires, for hosts whose own binder does not prove it.
    pub fn are_constraints(&self, keys: &[Key], references: &[Reference], checks: &Checks) -> bool
        ensures { result ≡ defined.are_constraints self.now (map key_of keys.now) (map reference_of references.now)
            (checks_of checks.now) }
    {
        self.are_keys(keys) && self.are_references(references) && self.are_checks(checks)
    }

    /// Whether the columns of each key are columns of the table, none generated and none listed twice.
    fn are_keys(&self, keys: &[Key]) -> bool
        ensures { result ≡ list_all (defined.is_key self.now) (map key_of keys.now) }
    {
        keys.iter().all(|key| self.are_assignable(&key.columns))
    }

    /// Whether the columns of each reference are columns of the table, none generated and none listed twice.
    fn are_references(&self, references: &[Reference]) -> bool
        ensures { result ≡ list_all (defined.is_reference self.now) (map reference_of references.now) }
    {
        references
            .iter()
            .all(|reference| self.are_assignable(&reference.columns))
    }

    /// Whether these checks contain no aggregate and no generated column.
    fn are_checks(&self, checks: &Checks) -> bool
        ensures { result ≡ list_all (defined.is_check self.now) (checks_of checks.now) }
    {
        checks
            .conditions
            .iter()
            .all(|check| self.is_check(&checks.terms, *check))
    }

    /// Whether a condition contains no aggregate and no generated column.
    fn is_check(&self, terms: &Terms, check: CondId) -> bool
        requires { HasCond terms.now check }
        ensures { result ≡ defined.is_check self.now (cond terms.now check) }
    {
        !(terms.finds_in(Search::Aggregate, check) || self.uses_generated(terms, check))
    }

    /// Whether a condition contains a generated column outside its aggregates.
    fn uses_generated(&self, terms: &Terms, check: CondId) -> bool
        requires { HasCond terms.now check }
        ensures { result ≡ has_expr (uses_column (binding.is_generated self.now)) (cond terms.now check) }
    {
        match self.system {
            Some(system) => terms.finds_in(Search::OneOf(&[system.start, system.end]), check),
            None => terms.finds_in(Search::OneOf(&[]), check),
        }
    }

    /// Returns the table with these keys, references and checks instead of its own.
    pub fn with_constraints(
        self,
        keys: Vec<Key, Memory>,
        references: Vec<Reference, Memory>,
        checks: Checks,
    ) -> TableDef
        requires { IsTrue (defined.are_constraints self (map key_of keys.items) (map reference_of references.items)
            (checks_of checks)) }
        ensures { result ≡ with_constraints self (map key_of keys.entry.items)
            (map reference_of references.entry.items) (checks_of checks) }
    {
        let TableDef {
            name,
            columns,
            system,
            application,
            keys: _,
            references: _,
            checks: _,
            assignable,
        } = self;
        TableDef {
            name,
            columns,
            system,
            application,
            keys,
            references,
            checks,
            assignable,
        }
    }

    /// Returns the definition that represents a table that does not exist: no name, no column. Allocates no memory.
    pub fn nothing(memory: Memory) -> TableDef
        ensures { result ≡ no_table }
    {
        TableDef {
            name: String::new(memory),
            columns: Vec::new(memory),
            system: None,
            application: None,
            keys: Vec::new(memory),
            references: Vec::new(memory),
            checks: Checks::none(memory),
            assignable: Vec::new(memory),
        }
    }

    /// Returns the name.
    pub fn name(&self) -> &str
        ensures { result.now ≡ self.now.name }
    {
        self.name.as_str()
    }

    /// Whether this table has a reference to the table of this name.
    pub fn is_referring_to(&self, name: &str) -> bool
        ensures { result ≡ list_any (λ f. same_text name.now f.parent) self.now.references }
    {
        self.references
            .iter()
            .any(|reference| reference.is_to(name))
    }

    /// Whether the table has a key of these columns, in this order, with WITHOUT OVERLAPS exactly if `by_period` is
    /// true.
    pub fn has_key(&self, by_period: bool, columns: &[usize]) -> bool
        ensures { result ≡ is_declared_key self.now by_period columns.now }
    {
        self.keys.iter().any(|key| key.is_of(by_period, columns))
    }

    /// Returns the keys, in the order of their declaration.
    pub fn keys(&self) -> &[Key]
        ensures keys { map key_of result.now ≡ self.now.keys }
        ensures right { IsDefinition self.now }
    {
        self.keys.as_slice()
    }

    /// Returns the references, in the order of their declaration.
    pub fn references(&self) -> &[Reference]
        ensures references { map reference_of result.now ≡ self.now.references }
        ensures right { IsDefinition self.now }
    {
        self.references.as_slice()
    }

    /// Returns the checks, in the order of their declaration.
    pub fn checks(&self) -> &Checks
        ensures checks { checks_of result.now ≡ self.now.checks }
        ensures right { IsDefinition self.now }
    {
        &self.checks
    }

    /// Returns the columns, in order.
    pub fn columns(&self) -> &[Column]
        ensures columns { map column_of result.now ≡ self.now.columns }
        ensures right { IsDefinition self.now }
    {
        self.columns.as_slice()
    }

    /// Returns the generated columns, by number from 0, or `None` if the table is not system-versioned.
    pub fn system(&self) -> Option<System>
        ensures system { option_map system_of result ≡ self.now.system }
        ensures right { IsDefinition self.now }
    {
        self.system
    }

    /// Returns the columns of ROW START and ROW END, by number from 0, or `None` if the table is not system-versioned.
    pub fn generated(&self) -> Option<(usize, usize)>
        ensures { option_map (λ p. record { start = p.0; end = p.1 }) result ≡ self.now.system }
    {
        match self.system {
            Some(system) => Some((system.start, system.end)),
            None => None,
        }
    }

    /// Returns the application period, if the table has one.
    pub fn application(&self) -> Option<&Application>
        ensures application { option_map (λ a. application_of a.now) result ≡ self.now.application }
        ensures right { IsDefinition self.now }
    {
        self.application.as_ref()
    }

    /// Returns the application period as a list, which is empty if the table has none.
    pub fn applications(&self) -> &[Application]
        ensures applications { map application_of result.now ≡ listed self.now.application }
        ensures right { IsDefinition self.now }
    {
        match &self.application {
            Some(application) => slice::from_ref(application),
            None => &[],
        }
    }

    /// Whether the table is system-versioned.
    pub fn is_versioned(&self) -> bool
        ensures versioned { result ≡ is_some self.now.system }
        ensures right { IsDefinition self.now }
    {
        self.system.is_some()
    }

    /// Whether the column of this number, from 0, is generated.
    pub fn is_generated(&self, number: usize) -> bool
        ensures { result ≡ binding.is_generated self.now number }
    {
        is_generated(self.system, number)
    }

    /// Returns the numbers of the columns that are not generated, from 0, in order.
    pub fn assignable(&self) -> &[usize]
        ensures assignable { result.now ≡ binding.all_assignable self.now }
        ensures right { IsDefinition self.now }
    {
        self.assignable.as_slice()
    }

    /// Returns the number of a column among the stored ones, from 0. The column must not be generated.
    pub fn stored_number(&self, column: usize) -> usize
        requires within { column < length self.now.columns }
        requires stored { binding.is_generated self.now column ≡ false }
        ensures { IsStoredAt self.now column result }
    {
        stored_number(self.columns.len(), self.system, column)
    }

    /// Whether a user may assign values to the columns of these numbers: each exists, none is generated, and none is
    /// listed twice.
    pub fn are_assignable(&self, numbers: &[usize]) -> bool
        ensures { result ≡ rows.are_assignable self.now numbers.now }
    {
        are_open(self.columns.len(), self.system, numbers) && !has_repeated(numbers)
    }
}
