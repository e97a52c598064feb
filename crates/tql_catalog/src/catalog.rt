//! The catalog of existing tables.
ghost use Rattle.std.specs.Prelude.{◌≡◌, ◌≢◌, ◌↔◌, ◌<◌, ◌++◌, [], ◌∷◌, length, slice_get, All, IsTrue, OnOk, OnErr};
ghost use Rattle.std.specs.Prelude.{IfOk, Some, option_map, is_some, remove};
ghost use Rattle.std.specs.List.{list_all};
ghost use Rattle.std.specs.Option.{ForSome};
ghost use Rattle.tql_spec.specs.Binding as binding;
ghost use Rattle.tql_spec.specs.Definition as spec;
ghost use Rattle.tql_spec.specs.Refusal.{first};
ghost use Rattle.tql_value.specs.Refusals.{refusal_of};
ghost use Rattle.tql_catalog.specs.Definitions.{reference_of};
ghost use Rattle.tql_catalog.specs.Referring.{referring_to};
ghost use Rattle.tql_catalog.specs.Tables.{can_have, definitions_of, IsFree, IsCatalog, creation_faults, Tells};
ghost use Rattle.tql_catalog.specs.Tables.{absence_faults, drop_faults, reference_faults, Refuses};

use crate::constraint::Reference;
use crate::referring::{close_each, note, reserve_each};
use crate::table_def::TableDef;
use indexmap::IndexMap;
use std::hash::{BuildHasherDefault, FoldHasher};
use std::marker::Model;
use tql_memory::Memory;
use tql_value::refusal::Refusal;
use tql_value::table::TableId;

/// An existing table.
pub struct Table {
    pub definition: TableDef,
    /// The number under which the store keeps the rows.
    pub id: TableId,
}

impl Drop for Table {
    fn drop(self) {
        let Table { definition, id: _ } = self;
        drop(definition);
    }
}

/// Tables in order, each under its name.
pub(crate) type Tables = IndexMap<String<Memory>, Table, BuildHasherDefault<FoldHasher>, Memory>;

/// The existing tables, in the order of their creation: at most 1,000, each with its own name and number. Each
/// reference is to a key of an earlier table. The model is the list of tables. The average time to find a table by name
/// does not depend on the number of tables. Nor does the time to find the tables that refer to a table, given its
/// position.
pub struct Catalog {
    tables: Tables,
    /// For each table, the positions of the tables that have a reference to it.
    referring: Vec<Vec<usize, Memory>, Memory>,
}

impl Drop for Catalog {
    fn drop(self) {
        let Catalog { tables, referring } = self;
        drop(tables);
        drop(referring);
    }
}

impl Model for Catalog {
    ghost use Rattle.std.specs.Prelude.{List};
    ghost use Rattle.tql_catalog.specs.declared.catalog.Table.{Table};
    ghost use Rattle.indexmap.specs.IndexMap.{values};
    ghost use Rattle.tql_catalog.specs.Referring.{AreReferring};
    ghost use Rattle.tql_catalog.specs.Tables.{tables_code, IsCatalog, IsByName};

    ghost Value = { List Table };

    ghost coded = { tables_code };

    ghost view = { λ c. values c.tables };

    ghost invariant = { λ c. IsCatalog (values c.tables) × IsByName c.tables.entries
        × AreReferring (values c.tables) c.referring.items };
}

impl Catalog {
    /// Creates a catalog without tables.
    pub fn new(memory: Memory) -> Catalog
        ensures { result ≡ [] }
    {
        Catalog {
            tables: IndexMap::new(memory),
            referring: Vec::new(memory),
        }
    }

    /// Returns the number of tables, at most 1,000.
    pub fn len(&self) -> usize
        ensures len { result ≡ length self.now }
        ensures right { IsCatalog self.now }
    {
        self.tables.len()
    }

    /// Returns the position of the table of this name, from 0, in the order of creation.
    pub fn place_of(&self, name: &str) -> Option<usize>
        ensures place { result ≡ spec.place_of name.now (definitions_of self.now) }
        ensures within { ForSome result (λ place. place < length self.now) }
    {
        self.tables.get_index_of(name)
    }

    /// Returns the table at a position.
    pub fn table(&self, place: usize) -> &Table
        requires { place < length self.now }
        ensures table { slice_get self.now place ≡ Some result.now }
        ensures definition { spec.table_at (definitions_of self.now) place ≡ result.now.definition }
    {
        &self.tables[place]
    }

    /// Returns the table of this name: its definition and its number. Refused if there is no table of this name.
    pub fn find(&self, name: &str) -> Result<&Table, Refusal>
        ensures found { IfOk result (λ table. ForSome (spec.place_of name.now (definitions_of self.now))
            (λ place. slice_get self.now place ≡ Some table.now)) }
        ensures told { Refuses (first (absence_faults (definitions_of self.now) name.now)) result }
    {
        match self.place_of(name) {
            Some(place) => Ok(self.table(place)),
            None => Err(Refusal::TableUnknownOrAlreadyThere),
        }
    }

    /// Returns the definition of the table at a position, or `nothing` if there is no table.
    pub fn definition_or<'a>(&'a self, place: usize, nothing: &'a TableDef) -> &'a TableDef
        requires { nothing.now ≡ spec.no_table }
        ensures { result.now ≡ spec.table_at (definitions_of self.now) place }
    {
        match self.tables.get_index(place) {
            Some((_, table)) => &table.definition,
            None => nothing,
        }
    }

    /// Whether there is a system-versioned table at this position.
    pub fn is_versioned(&self, place: usize) -> bool
        ensures { result ≡ is_some (spec.table_at (definitions_of self.now) place).system }
    {
        match self.tables.get_index(place) {
            Some((_, table)) => table.definition.is_versioned(),
            None => false,
        }
    }

    /// Whether no table has this number. Tests what `create` requires, for hosts whose store does not prove it.
    pub fn is_free(&self, id: TableId) -> bool
        ensures { IsTrue result ↔ IsFree id self.now }
    {
        self.tables.values().all(|table| table.id != id)
    }

    /// Returns the first fault of a new table of this name, given the existing tables: a table has this name, or there
    /// are 1,000 tables.
    pub fn creation_fault(&self, name: &str) -> Option<Refusal>
        ensures { option_map refusal_of result ≡ first (creation_faults (definitions_of self.now) name.now) }
    {
        if self.place_of(name).is_some() {
            Some(Refusal::TableUnknownOrAlreadyThere)
        } else if 1000 <= self.tables.len() {
            Some(Refusal::TooManyTablesOrReaders)
        } else {
            None
        }
    }

    /// Whether each reference of a new table is to a key of an existing table. Tests what `create` requires, for hosts
    /// whose binder does not prove it.
    pub fn can_hold(&self, definition: &TableDef) -> bool
        ensures { result ≡ list_all (can_have (definitions_of self.now)) definition.now.references }
    {
        definition
            .references()
            .iter()
            .all(|reference| self.has_key_of(reference))
    }

    /// Whether the parent of a reference exists and has the referenced key.
    fn has_key_of(&self, reference: &Reference) -> bool
        ensures { result ≡ can_have (definitions_of self.now) (reference_of reference.now) }
    {
        match self.place_of(reference.parent.as_str()) {
            Some(place) => self
                .table(place)
                .definition
                .has_key(reference.by_period, &reference.parent_columns),
            None => false,
        }
    }

    /// Adds a table after the others, under a number that no other has. Refused for the first of these reasons: a table
    /// has this name; there are 1,000 tables; out of memory. A refusal changes nothing.
    pub fn create(&mut self, definition: TableDef, id: TableId) -> Result<(), Refusal>
        requires free { IsFree id self.old }
        requires parents { IsTrue (list_all (can_have (definitions_of self.old)) definition.references) }
        ensures created { OnOk result (self.new ≡ self.old ++ record { definition = definition; id = id } ∷ []) }
        ensures kept { OnErr result (self.new ≡ self.old) }
        ensures told { Tells (first (creation_faults (definitions_of self.old) definition.name)) result }
    {
        if let Some(fault) = self.creation_fault(definition.name()) {
            return Err(fault);
        }
        let memory = *self.tables.allocator();
        let name = String::from_str(memory, definition.name())?;
        self.referring.reserve(1)?;
        reserve_each(&mut self.referring)?;
        let place = self.tables.len();
        self.tables.insert(name, Table { definition, id })?;
        note(&self.tables, place, &mut self.referring);
        self.referring.push_reserved(Vec::new(memory));
        Ok(())
    }

    /// Returns the positions of the tables that have a reference to the table at a position, in order. The time does
    /// not depend on the number of tables.
    pub fn referring(&self, place: usize) -> &[usize]
        requires { place < length self.now }
        ensures referring { result.now
            ≡ referring_to (spec.table_at (definitions_of self.now) place).name (definitions_of self.now) }
        ensures within { All (λ child. child < length self.now) result.now }
    {
        self.referring[place].as_slice()
    }

    /// Whether some table has a reference to the table at a position.
    fn is_referenced(&self, place: usize) -> bool
        requires { place < length self.now }
        ensures { result
            ≡ binding.is_referenced (spec.table_at (definitions_of self.now) place).name (definitions_of self.now) }
    {
        !self.referring(place).is_empty()
    }

    /// Returns the first fault of a DROP of the table of this name: there is no table of this name, or some table has a
    /// reference to it. `drop_table` refuses exactly these.
    pub fn drop_fault(&self, name: &str) -> Option<Refusal>
        ensures { option_map refusal_of result ≡ first (drop_faults (definitions_of self.now) name.now) }
    {
        match self.place_of(name) {
            None => Some(Refusal::TableUnknownOrAlreadyThere),
            Some(place) if self.is_referenced(place) => Some(Refusal::TableIsReferenced),
            Some(_) => None,
        }
    }

    /// Removes the table at a position and returns it. The others keep their order. Refused, with nothing changed, if
    /// some table has a reference to it. Allocates no memory.
    pub fn drop_at(&mut self, place: usize) -> Result<Table, Refusal>
        requires { place < length self.old }
        ensures taken { IfOk result (λ table. slice_get self.old place ≡ Some table) }
        ensures others { OnOk result (self.new ≡ remove self.old place) }
        ensures kept { OnErr result (self.new ≡ self.old) }
        ensures told { Refuses (first (reference_faults (definitions_of self.old)
            (spec.table_at (definitions_of self.old) place).name)) result }
    {
        if self.is_referenced(place) {
            return Err(Refusal::TableIsReferenced);
        }
        let (_, table) = self.tables.shift_remove_index(place).unwrap();
        self.referring.remove(place);
        close_each(&mut self.referring, place);
        Ok(table)
    }

    /// Removes the table of this name and returns it. The others keep their order. Refused, with nothing changed, for
    /// the first of these reasons: there is no table of this name; some table has a reference to it. Allocates no
    /// memory.
    pub fn drop_table(&mut self, name: &str) -> Result<Table, Refusal>
        ensures taken { IfOk result (λ table. ForSome (spec.place_of name.now (definitions_of self.old))
            (λ place. slice_get self.old place ≡ Some table)) }
        ensures others { OnOk result (ForSome (spec.place_of name.now (definitions_of self.old))
            (λ place. self.new ≡ remove self.old place)) }
        ensures kept { OnErr result (self.new ≡ self.old) }
        ensures told { Refuses (first (drop_faults (definitions_of self.old) name.now)) result }
    {
        match self.place_of(name) {
            Some(place) => self.drop_at(place),
            None => Err(Refusal::TableUnknownOrAlreadyThere),
        }
    }
}
