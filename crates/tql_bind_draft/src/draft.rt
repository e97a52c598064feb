//! The columns, periods, keys and references of a new table, with decoded names.
ghost use Rattle.std.specs.Prelude.{◌≡◌, ◌++◌, ◌∷◌, [], Some, None, IfOk, OnOk, map, option_map};
ghost use Rattle.tql_spec.specs.Creation.{columns_of, application_parts, system_parts, constraints_of};
ghost use Rattle.tql_syntax_tree.specs.Expressions.{name_of};
ghost use Rattle.tql_syntax_tree.specs.Statements as tree;
ghost use Rattle.tql_bind_expr.specs.Scopes.{word_of};
ghost use Rattle.tql_bind_draft.specs.Drafts.{column_of, application_part, system_part, columns_in, applications_in};
ghost use Rattle.tql_bind_draft.specs.Drafts.{elements_in};
ghost use Rattle.tql_bind_draft.specs.Drafts.{systems_in, list_part, key_part, reference_part, keys_in, references_in};
ghost use Rattle.tql_bind_draft.specs.Drafts.{key_parts, reference_parts, names_of_periods};
ghost use Rattle.tql_bind_draft.specs.PeriodNames.{AreNames};

use crate::constraint_names::ConstraintNames;
use crate::period_names::{PeriodNames, period_names};
use std::alloc::AllocError;
use tql_bind_expr::texts::{Word, meant_word};
use tql_memory::Memory;
use tql_syntax_tree::expression::Name;
use tql_syntax_tree::statement::{
    ColumnTree, Constraint, CreateTree, Element, ForeignTree, Generated, KeyTree, PeriodTree,
    TypeName,
};

/// A column as it is written, with its name decoded.
#[derive(Drop)]
pub struct NewColumn<'a> {
    pub name: Word,
    pub type_name: TypeName<'a>,
    pub is_required: bool,
    pub generated: Option<Generated>,
}

/// An application period as it is written, with its names decoded.
#[derive(Drop)]
pub struct NewApplication {
    pub name: Word,
    pub start: Word,
    pub end: Word,
}

/// A system period as it is written, with its names decoded.
#[derive(Drop)]
pub struct NewSystem {
    pub start: Word,
    pub end: Word,
}

/// A list of columns as it is written, and its period, with their names decoded.
#[derive(Drop)]
pub struct NewList {
    pub columns: Vec<Word, Memory>,
    pub period: Option<Word>,
}

/// A key as it is written, with its names decoded. Its own name is generated if none is written.
#[derive(Drop)]
pub struct NewKey {
    pub name: String<Memory>,
    pub is_primary: bool,
    pub list: NewList,
}

/// A reference as it is written, with its names decoded: its columns, the table that it references, and the columns
/// there. Its own name is generated if none is written.
#[derive(Drop)]
pub struct NewReference {
    pub name: String<Memory>,
    pub child: NewList,
    pub parent: Word,
    pub named: NewList,
}

/// The columns, periods, keys and references of a new table, in the order of the statement, and the names of the
/// application periods.
pub struct Draft<'a> {
    pub columns: Vec<NewColumn<'a>, Memory>,
    pub applications: Vec<NewApplication, Memory>,
    pub names: PeriodNames,
    pub systems: Vec<NewSystem, Memory>,
    pub keys: Vec<NewKey, Memory>,
    pub references: Vec<NewReference, Memory>,
}

impl Drop for Draft<'_> {
    fn drop(self) {
        let Draft {
            columns,
            applications,
            names,
            systems,
            keys,
            references,
        } = self;
        drop(columns);
        drop(applications);
        drop(names);
        drop(systems);
        drop(keys);
        drop(references);
    }
}

/// Decodes the name of a column.
fn new_column<'a>(memory: Memory, column: ColumnTree<'a>) -> Result<NewColumn<'a>, AllocError>
    ensures { IfOk result (λ c. column_of c ≡ tree.column_of column.entry) }
{
    Ok(NewColumn {
        name: meant_word(memory, column.name)?,
        type_name: column.type_name,
        is_required: column.is_required,
        generated: column.generated,
    })
}

/// Decodes the names of an application period.
fn new_application(
    memory: Memory,
    name: Name<'_>,
    period: PeriodTree<'_>,
) -> Result<NewApplication, AllocError>
    ensures { IfOk result (λ p. application_part p
        ≡ record {
          name = Some (name_of name.entry);
          start = name_of period.entry.start;
          end = name_of period.entry.end;
        }) }
{
    Ok(NewApplication {
        name: meant_word(memory, name)?,
        start: meant_word(memory, period.start)?,
        end: meant_word(memory, period.end)?,
    })
}

/// Decodes the names of a system period.
fn new_system(memory: Memory, period: PeriodTree<'_>) -> Result<NewSystem, AllocError>
    ensures { IfOk result
        (λ p. system_part p ≡ record {
          name = None;
          start = name_of period.entry.start;
          end = name_of period.entry.end;
        }) }
{
    Ok(NewSystem {
        start: meant_word(memory, period.start)?,
        end: meant_word(memory, period.end)?,
    })
}

/// Decodes names.
fn meant_names(
    memory: Memory,
    first: Name<'_>,
    more: &[Name<'_>],
) -> Result<Vec<Word, Memory>, AllocError>
    ensures { IfOk result (λ texts. map word_of texts.items ≡ name_of first.entry ∷ map name_of more.now) }
{
    let mut texts = Vec::new(memory);
    texts.push(meant_word(memory, first)?)?;
    for name in more {
        texts.push(meant_word(memory, *name)?)?;
    }
    Ok(texts)
}

/// Decodes a name, if there is one.
fn meant_name(memory: Memory, name: Option<Name<'_>>) -> Result<Option<Word>, AllocError>
    ensures { IfOk result (λ text. option_map word_of text ≡ option_map name_of name.entry) }
{
    match name {
        Some(name) => Ok(Some(meant_word(memory, name)?)),
        None => Ok(None),
    }
}

/// Returns the list of these columns, with its period.
fn new_list(
    memory: Memory,
    first: Name<'_>,
    more: &[Name<'_>],
    period: Option<Name<'_>>,
) -> Result<NewList, AllocError>
    ensures { IfOk result
        (λ l. list_part l ≡ record {
          columns = name_of first.entry ∷ map name_of more.now;
          period = option_map name_of period.entry;
        }) }
{
    Ok(NewList {
        columns: meant_names(memory, first, more)?,
        period: meant_name(memory, period)?,
    })
}

/// Decodes the names of a key, and names the key.
fn new_key(
    memory: Memory,
    names: &mut ConstraintNames,
    written: Option<Name<'_>>,
    key: &KeyTree<'_>,
) -> Result<NewKey, AllocError>
    ensures { IfOk result (λ k. key_part k ∷ [] ≡ key_parts (tree.key_of key.now ∷ [])) }
{
    let list = new_list(memory, key.first, &key.more, key.period)?;
    Ok(NewKey {
        name: names.of_key(memory, written, key.is_primary, &list)?,
        is_primary: key.is_primary,
        list,
    })
}

/// Decodes the names of a reference, and names the reference.
fn new_reference(
    memory: Memory,
    names: &mut ConstraintNames,
    written: Option<Name<'_>>,
    foreign: &ForeignTree<'_>,
) -> Result<NewReference, AllocError>
    ensures { IfOk result (λ f. reference_part f ∷ [] ≡ reference_parts (tree.foreign_of foreign.now ∷ [])) }
{
    let child = &foreign.child;
    let named = &foreign.parent;
    let child = new_list(memory, child.first, &child.more, child.period)?;
    Ok(NewReference {
        name: names.of_reference(memory, written, &child)?,
        child,
        parent: meant_word(memory, foreign.table)?,
        named: new_list(memory, named.first, &named.more, named.period)?,
    })
}

impl<'a> Draft<'a> {
    /// Adds the period: an application period if it has a name, else a system period.
    fn add_period(&mut self, memory: Memory, period: PeriodTree<'_>) -> Result<(), AllocError>
        ensures columns { OnOk result (columns_in self.new ≡ columns_in self.old) }
        ensures applications { OnOk result
            (applications_in self.new ≡ applications_in self.old
            ++ application_parts (tree.period_of period.entry ∷ [])) }
        ensures systems { OnOk result
            (systems_in self.new ≡ systems_in self.old ++ system_parts (tree.period_of period.entry ∷ [])) }
        ensures keys { OnOk result (keys_in self.new ≡ keys_in self.old) }
        ensures references { OnOk result (references_in self.new ≡ references_in self.old) }
    {
        match period.name {
            Some(name) => self
                .applications
                .push(new_application(memory, name, period)?)?,
            None => self.systems.push(new_system(memory, period)?)?,
        }
        Ok(())
    }

    /// Adds the constraint, if it is a key or a reference.
    fn add_constraint(
        &mut self,
        memory: Memory,
        names: &mut ConstraintNames,
        written: Option<Name<'_>>,
        constraint: &Constraint<'_>,
    ) -> Result<(), AllocError>
        ensures columns { OnOk result (columns_in self.new ≡ columns_in self.old) }
        ensures applications { OnOk result (applications_in self.new ≡ applications_in self.old) }
        ensures systems { OnOk result (systems_in self.new ≡ systems_in self.old) }
        ensures keys { OnOk result
            (keys_in self.new ≡ keys_in self.old ++ key_parts (tree.constraint_of constraint.now ∷ [])) }
        ensures references { OnOk result
            (references_in self.new ≡ references_in self.old
            ++ reference_parts (tree.constraint_of constraint.now ∷ [])) }
    {
        match constraint {
            Constraint::Key(key) => self.keys.push(new_key(memory, names, written, key)?)?,
            Constraint::Foreign(foreign) => {
                self.references
                    .push(new_reference(memory, names, written, foreign)?)?
            }
            Constraint::Check(_) => {}
        }
        Ok(())
    }

    /// Adds the element, unless it is a check.
    fn add(
        &mut self,
        memory: Memory,
        names: &mut ConstraintNames,
        element: &Element<'a>,
    ) -> Result<(), AllocError>
        ensures columns { OnOk result
            (columns_in self.new ≡ columns_in self.old ++ columns_of (tree.element_of element.now ∷ [])) }
        ensures applications { OnOk result
            (applications_in self.new ≡ applications_in self.old
            ++ application_parts (tree.element_of element.now ∷ [])) }
        ensures systems { OnOk result
            (systems_in self.new ≡ systems_in self.old ++ system_parts (tree.element_of element.now ∷ [])) }
        ensures keys { OnOk result
            (keys_in self.new ≡ keys_in self.old
            ++ key_parts (constraints_of (tree.element_of element.now ∷ []))) }
        ensures references { OnOk result
            (references_in self.new ≡ references_in self.old
            ++ reference_parts (constraints_of (tree.element_of element.now ∷ []))) }
    {
        match element {
            Element::Column(column) => self.columns.push(new_column(memory, *column)?)?,
            Element::Period(period) => self.add_period(memory, *period)?,
            Element::Constraint(name, constraint) => {
                self.add_constraint(memory, names, *name, constraint)?
            }
        }
        Ok(())
    }

    /// Replaces the names of the application periods.
    fn set_names(&mut self, names: PeriodNames)
        ensures columns { columns_in self.new ≡ columns_in self.old }
        ensures applications { applications_in self.new ≡ applications_in self.old }
        ensures systems { systems_in self.new ≡ systems_in self.old }
        ensures keys { keys_in self.new ≡ keys_in self.old }
        ensures references { references_in self.new ≡ references_in self.old }
        ensures names { self.new.names ≡ names }
    {
        self.names = names;
    }
}

/// Returns the columns, periods, keys and references of the statement. The only error is a refused allocation.
#[tactic(auto, using(crate::proofs::Drafts::columns_more, crate::proofs::Drafts::applications_more, crate::proofs::Drafts::systems_more, crate::proofs::Drafts::keys_more, crate::proofs::Drafts::references_more))]
pub fn draft_of<'a>(memory: Memory, create: &CreateTree<'a>) -> Result<Draft<'a>, AllocError>
    ensures columns { IfOk result (λ d. columns_in d ≡ columns_of (elements_in create.now)) }
    ensures applications { IfOk result (λ d. applications_in d ≡ application_parts (elements_in create.now)) }
    ensures systems { IfOk result (λ d. systems_in d ≡ system_parts (elements_in create.now)) }
    ensures keys { IfOk result (λ d. keys_in d ≡ key_parts (constraints_of (elements_in create.now))) }
    ensures references { IfOk result
        (λ d. references_in d ≡ reference_parts (constraints_of (elements_in create.now))) }
    ensures names { IfOk result (λ d. AreNames d.names (names_of_periods (applications_in d))) }
{
    let mut names = ConstraintNames::written(memory, create)?;
    let mut draft = Draft {
        columns: Vec::new(memory),
        applications: Vec::new(memory),
        names: PeriodNames::none(memory),
        systems: Vec::new(memory),
        keys: Vec::new(memory),
        references: Vec::new(memory),
    };
    draft.add(memory, &mut names, &create.first)?;
    for element in &create.more {
        draft.add(memory, &mut names, element)?;
    }
    let periods = period_names(memory, &draft.applications)?;
    draft.set_names(periods);
    Ok(draft)
}

impl NewList {
    /// Returns the byte offset of the column at this position of the list.
    pub fn column_start(&self, place: usize) -> u32 {
        match self.columns.get(place) {
            Some(column) => column.start,
            None => 0,
        }
    }
}
