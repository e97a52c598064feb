//! A plan in words: the access path of each table reference of a query.
use crate::columns::is_key;
use crate::periods::{is_product_within, is_step_within};
use crate::references::joined_reference;
use std::alloc::AllocError;
use std::slice;
use tql_bound::query::Chain;
use tql_bound::reference::Reference;
use tql_catalog::catalog::Catalog;
use tql_catalog::table_def::TableDef;
use tql_detail::shown::{Words, push_behind};
use tql_expr::equality::Equality;
use tql_memory::Memory;
use tql_plan::plan::Plan;
use tql_plan_access::alternatives::Alternatives;
use tql_query_words::calculations::{Names, first_in_on, first_in_where, push_calculation};
use tql_query_words::columns::{
    chain_column, chains_column, column_name, definition_of, is_lone, reference_column,
};
use tql_store_index::basis::Sought;
use tql_syntax_tree::expression::Name;
use tql_syntax_tree::statement::{ChainTree, SelectTree};
use tql_value::when::When;

/// The tables, a select, and the plan that is described.
#[derive(Clone, Copy)]
struct Told<'t, 's, 'r, 'p> {
    memory: Memory,
    catalog: &'t Catalog,
    select: &'t SelectTree<'s>,
    plan: &'r Plan<'p>,
}

/// Appends which versions are read, unless they are the current ones.
fn say_when(when: When, words: &mut Words) -> Result<(), AllocError> {
    match when {
        When::Now => Ok(()),
        When::AsOf(_) => words.push_str(" as of a moment"),
        When::FromTo(_, _) | When::Between(_, _) => words.push_str(" over a range of moments"),
    }
}

/// Returns the alias of a chain's reference, by its number from 0.
fn chain_alias<'s>(chain: &ChainTree<'s>, number: usize) -> Option<Name<'s>> {
    match number.checked_sub(1) {
        None => chain.first.alias,
        Some(at) => joined_reference(chain.joins.get(at)?).alias,
    }
}

/// Returns the alias of a reference, by the number of its chain and its number in the chain, both from 0.
fn alias_at<'s>(select: &SelectTree<'s>, place: usize, number: usize) -> Option<Name<'s>> {
    match place.checked_sub(1) {
        None => chain_alias(&select.first, number),
        Some(at) => chain_alias(select.more.get(at)?, number),
    }
}

/// Appends a table reference: its table, its alias if it has one, and which versions are read.
fn say_reference(
    told: &Told<'_, '_, '_, '_>,
    reference: &Reference,
    place: usize,
    number: usize,
    words: &mut Words,
) -> Result<(), AllocError> {
    if let Some(definition) = definition_of(told.catalog, *reference) {
        push_behind(words, "", definition.name())?;
    }
    if let Some(alias) = alias_at(told.select, place, number) {
        let name = alias.meant(told.memory)?;
        push_behind(words, " ", name.as_str())?;
    }
    say_when(reference.when, words)
}

/// Appends the names of the stored columns with these numbers, in parentheses and with commas between them.
fn say_columns(
    definition: &TableDef,
    stored: &[usize],
    words: &mut Words,
) -> Result<(), AllocError> {
    let mut mark = " (";
    for place in stored {
        let column = definition.assignable().get(*place).copied();
        if let Some(name) = column.and_then(|number| column_name(definition, number)) {
            push_behind(words, mark, name)?;
            mark = ", ";
        }
    }
    words.push_str(")")
}

/// Appends the key or the reference of a table whose columns a lookup uses.
fn say_key(definition: &TableDef, stored: &[usize], words: &mut Words) -> Result<(), AllocError> {
    words.push_str(if is_key(definition, stored) {
        " by its key"
    } else {
        " by its reference"
    })?;
    say_columns(definition, stored, words)
}

/// Appends the key or the reference of a table of whose only column a lookup reads a range.
fn say_range(definition: &TableDef, column: usize, words: &mut Words) -> Result<(), AllocError> {
    let stored = slice::from_ref(&column);
    words.push_str(if is_key(definition, stored) {
        " by a range of its key"
    } else {
        " by a range of its reference"
    })?;
    say_columns(definition, stored, words)
}

/// Appends the application period of a table that a lookup uses.
fn say_period(definition: &TableDef, means: &str, words: &mut Words) -> Result<(), AllocError> {
    words.push_str(means)?;
    match definition.application() {
        Some(application) => push_behind(words, " its period ", application.name.as_str()),
        None => words.push_str(" its period"),
    }
}

/// Appends the access path of the first reference, or of the table of a change.
pub(crate) fn say_sought(
    definition: &TableDef,
    sought: Option<Sought<'_>>,
    words: &mut Words,
) -> Result<(), AllocError> {
    match sought {
        None => words.push_str(" read whole"),
        Some(Sought::With(stored, _)) => say_key(definition, stored, words),
        Some(Sought::WithIn(stored, _, _, _, _)) => {
            say_key(definition, stored, words)?;
            say_period(definition, " and", words)
        }
        Some(Sought::Holding(_, _, _)) => {
            say_period(definition, " by", words)?;
            words.push_str(" (CONTAINS)")
        }
        Some(Sought::Sharing(_, _, _)) => {
            say_period(definition, " by", words)?;
            words.push_str(" (OVERLAPS)")
        }
        Some(Sought::Between(column, _, _)) => say_range(definition, column, words),
    }
}

/// Appends the key or the reference of a table in whose only column several values are looked up.
pub(crate) fn say_alternatives(
    definition: &TableDef,
    alternatives: &Alternatives<'_>,
    words: &mut Words,
) -> Result<(), AllocError> {
    let stored = slice::from_ref(&alternatives.column);
    let owner = if is_key(definition, stored) {
        "key"
    } else {
        "reference"
    };
    let count = alternatives.values.len();
    let plural = if count == 1 { "" } else { "s" };
    write!(words, " by {count} value{plural} of its {owner}")?;
    say_columns(definition, stored, words)
}

/// Two columns that a join equates: the name of a column of the rows on the left, and the number and the name of a
/// column of the joined table.
#[derive(Clone, Copy)]
struct Equal<'t> {
    near: &'t str,
    number: usize,
    far: &'t str,
}

/// Appends `means` and the two columns, or the common name if they have the same name.
fn say_equal(means: &str, equal: Equal<'_>, words: &mut Words) -> Result<(), AllocError> {
    push_behind(words, means, equal.near)?;
    if equal.near == equal.far {
        Ok(())
    } else {
        push_behind(words, " = ", equal.far)
    }
}

/// Appends the columns of the table's index that the join can use, in parentheses if there are several.
fn say_index(
    definition: &TableDef,
    columns: &[usize],
    words: &mut Words,
) -> Result<(), AllocError> {
    let is_one = columns.len() == 1;
    let mut mark = if is_one {
        " by index on "
    } else {
        " by index on ("
    };
    for number in columns {
        if let Some(name) = column_name(definition, *number) {
            push_behind(words, mark, name)?;
            mark = ", ";
        }
    }
    if is_one { Ok(()) } else { words.push_str(")") }
}

/// Whether the list consists of this column alone.
fn is_alone(columns: &[usize], number: usize) -> bool {
    match columns {
        [column] => *column == number,
        _ => false,
    }
}

/// Appends the join method: an index on equated columns, a map on one equated column, the index of periods, or a
/// comparison of all pairs.
fn say_partners(
    definition: Option<&TableDef>,
    key: Option<&[usize]>,
    equal: Option<Equal<'_>>,
    is_within: bool,
    words: &mut Words,
) -> Result<(), AllocError> {
    match (definition, key, equal) {
        (Some(definition), Some(columns), Some(equal)) => {
            if is_alone(columns, equal.number) {
                say_equal(" by index on ", equal, words)
            } else {
                say_index(definition, columns, words)
            }
        }
        (_, _, Some(equal)) => say_equal(" by map on ", equal, words),
        (Some(definition), _, None) if is_within => {
            say_period(definition, " by index on", words)
        }
        (_, _, None) => words.push_str(" by pairs"),
    }
}

impl<'t, 'p> Told<'t, '_, '_, 'p> {
    /// Returns the equality that joins the chain at this index to the chains before it, if any.
    fn chain_equality(&self, place: usize) -> Option<Equality> {
        if place.saturating_add(1) >= self.plan.query.chains.len() {
            self.plan.equality
        } else {
            self.plan.products.get(place)?.equality
        }
    }

    /// Returns the columns of the index that the join can use, if any.
    fn chain_key(&self, place: usize) -> Option<&'p [usize]> {
        if place.saturating_add(1) >= self.plan.query.chains.len() {
            self.plan.key
        } else {
            self.plan.products.get(place)?.key
        }
    }

    /// Returns the columns that the equality equates.
    fn chain_equal(&self, place: usize, chain: &Chain) -> Option<Equal<'t>> {
        let equality = self.chain_equality(place)?;
        Some(Equal {
            near: chains_column(self.catalog, &self.plan.query.chains, equality.near)?,
            number: equality.far,
            far: chain_column(self.catalog, chain, equality.far)?,
        })
    }

    /// Appends the join method of a chain with the chains before it.
    fn say_product(
        &self,
        place: usize,
        chain: &Chain,
        words: &mut Words,
    ) -> Result<(), AllocError> {
        say_partners(
            definition_of(self.catalog, chain.first),
            self.chain_key(place),
            self.chain_equal(place, chain),
            is_product_within(self.plan, place),
            words,
        )
    }

    /// Appends the joins of a chain, each after a comma.
    fn say_joins(&self, place: usize, chain: &Chain, words: &mut Words) -> Result<(), AllocError> {
        for (at, join) in chain.joins.iter().enumerate() {
            words.push_str(", ")?;
            say_reference(self, &join.reference, place, at.saturating_add(1), words)?;
            self.say_step(place, at, chain, &join.reference, words)?;
        }
        Ok(())
    }

    /// Returns the equality that joins a reference to the references before it in its chain, if any.
    fn step_equality(&self, place: usize, at: usize) -> Option<Equality> {
        self.plan.chains.get(place)?.joins.get(at)?.equality
    }

    /// Returns the columns of the index that the join can use, if any.
    fn step_key(&self, place: usize, at: usize) -> Option<&'p [usize]> {
        self.plan.chains.get(place)?.joins.get(at)?.key
    }

    /// Returns the columns that the equality equates.
    fn step_equal(
        &self,
        place: usize,
        at: usize,
        chain: &Chain,
        reference: &Reference,
    ) -> Option<Equal<'t>> {
        let equality = self.step_equality(place, at)?;
        Some(Equal {
            near: chain_column(self.catalog, chain, equality.near)?,
            number: equality.far,
            far: reference_column(self.catalog, *reference, equality.far)?,
        })
    }

    /// Appends the join method of a join.
    fn say_step(
        &self,
        place: usize,
        at: usize,
        chain: &Chain,
        reference: &Reference,
        words: &mut Words,
    ) -> Result<(), AllocError> {
        say_partners(
            definition_of(self.catalog, *reference),
            self.step_key(place, at),
            self.step_equal(place, at, chain, reference),
            is_step_within(self.plan, chain, place, at),
            words,
        )
    }

    /// Appends the first reference of the first chain, and its access path.
    fn say_first(&self, reference: &Reference, words: &mut Words) -> Result<(), AllocError> {
        say_reference(self, reference, 0, 0, words)?;
        match definition_of(self.catalog, *reference) {
            Some(definition) => match &self.plan.alternatives {
                Some(alternatives) => say_alternatives(definition, alternatives, words),
                None => say_sought(definition, self.plan.access.sought(), words),
            },
            None => Ok(()),
        }
    }

    /// Appends a chain after others: a single reference as it is, several in parentheses.
    fn say_next(&self, place: usize, chain: &Chain, words: &mut Words) -> Result<(), AllocError> {
        if chain.joins.is_empty() {
            words.push_str(", ")?;
            say_reference(self, &chain.first, place, 0, words)?;
        } else {
            words.push_str(", (")?;
            say_reference(self, &chain.first, place, 0, words)?;
            words.push_str(" read whole")?;
            self.say_joins(place, chain, words)?;
            words.push_str(")")?;
        }
        self.say_product(place, chain, words)
    }

    /// Appends the chain at an index.
    fn say_chain(&self, place: usize, chain: &Chain, words: &mut Words) -> Result<(), AllocError> {
        if place == 0 {
            self.say_first(&chain.first, words)?;
            self.say_joins(place, chain, words)
        } else {
            self.say_next(place, chain, words)
        }
    }

    /// Returns the qualifier of a reference's columns: its alias, or the name of its table.
    fn qualifier(
        &self,
        place: usize,
        number: usize,
        reference: &Reference,
    ) -> Result<Words, AllocError> {
        match (
            alias_at(self.select, place, number),
            definition_of(self.catalog, *reference),
        ) {
            (Some(alias), _) => alias.meant(self.memory),
            (None, Some(definition)) => String::from_str(self.memory, definition.name()),
            (None, None) => Ok(String::new(self.memory)),
        }
    }

    /// Appends the qualifiers of a chain's references.
    fn add_qualifiers(
        &self,
        place: usize,
        chain: &Chain,
        names: &mut Vec<Words, Memory>,
    ) -> Result<(), AllocError> {
        names.push(self.qualifier(place, 0, &chain.first)?)?;
        for (at, join) in chain.joins.iter().enumerate() {
            let name = self.qualifier(place, at.saturating_add(1), &join.reference)?;
            names.push(name)?;
        }
        Ok(())
    }

    /// Returns the qualifiers of all references, from the left. Empty if there is only one.
    fn qualifiers(&self) -> Result<Vec<Words, Memory>, AllocError> {
        let mut names = Vec::new(self.memory);
        if is_lone(&self.plan.query.chains) {
            return Ok(names);
        }
        for (place, chain) in self.plan.query.chains.iter().enumerate() {
            self.add_qualifiers(place, chain, &mut names)?;
        }
        Ok(names)
    }

    /// Appends the first calculation of ON and WHERE.
    fn say_calculation(&self, words: &mut Words) -> Result<(), AllocError> {
        let query = self.plan.query;
        let qualifiers = self.qualifiers()?;
        let names = Names {
            catalog: self.catalog,
            qualifiers: &qualifiers,
        };
        if let Some(calculation) = first_in_on(query) {
            return push_calculation(words, &names, &query.terms, calculation);
        }
        match first_in_where(query) {
            Some(calculation) => push_calculation(words, &names, &query.terms, calculation),
            None => Ok(()),
        }
    }

    /// Appends the calculation that may be out of range, if the plan is unsafe and the first reference has no lookup.
    fn say_reason(&self, words: &mut Words) -> Result<(), AllocError> {
        let is_found = self.plan.access.sought().is_some() || self.plan.alternatives.is_some();
        if self.plan.is_safe || is_found {
            return Ok(());
        }
        words.push_str(", since ")?;
        self.say_calculation(words)?;
        words.push_str(" may be out of range")
    }

    /// Describes the plan.
    fn words(&self) -> Result<Words, AllocError> {
        let mut words = String::new(self.memory);
        for (place, chain) in self.plan.query.chains.iter().enumerate() {
            self.say_chain(place, chain, &mut words)?;
        }
        self.say_reason(&mut words)?;
        Ok(words)
    }
}

/// Describes the plan of a select over these tables: the access path of each table reference, from the left. The first
/// reference uses a key, a reference or the application period of its table, or is read whole. Each other reference is
/// joined by an index or a map on columns that ON or WHERE equates with earlier ones, or by comparing all pairs. The
/// index is not used for many outer rows. If a calculation in ON or WHERE may be out of range and the first reference
/// has no lookup, the first calculation is named. The only error is a refused allocation.
pub fn plan_words(
    memory: Memory,
    catalog: &Catalog,
    select: &SelectTree<'_>,
    plan: &Plan<'_>,
) -> Result<Words, AllocError> {
    let told = Told {
        memory,
        catalog,
        select,
        plan,
    };
    told.words()
}
