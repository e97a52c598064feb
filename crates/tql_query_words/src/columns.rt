//! The names of the columns of a query's rows, by their numbers.
use std::alloc::AllocError;
use tql_bound::query::Chain;
use tql_bound::reference::Reference;
use tql_catalog::catalog::Catalog;
use tql_catalog::table_def::TableDef;
use tql_detail::shown::Words;
use tql_memory::Memory;

/// A column of the concatenated rows of table references.
#[derive(Clone, Copy)]
pub struct Place {
    /// The table reference that has the column.
    pub reference: Reference,
    /// The number of that reference from the left, from 0.
    pub number: usize,
    /// The number of the column in its table.
    pub column: usize,
}

/// Returns the definition of a reference's table.
pub fn definition_of(catalog: &Catalog, reference: Reference) -> Option<&TableDef> {
    if reference.table < catalog.len() {
        Some(&catalog.table(reference.table).definition)
    } else {
        None
    }
}

/// Returns the name of a table's column.
pub fn column_name(definition: &TableDef, number: usize) -> Option<&str> {
    let column = definition.columns().get(number)?;
    Some(column.name.as_str())
}

/// Returns the name of a reference's column.
pub fn reference_column(catalog: &Catalog, reference: Reference, number: usize) -> Option<&str> {
    column_name(definition_of(catalog, reference)?, number)
}

/// Returns the table reference of a column of a chain's rows, and its number there. `before` is the number of table
/// references before the chain.
pub fn place_in_chain(chain: &Chain, before: usize, column: usize) -> Option<Place> {
    if column < chain.first.width {
        return Some(Place {
            reference: chain.first,
            number: before,
            column,
        });
    }
    let mut left = column.saturating_sub(chain.first.width);
    let mut number = before;
    for join in &chain.joins {
        let reference = join.reference;
        number = number.saturating_add(1);
        if left < reference.width {
            return Some(Place {
                reference,
                number,
                column: left,
            });
        }
        left = left.saturating_sub(reference.width);
    }
    None
}

/// Returns the number of columns of a chain's rows.
pub fn width_of(chain: &Chain) -> usize {
    let mut width = chain.first.width;
    for join in &chain.joins {
        width = width.saturating_add(join.reference.width);
    }
    width
}

/// Returns the number of table references of a chain.
pub fn references_of(chain: &Chain) -> usize {
    chain.joins.len().saturating_add(1)
}

/// Returns the table reference of a column in the concatenated rows of several chains, and its number there.
pub fn place_in_chains(chains: &[Chain], column: usize) -> Option<Place> {
    let mut left = column;
    let mut before = 0_usize;
    for chain in chains {
        let width = width_of(chain);
        if left < width {
            return place_in_chain(chain, before, left);
        }
        left = left.saturating_sub(width);
        before = before.saturating_add(references_of(chain));
    }
    None
}

/// Returns the name of a column of a chain's rows.
pub fn chain_column<'c>(catalog: &'c Catalog, chain: &Chain, number: usize) -> Option<&'c str> {
    let place = place_in_chain(chain, 0, number)?;
    reference_column(catalog, place.reference, place.column)
}

/// Returns the name of a column in the concatenated rows of several chains.
pub fn chains_column<'c>(catalog: &'c Catalog, chains: &[Chain], number: usize) -> Option<&'c str> {
    let place = place_in_chains(chains, number)?;
    reference_column(catalog, place.reference, place.column)
}

/// Whether there is only one table reference.
pub fn is_lone(chains: &[Chain]) -> bool {
    match chains {
        [chain] => chain.joins.is_empty(),
        _ => false,
    }
}

/// Appends the name of a reference's table.
fn add_table_name(
    memory: Memory,
    catalog: &Catalog,
    reference: Reference,
    names: &mut Vec<Words, Memory>,
) -> Result<(), AllocError> {
    let name = match definition_of(catalog, reference) {
        Some(definition) => definition.name(),
        None => "",
    };
    names.push(String::from_str(memory, name)?)?;
    Ok(())
}

/// Appends the names of the tables of a chain's references.
fn add_chain_names(
    memory: Memory,
    catalog: &Catalog,
    chain: &Chain,
    names: &mut Vec<Words, Memory>,
) -> Result<(), AllocError> {
    add_table_name(memory, catalog, chain.first, names)?;
    for join in &chain.joins {
        add_table_name(memory, catalog, join.reference, names)?;
    }
    Ok(())
}

/// Returns the names of the tables of all references, from the left. Empty if there is only one. The only error is a
/// refused allocation.
pub fn table_names(
    memory: Memory,
    catalog: &Catalog,
    chains: &[Chain],
) -> Result<Vec<Words, Memory>, AllocError> {
    let mut names = Vec::new(memory);
    if is_lone(chains) {
        return Ok(names);
    }
    for chain in chains {
        add_chain_names(memory, catalog, chain, &mut names)?;
    }
    Ok(names)
}
