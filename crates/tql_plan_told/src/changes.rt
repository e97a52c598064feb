//! The access path of an UPDATE or DELETE in words.
use crate::told::{say_alternatives, say_sought};
use std::alloc::AllocError;
use tql_catalog::table_def::TableDef;
use tql_detail::shown::Words;
use tql_memory::Memory;
use tql_plan_access::alternatives::Alternatives;
use tql_store_index::basis::Sought;

/// Describes how a change finds the rows of its table: by a lookup, else by several values that are looked up, else it
/// reads all rows. The only error is a refused allocation.
pub fn change_words(
    memory: Memory,
    definition: &TableDef,
    sought: Option<Sought<'_>>,
    alternatives: Option<&Alternatives<'_>>,
) -> Result<Words, AllocError> {
    let mut words = String::new(memory);
    words.push_str(definition.name())?;
    match (sought, alternatives) {
        (None, Some(found)) => say_alternatives(definition, found, &mut words)?,
        _ => say_sought(definition, sought, &mut words)?,
    }
    Ok(words)
}
