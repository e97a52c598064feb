//! The names by which the references of FROM are known.
ghost use Rattle.std.specs.Prelude.{◌≡◌, ◌∷◌, IfOk, map, string_bytes};
ghost use Rattle.tql_syntax_tree.specs.Statements.{chain_of};
ghost use Rattle.tql_bind_query.specs.From.{names_in, names_of};

use crate::joins::joined_reference;
use crate::references::known_as;
use std::alloc::AllocError;
use tql_memory::Memory;
use tql_syntax_tree::statement::ChainTree;

/// Returns the names of the references of a chain, from the left.
fn chain_names(
    memory: Memory,
    written: &ChainTree<'_>,
) -> Result<Vec<String<Memory>, Memory>, AllocError>
    ensures { IfOk result (λ v. map string_bytes v.items ≡ names_in (chain_of written.now)) }
{
    let mut names: Vec<String<Memory>, Memory> = Vec::new(memory);
    names.push(known_as(memory, written.first)?)?;
    for join in &written.joins {
        names.push(known_as(memory, joined_reference(join))?)?;
    }
    Ok(names)
}

/// Returns the names by which the references of FROM are known, a list for each chain: the first and the later ones.
/// The only error is a refused allocation.
pub fn reference_names(
    memory: Memory,
    first: &ChainTree<'_>,
    more: &[ChainTree<'_>],
) -> Result<Vec<Vec<String<Memory>, Memory>, Memory>, AllocError>
    ensures { IfOk result (λ v. names_of v.items ≡ map names_in (chain_of first.now ∷ map chain_of more.now)) }
{
    let mut all: Vec<Vec<String<Memory>, Memory>, Memory> = Vec::new(memory);
    all.push(chain_names(memory, first)?)?;
    for written in more {
        all.push(chain_names(memory, written)?)?;
    }
    Ok(all)
}
