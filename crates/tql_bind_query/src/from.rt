//! The bound chains of FROM, and the references in scope of each.
ghost use Rattle.std.specs.Prelude.{◌≡◌, ◌≤◌, ◌+◌, ◌∷◌, All, IfOk, length, map, string_bytes, sum_by};
ghost use Rattle.tql_spec.specs.Binding as binding;
ghost use Rattle.tql_spec.specs.Definition.{no_table};
ghost use Rattle.tql_spec.specs.Names.{check_each};
ghost use Rattle.tql_spec.specs.Syntax.{chain_length};
ghost use Rattle.tql_catalog.specs.Tables.{definitions_of};
ghost use Rattle.tql_expr.specs.Meaning.{Stays};
ghost use Rattle.tql_syntax_tree.specs.Statements.{chain_of, ref_of};
ghost use Rattle.tql_bind_expr.specs.Gathered.{Gathers};
ghost use Rattle.tql_bind_expr.specs.Scopes.{scope_of};
ghost use Rattle.tql_bind_query.specs.From.{linked_of, name_in, names_in, names_of, BeginsChain, BindsChain, HasJoins};
ghost use Rattle.tql_bind_query.specs.From.{IsPlaced, PushesChain};

use crate::joins::add_join;
use crate::sources::bound_source;
use std::alloc::AllocError;
use tql_bind_expr::faults::Faults;
use tql_bind_expr::scope::Known;
use tql_bound::query::Chain;
use tql_catalog::catalog::Catalog;
use tql_catalog::table_def::TableDef;
use tql_expr::terms::Terms;
use tql_memory::Memory;
use tql_syntax_tree::statement::{ChainTree, RefTree};

/// A bound chain of FROM, its references, and its number of columns. Column numbers are counted from the chain's first.
#[derive(Drop)]
pub struct Linked<'a> {
    pub chain: Chain,
    pub scope: Vec<Known<'a>, Memory>,
    pub width: usize,
}

/// Binds the first reference of a chain, as a chain of its own.
fn first_linked<'a>(
    memory: Memory,
    catalog: &'a Catalog,
    nothing: &'a TableDef,
    name: &'a str,
    written: RefTree<'_>,
    faults: &mut Faults,
) -> Result<Linked<'a>, AllocError>
    requires nothing { nothing.now ≡ no_table }
    requires named { name.now ≡ name_in (ref_of written) }
    requires narrow { All (λ d. length d.columns ≤ 64) (definitions_of catalog.now) }
    ensures bound { IfOk result
        (λ l. BeginsChain (definitions_of catalog.now) (ref_of written.entry) faults.old faults.new l) }
{
    let source = bound_source(memory, catalog, nothing, name, 0, written, faults)?;
    let mut scope: Vec<Known<'a>, Memory> = Vec::new(memory);
    scope.push(source.known)?;
    Ok(Linked {
        chain: Chain {
            first: source.reference,
            joins: Vec::new(memory),
        },
        scope,
        width: source.reference.width,
    })
}

/// Binds a chain whose references are known by these names.
fn bound_chain<'a>(
    memory: Memory,
    catalog: &'a Catalog,
    nothing: &'a TableDef,
    names: &'a [String<Memory>],
    written: &ChainTree<'_>,
    terms: &mut Terms,
    faults: &mut Faults,
) -> Result<Linked<'a>, AllocError>
    requires nothing { nothing.now ≡ no_table }
    requires named { map string_bytes names.now ≡ names_in (chain_of written.now) }
    requires few { chain_length (chain_of written.now) ≤ 8 }
    requires narrow { All (λ d. length d.columns ≤ 64) (definitions_of catalog.now) }
    ensures binds { IfOk result
        (λ l. BindsChain (definitions_of catalog.now) (chain_of written.now) faults.old faults.new terms.new l) }
    ensures stays { Stays terms.old terms.new }
{
    let mut linked = first_linked(
        memory,
        catalog,
        nothing,
        names[0].as_str(),
        written.first,
        faults,
    )?;
    for join in &written.joins {
        let name = names[linked.scope.len()].as_str();
        add_join(
            memory,
            catalog,
            nothing,
            name,
            join,
            &mut linked,
            terms,
            faults,
        )?;
    }
    Ok(linked)
}

/// Binds a chain and adds it after the bound ones.
fn push_chain<'a>(
    memory: Memory,
    catalog: &'a Catalog,
    nothing: &'a TableDef,
    names: &'a [String<Memory>],
    written: &ChainTree<'_>,
    all: &mut Vec<Linked<'a>, Memory>,
    terms: &mut Terms,
    faults: &mut Faults,
) -> Result<(), AllocError>
    requires nothing { nothing.now ≡ no_table }
    requires named { map string_bytes names.now ≡ names_in (chain_of written.now) }
    requires few { chain_length (chain_of written.now) ≤ 8 }
    requires narrow { All (λ d. length d.columns ≤ 64) (definitions_of catalog.now) }
    ensures pushes { IfOk result
        (λ _. PushesChain (definitions_of catalog.now) (chain_of written.now) faults.old faults.new
        terms.new all.old.items all.new.items) }
    ensures stays { Stays terms.old terms.new }
{
    let linked = bound_chain(memory, catalog, nothing, names, written, terms, faults)?;
    all.push(linked)?;
    Ok(())
}

/// Binds the chains of FROM, from the left: the first and the later ones, whose references are known by these names
/// (ISO/IEC 9075-2:2011, 7.5 and 7.7). If a table is not found, `nothing` takes its place. Faults: no table has the
/// name; FOR SYSTEM_TIME on a table that is not system-versioned; a literal that is no moment or is out of range; in an
/// ON, a name that is unknown or ambiguous, kinds that do not fit, or an aggregate. The only error is a refused
/// allocation.
pub fn chains<'a>(
    memory: Memory,
    catalog: &'a Catalog,
    nothing: &'a TableDef,
    names: &'a [Vec<String<Memory>, Memory>],
    first: &ChainTree<'_>,
    more: &[ChainTree<'_>],
    terms: &mut Terms,
    faults: &mut Faults,
) -> Result<Vec<Linked<'a>, Memory>, AllocError>
    requires nothing { nothing.now ≡ no_table }
    requires named { names_of names.now ≡ map names_in (chain_of first.now ∷ map chain_of more.now) }
    requires few { chain_length (chain_of first.now) + sum_by chain_length (map chain_of more.now) ≤ 8 }
    requires narrow { All (λ d. length d.columns ≤ 64) (definitions_of catalog.now) }
    ensures bound { IfOk result
        (λ v. Gathers (check_each (binding.chain (definitions_of catalog.now))
        (chain_of first.now ∷ map chain_of more.now)) faults.old faults.new (map (linked_of terms.new) v.items)) }
    ensures stays { Stays terms.old terms.new }
    ensures held { IfOk result (λ v. All (HasJoins terms.new) v.items) }
    ensures placed { IfOk result (λ v. All IsPlaced v.items) }
    ensures narrow { IfOk result (λ v. sum_by (λ l. l.width) v.items ≤ 512) }
{
    let mut all: Vec<Linked<'a>, Memory> = Vec::new(memory);
    push_chain(
        memory, catalog, nothing, &names[0], first, &mut all, terms, faults,
    )?;
    for written in more {
        push_chain(
            memory,
            catalog,
            nothing,
            &names[all.len()],
            written,
            &mut all,
            terms,
            faults,
        )?;
    }
    Ok(all)
}
