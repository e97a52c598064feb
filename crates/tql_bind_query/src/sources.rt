//! Table references with their tables bound.
ghost use Rattle.std.specs.Prelude.{◌≡◌, ◌<◌, ◌≤◌, ◌+◌, ◌^◌, All, IfOk, length};
ghost use Rattle.tql_spec.specs.Binding as binding;
ghost use Rattle.tql_spec.specs.Definition.{no_table};
ghost use Rattle.tql_catalog.specs.Tables.{definitions_of};
ghost use Rattle.tql_syntax_tree.specs.Statements.{ref_of};
ghost use Rattle.tql_bind_expr.specs.Gathered.{Gathers};
ghost use Rattle.tql_bind_query.specs.From.{name_in, source_of};

use crate::references::when;
use std::alloc::AllocError;
use tql_bind_expr::faults::Faults;
use tql_bind_expr::scope::Known;
use tql_bind_expr::tables::{known_table, table_number};
use tql_bound::reference::Reference;
use tql_catalog::catalog::Catalog;
use tql_catalog::table_def::TableDef;
use tql_memory::Memory;
use tql_syntax_tree::statement::RefTree;

/// A bound table reference, and its entry in the scope.
#[derive(Clone, Copy)]
pub struct BoundReference<'a> {
    pub reference: Reference,
    pub known: Known<'a>,
}

/// Returns the byte offset of the name by which a table reference is known.
fn known_start(written: RefTree<'_>) -> u32 {
    match written.alias {
        Some(alias) => alias.start,
        None => written.table.start,
    }
}

/// Binds a table reference that is known by this name and whose columns are numbered from `offset`. Faults: no table
/// has the name; FOR SYSTEM_TIME on a table that is not system-versioned; a literal is no moment. The only error is a
/// refused allocation.
pub(crate) fn bound_source<'a>(
    memory: Memory,
    catalog: &'a Catalog,
    nothing: &'a TableDef,
    name: &'a str,
    offset: usize,
    written: RefTree<'_>,
    faults: &mut Faults,
) -> Result<BoundReference<'a>, AllocError>
    requires nothing { nothing.now ≡ no_table }
    requires named { name.now ≡ name_in (ref_of written) }
    requires fits { offset + 64 < 2 ^ 64 }
    requires narrow { All (λ d. length d.columns ≤ 64) (definitions_of catalog.now) }
    ensures bound { IfOk result
        (λ s. Gathers (binding.source (definitions_of catalog.now) offset (ref_of written.entry))
        faults.old faults.new (source_of s)) }
    ensures placed { IfOk result (λ s. s.known.offset + length s.known.columns.now ≡ offset + s.reference.width) }
    ensures narrow { IfOk result (λ s. s.reference.width ≤ 64) }
{
    let table = table_number(memory, catalog, written.table, faults)?;
    let definition = catalog.definition_or(table, nothing);
    let when = when(
        memory,
        definition,
        written.table.start,
        written.span,
        faults,
    )?;
    let reference = Reference {
        table,
        when,
        width: definition.columns().len(),
    };
    let known = known_table(name, definition, offset, known_start(written));
    Ok(BoundReference { reference, known })
}
