//! A table reference: the versions that it reads, and the name by which it is known.
ghost use Rattle.std.specs.Prelude.{◌≡◌, IfOk, is_none, string_bytes};
ghost use Rattle.tql_spec.specs.Binding as binding;
ghost use Rattle.tql_spec.specs.Names.{refuse_if};
ghost use Rattle.tql_spec.specs.Refusal.{FormNotAllowedHere};
ghost use Rattle.tql_value.specs.When.{when_of};
ghost use Rattle.tql_syntax_tree.specs.Statements.{ref_of, span_of};
ghost use Rattle.tql_bind_expr.specs.Gathered.{Gathers};

use std::alloc::AllocError;
use tql_bind_expr::about::{About, Cause};
use tql_bind_expr::faults::Faults;
use tql_bind_expr::moments::moment;
use tql_bind_expr::texts::meant;
use tql_catalog::table_def::TableDef;
use tql_memory::Memory;
use tql_syntax_tree::statement::{RefTree, SpanTree};
use tql_value::refusal::Refusal;
use tql_value::when::When;

/// Adds a fault if the table is not system-versioned.
fn refuse_unversioned(definition: &TableDef, start: u32, faults: &mut Faults)
    ensures { Gathers (refuse_if (is_none definition.now.system) FormNotAllowedHere) faults.old faults.new tt }
{
    faults.refuse_if(
        !definition.is_versioned(),
        Refusal::FormNotAllowedHere,
        About::at(Cause::NotVersioned, start),
    );
}

/// Binds a FOR SYSTEM_TIME clause: the versions that it selects (ISO/IEC 9075-2:2011, 7.6). The name of its table is at
/// `start`. Faults: the table is not system-versioned; a literal is no moment. The only error is a refused allocation.
pub fn when(
    memory: Memory,
    definition: &TableDef,
    start: u32,
    span: SpanTree<'_>,
    faults: &mut Faults,
) -> Result<When, AllocError>
    ensures { IfOk result
        (λ w. Gathers (binding.when definition.now (span_of span.entry)) faults.old faults.new (when_of w)) }
{
    match span {
        SpanTree::None => Ok(When::Now),
        SpanTree::AsOf(point) => {
            refuse_unversioned(definition, start, faults);
            let point = moment(memory, start, point, faults)?;
            Ok(When::AsOf(point))
        }
        SpanTree::FromTo(from, to) => {
            refuse_unversioned(definition, start, faults);
            let from = moment(memory, start, from, faults)?;
            let to = moment(memory, start, to, faults)?;
            Ok(When::FromTo(from, to))
        }
        SpanTree::Between(from, to) => {
            refuse_unversioned(definition, start, faults);
            let from = moment(memory, start, from, faults)?;
            let to = moment(memory, start, to, faults)?;
            Ok(When::Between(from, to))
        }
    }
}

/// Returns the name by which a reference is known: its alias, or its table's name. The only error is a refused
/// allocation.
pub fn known_as(memory: Memory, reference: RefTree<'_>) -> Result<String<Memory>, AllocError>
    ensures { IfOk result
        (λ name. string_bytes name ≡ binding.known_as (ref_of reference.entry) (ref_of reference.entry).alias) }
{
    match reference.alias {
        Some(alias) => meant(memory, alias),
        None => meant(memory, reference.table),
    }
}
