//! Lookup of tables by name, and tables as references in scope.
ghost use Rattle.std.specs.Prelude.{◌≡◌, ◌<◌, ◌+◌, ◌^◌, length, IfOk};
ghost use Rattle.tql_spec.specs.Binding as binding;
ghost use Rattle.tql_spec.specs.Words.{listed};
ghost use Rattle.tql_catalog.specs.Tables.{definitions_of};
ghost use Rattle.tql_syntax_tree.specs.Expressions.{name_of};
ghost use Rattle.tql_bind_expr.specs.Gathered.{Gathers};
ghost use Rattle.tql_bind_expr.specs.Scopes.{known_of};

use crate::about::{About, Cause};
use crate::faults::Faults;
use crate::scope::Known;
use crate::texts::meant;
use std::alloc::AllocError;
use tql_catalog::catalog::Catalog;
use tql_catalog::table_def::TableDef;
use tql_memory::Memory;
use tql_syntax_tree::expression::Name;
use tql_value::refusal::Refusal;

/// Returns the index of a table. If there is none, adds a fault and returns 0 as a placeholder.
#[tactic(auto, using(crate::proofs::Gathering::gathering))]
fn or_no_table(start: u32, place: Option<usize>, faults: &mut Faults) -> usize
    ensures { Gathers (binding.or_no_table place) faults.old faults.new result }
{
    match place {
        Some(place) => place,
        None => {
            faults.refuse_if(
                true,
                Refusal::TableUnknownOrAlreadyThere,
                About::at(Cause::NoTable, start),
            );
            0
        }
    }
}

/// Returns the index of the table of this name in the catalog. Adds a fault if there is none.
pub fn table_number(
    memory: Memory,
    catalog: &Catalog,
    name: Name<'_>,
    faults: &mut Faults,
) -> Result<usize, AllocError>
    ensures { IfOk result
        (λ place. Gathers (binding.table_number (definitions_of catalog.now) (name_of name.entry))
        faults.old faults.new place) }
{
    let start = name.start;
    let name = meant(memory, name)?;
    Ok(or_no_table(start, catalog.place_of(&name), faults))
}

/// Returns a table as a reference in scope: with the name by which it is known, the index of its first column, and the
/// byte offset of the name.
pub fn known_table<'a>(name: &'a str, table: &'a TableDef, offset: usize, start: u32) -> Known<'a>
    requires { offset + length table.now.columns < 2 ^ 64 }
    ensures known { known_of result ≡ record {
      name = name.now;
      columns = table.now.columns;
      applications = listed table.now.application;
      system = table.now.system;
      offset = offset;
    } }
    ensures columns { length result.columns.now ≡ length table.now.columns }
    ensures offset { result.offset ≡ offset }
{
    Known {
        name,
        columns: table.columns(),
        applications: table.applications(),
        system: table.system(),
        offset,
        start,
    }
}
