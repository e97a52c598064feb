//! Binding of DROP TABLE.
ghost use Rattle.std.specs.Prelude.{IfOk, option_map};
ghost use Rattle.tql_spec.specs.Binding.{bind};
ghost use Rattle.tql_spec.specs.Machine.{DropTable};
ghost use Rattle.tql_spec.specs.Syntax.{DropTree};
ghost use Rattle.tql_spec.specs.Names as names;
ghost use Rattle.tql_spec.specs.Words.{listed};
ghost use Rattle.tql_catalog.specs.Tables.{definitions_of};
ghost use Rattle.tql_syntax_tree.specs.Expressions.{name_of};
ghost use Rattle.tql_bind_expr.specs.Gathered.{Gathers};
ghost use Rattle.tql_value.specs.Refusals.{refusal_of};

use std::alloc::AllocError;
use tql_bind_expr::about::{About, Cause};
use tql_bind_expr::faults::Faults;
use tql_bind_expr::texts::meant;
use tql_catalog::catalog::Catalog;
use tql_memory::Memory;
use tql_syntax_tree::expression::Name;
use tql_value::refusal::Refusal;

/// Returns what the fault of DROP TABLE is about: the table at this index, whose name is at `start`.
fn about_drop(tables: &Catalog, place: Option<usize>, start: u32) -> About {
    let Some(place) = place else {
        return About::at(Cause::NoTable, start);
    };
    if tables.len() <= place {
        return About::unknown();
    }
    match tables.referring(place).first() {
        Some(child) => About::at(Cause::TableReferenced, start).counts(*child, 0),
        None => About::unknown(),
    }
}

/// Adds a fault, if there is one.
#[tactic(auto, using(tql_bind_expr::proofs::Gathering::gathering))]
fn refuse_for(fault: Option<Refusal>, about: About, faults: &mut Faults)
    ensures { Gathers (names.refuse_for (listed (option_map refusal_of fault))) faults.old faults.new tt }
{
    if let Some(fault) = fault {
        faults.refuse_if(true, fault, about);
    }
}

/// Returns the index of the table to drop. Adds the fault that the catalog reports: no table has the name, or a
/// reference names the table. The only error is a refused allocation.
pub(crate) fn bind_drop(
    memory: Memory,
    tables: &Catalog,
    name: Name<'_>,
    faults: &mut Faults,
) -> Result<usize, AllocError>
    ensures { IfOk result
        (λ t. Gathers (bind (definitions_of tables.now) (DropTree (name_of name.entry)))
        faults.old faults.new (DropTable t)) }
{
    let start = name.start;
    let name = meant(memory, name)?;
    let place = tables.place_of(&name);
    let about = about_drop(tables, place, start);
    refuse_for(tables.drop_fault(&name), about, faults);
    Ok(place.unwrap_or(0))
}
