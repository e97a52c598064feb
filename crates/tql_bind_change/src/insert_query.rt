//! Name binding of an INSERT from a query.
ghost use Rattle.std.specs.Prelude.{◌≤◌, All, IfOk, length, map};
ghost use Rattle.tql_spec.specs.Binding as binding;
ghost use Rattle.tql_spec.specs.Machine.{ChangeRows};
ghost use Rattle.tql_spec.specs.Syntax.{reference_count};
ghost use Rattle.tql_bound.specs.Changes.{query_insertion_of};
ghost use Rattle.tql_catalog.specs.Tables.{definitions_of};
ghost use Rattle.tql_syntax_tree.specs.Expressions.{name_of};
ghost use Rattle.tql_syntax_tree.specs.Statements.{select_of};
ghost use Rattle.tql_bind_expr.specs.Gathered.{Gathers};

use crate::columns::{insert_columns, kinds_for};
use crate::tuples::cells_misfit;
use std::alloc::AllocError;
use tql_bind_expr::about::{About, Cause};
use tql_bind_expr::faults::Faults;
use tql_bind_expr::kinds::is_other_kind;
use tql_bind_expr::tables::table_number;
use tql_bind_query::query::{TypedQuery, bound_query};
use tql_bound::change::QueryInsertion;
use tql_catalog::catalog::Catalog;
use tql_catalog::table_def::TableDef;
use tql_memory::Memory;
use tql_syntax_tree::expression::Name;
use tql_syntax_tree::statement::{OrderTree, SelectTree};
use tql_value::refusal::Refusal;
use tql_value::value::Kind;

/// Returns the cause and place of the fault that a query does not give one column of the right type for each that is
/// filled. The name of the table is at `start`.
fn misfit(start: u32, wanted: &[Kind], kinds: &[Option<Kind>]) -> About {
    for (number, (column, output)) in wanted.iter().zip(kinds.iter()).enumerate() {
        if is_other_kind(*column, *output) {
            return About::at(Cause::OutputKind, start)
                .kinds(*output, Some(*column))
                .counts(number, 0);
        }
    }
    About::at(Cause::OutputCount, start).counts(kinds.len(), wanted.len())
}

/// Binds an INSERT of the rows of a query into the table of this name. `names` is its list of columns; without a list
/// it fills all columns that are not generated. Faults: no table has the name; a column of the list is unknown,
/// repeated or generated; those of the query; the query has more or fewer output columns than are filled, or one of
/// another kind. The only error is a refused allocation.
pub fn insert_select(
    memory: Memory,
    catalog: &Catalog,
    table: Name<'_>,
    names: &[Name<'_>],
    select: &SelectTree<'_>,
    faults: &mut Faults,
) -> Result<QueryInsertion, AllocError>
    requires few { reference_count (select_of select.now) ≤ 8 }
    requires narrow { All (λ d. length d.columns ≤ 64) (definitions_of catalog.now) }
    ensures { IfOk result (λ insertion. Gathers
        (binding.insert_select (definitions_of catalog.now) (name_of table.entry)
        (map name_of names.now) (select_of select.now))
        faults.old faults.new (ChangeRows (query_insertion_of insertion))) }
{
    let place = table_number(memory, catalog, table, faults)?;
    let nothing = TableDef::nothing(memory);
    let definition = (&*catalog).definition_or(place, &nothing);
    let columns = insert_columns(memory, definition, names, faults)?;
    let wanted = kinds_for(memory, definition, &columns)?;
    let keys: &[OrderTree<'_>] = &[];
    let TypedQuery { query, kinds } = bound_query(memory, catalog, select, keys, faults)?;
    faults.refuse_if(
        cells_misfit(&wanted, &kinds),
        Refusal::TypesDoNotFit,
        misfit(table.start, &wanted, &kinds),
    );
    Ok(QueryInsertion {
        table: place,
        columns,
        query,
    })
}
