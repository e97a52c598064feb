//! Name binding of an INSERT of tuples.
ghost use Rattle.std.specs.Prelude.{◌∷◌, IfOk, map};
ghost use Rattle.tql_spec.specs.Binding as binding;
ghost use Rattle.tql_spec.specs.Machine.{ChangeRows};
ghost use Rattle.tql_bound.specs.Changes.{insertion_of};
ghost use Rattle.tql_catalog.specs.Tables.{definitions_of};
ghost use Rattle.tql_syntax_tree.specs.Expressions.{name_of};
ghost use Rattle.tql_syntax_tree.specs.Statements.{tuple_of};
ghost use Rattle.tql_bind_expr.specs.Gathered.{Gathers};

use crate::columns::{insert_columns, kinds_for};
use crate::tuples::tuples;
use std::alloc::AllocError;
use tql_bind_expr::faults::Faults;
use tql_bind_expr::tables::table_number;
use tql_bound::change::Insertion;
use tql_catalog::catalog::Catalog;
use tql_catalog::table_def::TableDef;
use tql_expr::terms::Terms;
use tql_memory::Memory;
use tql_syntax_tree::expression::Name;
use tql_syntax_tree::statement::Tuple;

/// Binds an INSERT of tuples, the first and the later ones, into the table of this name. `names` is its list of
/// columns; without a list it fills all columns that are not generated. Faults: no table has the name; a column of the
/// list is unknown, repeated or generated; a cell has a fault of its own; a tuple has more or fewer cells than there
/// are columns, or a cell of another kind than its column.
pub fn insert_values(
    memory: Memory,
    catalog: &Catalog,
    table: Name<'_>,
    names: &[Name<'_>],
    first: &Tuple<'_>,
    more: &[Tuple<'_>],
    faults: &mut Faults,
) -> Result<Insertion, AllocError>
    ensures { IfOk result (λ insertion. Gathers
        (binding.insert_values (definitions_of catalog.now) (name_of table.entry) (map name_of names.now)
        (tuple_of first.now ∷ map tuple_of more.now))
        faults.old faults.new (ChangeRows (insertion_of insertion))) }
{
    let place = table_number(memory, catalog, table, faults)?;
    let nothing = TableDef::nothing(memory);
    let definition = catalog.definition_or(place, &nothing);
    let columns = insert_columns(memory, definition, names, faults)?;
    let kinds = kinds_for(memory, definition, &columns)?;
    let mut terms = Terms::new(memory);
    let tuples = tuples(memory, &kinds, first, more, &mut terms, faults)?;
    Ok(Insertion {
        terms,
        table: place,
        columns,
        tuples,
    })
}
