//! Name binding of DELETE.
ghost use Rattle.std.specs.Prelude.{IfOk};
ghost use Rattle.tql_spec.specs.Binding.{bind};
ghost use Rattle.tql_spec.specs.Machine.{ChangeRows};
ghost use Rattle.tql_bound.specs.Changes.{modification_of};
ghost use Rattle.tql_catalog.specs.Tables.{definitions_of};
ghost use Rattle.tql_syntax_tree.specs.Statements.{delete_of};
ghost use Rattle.tql_bind_expr.specs.Gathered.{Gathers};

use crate::portion::portion;
use crate::sets::own_reference;
use std::alloc::AllocError;
use tql_bind_cond::conjuncts::plain_filter;
use tql_bind_expr::faults::Faults;
use tql_bind_expr::tables::table_number;
use tql_bound::change::{Modification, Work};
use tql_catalog::catalog::Catalog;
use tql_catalog::table_def::TableDef;
use tql_expr::terms::Terms;
use tql_memory::Memory;
use tql_syntax_tree::statement::Delete;

/// Binds a DELETE. Faults: no table has the name; those of `portion`; in WHERE, a name that is unknown or ambiguous,
/// kinds that do not fit, an aggregate, or a literal that is out of range.
pub fn delete_rows(
    memory: Memory,
    catalog: &Catalog,
    delete: &Delete<'_>,
    faults: &mut Faults,
) -> Result<Modification, AllocError>
    ensures { IfOk result
        (λ x. Gathers (bind (definitions_of catalog.now) (delete_of delete.now)) faults.old faults.new
        (ChangeRows (modification_of x))) }
{
    let table = table_number(memory, catalog, delete.table, faults)?;
    let nothing = TableDef::nothing(memory);
    let definition = catalog.definition_or(table, &nothing);
    let portion = portion(memory, definition, delete.portion, faults)?;
    let scope = [own_reference(definition)];
    let mut terms = Terms::new(memory);
    let conjuncts = plain_filter(memory, &scope, &delete.filter, &mut terms, faults)?;
    Ok(Modification {
        terms,
        table,
        portion,
        work: Work::Remove,
        conjuncts,
    })
}
