//! Binding of INSERT.
ghost use Rattle.std.specs.Prelude.{◌≤◌, All, IfOk, IsFalse, length};
ghost use Rattle.tql_spec.specs.Binding.{bind};
ghost use Rattle.tql_catalog.specs.Tables.{definitions_of};
ghost use Rattle.tql_syntax_tree.specs.Statements.{insert_of};
ghost use Rattle.tql_bind_expr.specs.Gathered.{Gathers};
ghost use Rattle.tql_spec.specs.Syntax.{is_too_wide};
ghost use Rattle.tql_bound.specs.Bounds.{HasMoment, bound_of};

use std::alloc::AllocError;
use tql_bind_change::insert::insert_values;
use tql_bind_change::insert_query::insert_select;
use tql_bind_expr::faults::Faults;
use tql_bound::bound::Bound;
use tql_catalog::catalog::Catalog;
use tql_memory::Memory;
use tql_syntax_tree::statement::{Insert, RowSource};

/// Binds INSERT. Adds a fault if no table has the name, or if a column of the list is unknown, repeated or generated.
/// The values of a tuple must be as many as the columns and fit their types; an aggregate or a literal out of range is
/// a fault. For a query, adds the faults of the query, and one if its output columns do not fit. The only error is a
/// refused allocation.
pub(crate) fn insert(
    memory: Memory,
    tables: &Catalog,
    insert: &Insert<'_>,
    faults: &mut Faults,
) -> Result<Bound, AllocError>
    requires narrow { IsFalse (is_too_wide (insert_of insert.now)) }
    requires tables { All (λ d. length d.columns ≤ 64) (definitions_of tables.now) }
    ensures bound { IfOk result
        (λ b. Gathers (bind (definitions_of tables.now) (insert_of insert.now)) faults.old faults.new (bound_of b)) }
    ensures within { IfOk result HasMoment }
{
    match &insert.rows {
        RowSource::Values(first, more) => {
            let insertion = insert_values(
                memory,
                tables,
                insert.table,
                &insert.columns,
                first,
                more,
                faults,
            )?;
            Ok(Bound::Insert(insertion))
        }
        RowSource::Select(select) => {
            let insertion = insert_select(
                memory,
                tables,
                insert.table,
                &insert.columns,
                select,
                faults,
            )?;
            Ok(Bound::InsertFrom(insertion))
        }
    }
}
