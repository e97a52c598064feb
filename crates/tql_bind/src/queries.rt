//! Binding of SELECT and READ.
ghost use Rattle.std.specs.Prelude.{◌≤◌, All, IfOk, IsFalse, length};
ghost use Rattle.tql_spec.specs.Binding.{bind};
ghost use Rattle.tql_spec.specs.Machine.{AnswerQuery};
ghost use Rattle.tql_spec.specs.Syntax.{is_too_wide};
ghost use Rattle.tql_bound.specs.Bounds.{HasMoment, bound_of};
ghost use Rattle.tql_bound.specs.Queries.{bound_query_of};
ghost use Rattle.tql_catalog.specs.Tables.{definitions_of};
ghost use Rattle.tql_syntax_tree.specs.Statements.{query_of, read_of};
ghost use Rattle.tql_bind_expr.specs.Gathered.{Gathers};

use std::alloc::AllocError;
use tql_bind_expr::faults::Faults;
use tql_bind_query::query::{TypedQuery, bound_query};
use tql_bound::bound::Bound;
use tql_bound::query::BoundQuery;
use tql_bound::reader::ReaderQuery;
use tql_catalog::catalog::Catalog;
use tql_memory::Memory;
use tql_syntax_tree::expression::Name;
use tql_syntax_tree::statement::Query;

/// Binds SELECT. Adds a fault if no table has the name, or a name is unknown, ambiguous or repeated. Types that do not
/// fit, and literals out of range, are faults too. So are forms that are not allowed, such as an aggregate in WHERE, or
/// a column that is not grouped. The only error is a refused allocation.
pub(crate) fn bind_query(
    memory: Memory,
    tables: &Catalog,
    query: &Query<'_>,
    faults: &mut Faults,
) -> Result<BoundQuery, AllocError>
    requires narrow { IsFalse (is_too_wide (query_of query.now)) }
    requires tables { All (λ d. length d.columns ≤ 64) (definitions_of tables.now) }
    ensures { IfOk result
        (λ x. Gathers (bind (definitions_of tables.now) (query_of query.now)) faults.old
        faults.new (AnswerQuery (bound_query_of x))) }
{
    let TypedQuery { query, kinds: _ } = bound_query(
        memory,
        tables,
        &query.select,
        &query.ordering,
        faults,
    )?;
    Ok(query)
}

/// Binds READ. Its faults are those of its query. The only error is a refused allocation.
pub(crate) fn bind_read(
    memory: Memory,
    tables: &Catalog,
    name: Name<'_>,
    query: &Query<'_>,
    faults: &mut Faults,
) -> Result<Bound, AllocError>
    requires narrow { IsFalse (is_too_wide (query_of query.now)) }
    requires tables { All (λ d. length d.columns ≤ 64) (definitions_of tables.now) }
    ensures bound { IfOk result
        (λ b. Gathers (bind (definitions_of tables.now) (read_of name.entry query.now))
        faults.old faults.new (bound_of b)) }
    ensures within { IfOk result HasMoment }
{
    let reader = name.meant(memory)?;
    let query = bind_query(memory, tables, query, faults)?;
    Ok(Bound::Read(ReaderQuery { reader, query }))
}
