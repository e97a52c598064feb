//! Limits on the width of a statement: the columns of a CREATE, and the table references of a FROM clause.
ghost use Rattle.std.specs.Prelude.{◌≡◌, nat_lt};
ghost use Rattle.tql_spec.specs.Syntax as tree;
ghost use Rattle.tql_syntax_tree.specs.Statements.{element_of, chain_of, select_of, create_of, insert_of, query_of};
ghost use Rattle.tql_syntax_tree.specs.Statements.{statement_of};

use crate::statement::{
    ChainTree, CreateTree, Element, Insert, Query, RowSource, SelectTree, Statement,
};

/// The maximum number of columns of a table.
const MOST_COLUMNS: usize = 64;

/// The maximum number of table references of a select.
const MOST_REFERENCES: usize = 8;

/// Returns 1 for a column of CREATE, and 0 for any other element.
fn columns_in(element: &Element<'_>) -> usize
    ensures { result ≡ tree.columns_in (element_of element.now) }
{
    match element {
        Element::Column(_) => 1,
        Element::Period(_) | Element::Constraint(_, _) => 0,
    }
}

/// Whether a CREATE has more than 64 columns.
fn is_wide_table(create: &CreateTree<'_>) -> bool
    ensures { result ≡ tree.is_too_wide (create_of create.now) }
{
    let mut count = columns_in(&create.first);
    for element in &create.more {
        count += columns_in(element);
    }
    count > MOST_COLUMNS
}

/// Counts the table references of a chain of joins in FROM.
fn chain_length(chain: &ChainTree<'_>) -> usize
    ensures { result ≡ tree.chain_length (chain_of chain.now) }
{
    1 + chain.joins.len()
}

/// Whether a select has more than 8 table references.
fn is_wide_select(select: &SelectTree<'_>) -> bool
    ensures { result ≡ nat_lt 8 (tree.reference_count (select_of select.now)) }
{
    let mut count = chain_length(&select.first);
    for chain in &select.more {
        if count > MOST_REFERENCES {
            return true;
        }
        count += chain_length(chain);
    }
    count > MOST_REFERENCES
}

/// Whether the select of an INSERT has more than 8 table references.
fn is_wide_insert(insert: &Insert<'_>) -> bool
    ensures { result ≡ tree.is_too_wide (insert_of insert.now) }
{
    match &insert.rows {
        RowSource::Values(_, _) => false,
        RowSource::Select(select) => is_wide_select(select),
    }
}

/// Whether a query has more than 8 table references.
fn is_wide_query(query: &Query<'_>) -> bool
    ensures { result ≡ tree.is_too_wide (query_of query.now) }
{
    is_wide_select(&query.select)
}

/// Whether a statement has more than 64 columns, or more than 8 table references. Both limits are this project's
/// choice.
pub fn is_too_wide(statement: &Statement<'_>) -> bool
    ensures { result ≡ tree.is_too_wide (statement_of statement.now) }
{
    match statement {
        Statement::Create(create) => is_wide_table(create),
        Statement::Insert(insert) => is_wide_insert(insert),
        Statement::Query(query) | Statement::Read(_, query) => is_wide_query(query),
        _ => false,
    }
}
