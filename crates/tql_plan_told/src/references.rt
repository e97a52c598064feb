//! The table references of a select.
use tql_syntax_tree::statement::{JoinTree, RefTree};

/// Returns the table reference that a join adds.
pub(crate) fn joined_reference<'t, 'a>(join: &'t JoinTree<'a>) -> &'t RefTree<'a> {
    match join {
        JoinTree::Inner(joined) | JoinTree::Left(joined) => &joined.reference,
        JoinTree::Cross(reference) => reference,
    }
}
