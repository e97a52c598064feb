//! Bound queries. Each has an arena of its own for its expressions and conditions.
ghost use Rattle.std.specs.Prelude.{All};
ghost use Rattle.tql_expr.specs.Meaning.{HasExpr, HasCond};

use crate::reference::Reference;
use tql_expr::terms::{CondId, ExprId, Terms};
use tql_memory::Memory;

/// How a table reference is joined to the rows before it (ISO/IEC 9075-2:2011, 7.7 `<joined table>`).
#[derive(Clone, Copy)]
pub enum JoinKind {
    /// The pairs that pass ON.
    Inner,
    /// The pairs that pass ON, and each earlier row without a partner, with NULLs.
    Left,
    /// All pairs.
    Cross,
}

/// A table reference that is joined to those before it in a chain, with the conjuncts of ON; CROSS JOIN has none. The
/// columns in ON are counted from the first table reference of the chain.
#[derive(Drop)]
pub struct Join {
    pub kind: JoinKind,
    pub reference: Reference,
    pub on: Vec<CondId, Memory>,
}

/// A chain of joins in FROM: a table reference and those joined to it, from left to right.
#[derive(Drop)]
pub struct Chain {
    pub first: Reference,
    pub joins: Vec<Join, Memory>,
}

/// A key of ORDER BY: the index of an output column, from 0, and whether it is descending.
#[derive(Clone, Copy)]
pub struct OrderKey {
    pub column: usize,
    pub falls: bool,
}

/// SELECT. WHERE is evaluated on the cross product of the chains, and HAVING on the rows that pass it, or on their
/// groups. The items, with these headings, are evaluated on the rows or groups that pass HAVING.
pub struct BoundQuery {
    pub terms: Terms,
    pub chains: Vec<Chain, Memory>,
    pub filter: Vec<CondId, Memory>,
    /// The columns of GROUP BY. Empty if the query is grouped without that clause; None if it is not grouped.
    pub grouping: Option<Vec<usize, Memory>>,
    pub having: Vec<CondId, Memory>,
    pub items: Vec<ExprId, Memory>,
    pub headings: Vec<String<Memory>, Memory>,
    pub is_distinct: bool,
    pub ordering: Vec<OrderKey, Memory>,
    ghost joined: { All (λ c. All (λ j. All (HasCond terms) j.on.items) c.joins.items) chains.items },
    ghost filtered: { All (HasCond terms) filter.items },
    ghost judged: { All (HasCond terms) having.items },
    ghost held: { All (HasExpr terms) items.items },
}

impl Drop for BoundQuery {
    fn drop(self) {
        let BoundQuery {
            terms,
            chains,
            filter,
            grouping,
            having,
            items,
            headings,
            is_distinct: _,
            ordering,
        } = self;
        drop(terms);
        drop(chains);
        drop(filter);
        drop(grouping);
        drop(having);
        drop(items);
        drop(headings);
        drop(ordering);
    }
}
