//! Bound INSERT, UPDATE and DELETE. Each has an arena of its own for its expressions and conditions. Indexes of tables
//! and columns count from 0.
ghost use Rattle.std.specs.Prelude.{All};
ghost use Rattle.tql_expr.specs.Meaning.{HasExpr, HasCond};
ghost use Rattle.tql_bound.specs.Works.{sets_of};

use crate::query::BoundQuery;
use tql_expr::terms::{CondId, ExprId, Terms};
use tql_memory::Memory;
use tql_period::period::Period;

/// INSERT of tuples into the table at an index: the indexes of the columns that are given values, and for each row the
/// expressions of these values.
pub struct Insertion {
    pub terms: Terms,
    pub table: usize,
    pub columns: Vec<usize, Memory>,
    pub tuples: Vec<Vec<ExprId, Memory>, Memory>,
    ghost held: { All (λ tuple. All (HasExpr terms) tuple.items) tuples.items },
}

impl Drop for Insertion {
    fn drop(self) {
        let Insertion {
            terms,
            table: _,
            columns,
            tuples,
        } = self;
        drop(terms);
        drop(columns);
        drop(tuples);
    }
}

/// INSERT into the table at an index: the indexes of the columns that are given values, and the query that returns the
/// new rows.
#[derive(Drop)]
pub struct QueryInsertion {
    pub table: usize,
    pub columns: Vec<usize, Memory>,
    pub query: BoundQuery,
}

/// An assignment of SET: the index of a column, and its new value.
#[derive(Clone, Copy)]
pub struct Assignment {
    pub column: usize,
    pub value: ExprId,
}

/// What becomes of an affected row.
#[derive(Drop)]
pub enum Work {
    /// UPDATE: the row with these values in place of its own.
    Set(Vec<Assignment, Memory>),
    /// DELETE: nothing.
    Remove,
}

/// UPDATE or DELETE of the table at an index: the portion of its application period that is changed, if not all of it,
/// and what becomes of the rows for which all conjuncts are true.
pub struct Modification {
    pub terms: Terms,
    pub table: usize,
    pub portion: Option<Period>,
    pub work: Work,
    pub conjuncts: Vec<CondId, Memory>,
    ghost held: { All (λ a. HasExpr terms a.value) (sets_of work) },
    ghost judged: { All (HasCond terms) conjuncts.items },
}

impl Drop for Modification {
    fn drop(self) {
        let Modification {
            terms,
            table: _,
            portion: _,
            work,
            conjuncts,
        } = self;
        drop(terms);
        drop(work);
        drop(conjuncts);
    }
}
