//! Details of statements that calculate a number out of range: the clause that does so, and what it calculates.
ghost use Rattle.std.specs.Prelude.{All, IfSome};
ghost use Rattle.tql_expr.specs.Meaning.{HasCond, HasExpr};

use crate::faults::tell_range;
use crate::state::plain_detail;
use std::alloc::AllocError;
use tql_bound::change::{Modification, Work};
use tql_bound::query::{BoundQuery, Join};
use tql_catalog::catalog::Catalog;
use tql_catalog::table_def::TableDef;
use tql_detail::detail::Detail;
use tql_detail::shown::Words;
use tql_expr::node::Function;
use tql_expr::terms::{Aggregate, CondId, ExprId, Terms};
use tql_expr_shape::shape::{Shape, shape_of};
use tql_memory::Memory;
use tql_query_words::calculations::{
    Calculation, Names, Rows, first_in_on, first_in_where, is_plain, push_calculation,
};
use tql_query_words::columns::table_names;

/// Whether none of these conditions can be out of range.
fn are_safe(terms: &Terms, conjuncts: &[CondId]) -> bool
    requires { All (HasCond terms.now) conjuncts.now }
{
    for conjunct in conjuncts {
        if !terms.is_safe(*conjunct) {
            return false;
        }
    }
    true
}

/// Returns the detail of an UPDATE or DELETE that calculates a number out of range (E30). It names the clause, if only
/// one can be the cause, and the column if SET sets only one. None if there is no memory for it.
pub fn change_detail(
    memory: Memory,
    definition: &TableDef,
    modification: &Modification,
) -> Option<Detail> {
    let Work::Set(sets) = &modification.work else {
        return plain_detail(memory, "a number that WHERE calculates is out of range");
    };
    if !are_safe(&modification.terms, &modification.conjuncts) {
        return plain_detail(
            memory,
            "a number that SET or WHERE calculates is out of range",
        );
    }
    let [set] = sets.as_slice() else {
        return plain_detail(memory, "a number that SET calculates is out of range");
    };
    let before = String::from_str(memory, "a number that SET calculates for ").ok()?;
    let mut detail = Detail::of(before);
    tell_range(&mut detail, definition, set.column).ok()?;
    Some(detail)
}

/// A clause of a query.
#[derive(Clone, Copy)]
enum Clause {
    On,
    Where,
    Having,
    SelectList,
}

impl Clause {
    /// Returns the name of the clause in a sentence.
    fn name(self) -> &'static str {
        match self {
            Clause::On => "ON",
            Clause::Where => "WHERE",
            Clause::Having => "HAVING",
            Clause::SelectList => "the select list",
        }
    }
}

/// How many conjuncts or items of each clause can be out of range.
#[derive(Clone, Copy)]
struct Counts {
    on: usize,
    filter: usize,
    having: usize,
    items: usize,
}

/// Returns how many of these conjuncts can be out of range.
fn count_conjuncts(terms: &Terms, conjuncts: &[CondId]) -> usize
    requires { All (HasCond terms.now) conjuncts.now }
{
    let mut count = 0_usize;
    for conjunct in conjuncts {
        if !terms.is_safe(*conjunct) {
            count = count.saturating_add(1);
        }
    }
    count
}

/// Returns how many conjuncts of a chain's ON conditions can be out of range.
fn count_joins(terms: &Terms, joins: &[Join]) -> usize
    requires { All (λ j. All (HasCond terms.now) j.on.items) joins.now }
{
    let mut count = 0_usize;
    for join in joins {
        count = count.saturating_add(count_conjuncts(terms, &join.on));
    }
    count
}

/// Returns how many conjuncts of a query's ON conditions can be out of range.
fn count_on(query: &BoundQuery) -> usize {
    let mut count = 0_usize;
    for chain in &query.chains {
        count = count.saturating_add(count_joins(&query.terms, &chain.joins));
    }
    count
}

/// Whether an item of a select list can be out of range. COUNT(*) is left out, since no query reads 2^63 rows.
fn can_fail(terms: &Terms, item: ExprId) -> bool
    requires { HasExpr terms.now item }
{
    match shape_of(terms, item) {
        Shape::Literal(_) | Shape::Column(_) => false,
        Shape::Negate(_) | Shape::Binary(..) => true,
        Shape::Over(Aggregate::Rows) => false,
        Shape::Over(Aggregate::Over(Function::Sum, _)) => true,
        Shape::Over(Aggregate::Over(_, operand)) => !is_plain(terms, operand),
    }
}

/// Returns how many items can be out of range.
fn count_items(terms: &Terms, items: &[ExprId]) -> usize
    requires { All (HasExpr terms.now) items.now }
{
    let mut count = 0_usize;
    for item in items {
        if can_fail(terms, *item) {
            count = count.saturating_add(1);
        }
    }
    count
}

/// Returns how many conjuncts and items of a query can be out of range.
fn counts_of(query: &BoundQuery) -> Counts {
    let terms = &query.terms;
    Counts {
        on: count_on(query),
        filter: count_conjuncts(terms, &query.filter),
        having: count_conjuncts(terms, &query.having),
        items: count_items(terms, &query.items),
    }
}

/// Returns the only clause that can be out of range. None if several can.
fn only_clause(counts: Counts) -> Option<Clause> {
    match (counts.on, counts.filter, counts.having, counts.items) {
        (0, 0, 0, _) => Some(Clause::SelectList),
        (_, 0, 0, 0) => Some(Clause::On),
        (0, _, 0, 0) => Some(Clause::Where),
        (0, 0, _, 0) => Some(Clause::Having),
        _ => None,
    }
}

/// Whether an expression is an operation or a negation whose operands calculate nothing.
fn is_simple(terms: &Terms, item: ExprId) -> bool
    requires { HasExpr terms.now item }
{
    match shape_of(terms, item) {
        Shape::Negate(operand) => is_plain(terms, operand),
        Shape::Binary(_, left, right) => is_plain(terms, left) && is_plain(terms, right),
        _ => false,
    }
}

/// Returns the calculation of the first item that is one.
fn item_calculation(query: &BoundQuery) -> Option<Calculation<'_>>
    ensures { IfSome result (λ c. HasExpr query.now.terms c.expression) }
{
    for item in &query.items {
        if is_simple(&query.terms, *item) {
            return Some(Calculation {
                expression: *item,
                rows: Rows::Chains(&query.chains),
                is_alone: true,
            });
        }
    }
    None
}

/// Returns the calculation of a clause in which one conjunct or item can be out of range, if it is the only one there.
fn only_calculation(query: &BoundQuery, clause: Clause) -> Option<Calculation<'_>>
    ensures { IfSome result (λ c. HasExpr query.now.terms c.expression) }
{
    let found = match clause {
        Clause::On => first_in_on(query),
        Clause::Where => first_in_where(query),
        Clause::Having => None,
        Clause::SelectList => item_calculation(query),
    };
    match found {
        Some(calculation) if calculation.is_alone => Some(calculation),
        _ => None,
    }
}

/// Appends the only calculation of the only clause that can be out of range.
fn push_only(
    words: &mut Words,
    catalog: &Catalog,
    query: &BoundQuery,
    clause: Clause,
) -> Result<(), AllocError> {
    let Some(calculation) = only_calculation(query, clause) else {
        return Ok(());
    };
    let qualifiers = table_names(*words.allocator(), catalog, &query.chains)?;
    let names = Names {
        catalog,
        qualifiers: &qualifiers,
    };
    words.push_str(": ")?;
    push_calculation(words, &names, &query.terms, calculation)
}

/// Returns the message of a query that calculates a number out of range.
fn query_words(memory: Memory, catalog: &Catalog, query: &BoundQuery) -> Result<Words, AllocError> {
    let counts = counts_of(query);
    let Some(clause) = only_clause(counts) else {
        return String::from_str(memory, "a number that the query calculates is out of range");
    };
    let name = clause.name();
    let mut words = format!(in memory; "a number that {name} calculates is out of range")?;
    if counts.on == 1 || counts.filter == 1 || counts.items == 1 {
        push_only(&mut words, catalog, query, clause)?;
    }
    Ok(words)
}

/// Returns the detail of a query that calculates a number out of range (E30). It names the clause, if only one can be
/// the cause, and the calculation, if there is only one. None if there is no memory for it.
pub fn query_detail(memory: Memory, catalog: &Catalog, query: &BoundQuery) -> Option<Detail> {
    let words = query_words(memory, catalog, query).ok()?;
    Some(Detail::of(words))
}
