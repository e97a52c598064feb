//! The values with which a conjunct equates a column: IN, or an OR of comparisons.
ghost use Rattle.std.specs.Prelude.{◌≡◌, ◌<◌, ◌||◌, false, IfOk, IfSome, IsNone, IsTrue, OnOk, Bool, map, option_map};
ghost use Rattle.std.specs.List.{dedup, list_any};
ghost use Rattle.std.specs.List.Sorted.{IsPermutation, IsSorted};
ghost use Rattle.std.specs.Ordering.{is_eq};
ghost use Rattle.tql_spec.specs.Datum.{Datum, is_null, order as order_of};
ghost use Rattle.tql_expr.specs.Meaning.{cond, HasCond};
ghost use Rattle.tql_plan_laws.specs.Constants.{value_of};
ghost use Rattle.tql_plan_laws.specs.Equalities.{agree};
ghost use Rattle.tql_value.specs.Views.{datum_of_view};
ghost use Rattle.tql_plan_access.specs.Choices.{agrees_if, are_distinct, is_choice as choice, is_chosen, is_equated};

use std::alloc::AllocError;
use std::slice;
use tql_expr::node::Node;
use tql_expr::terms::{CondId, Terms};
use tql_memory::Memory;
use tql_value::comparison::order;
use tql_value::value::View;

/// The values of which each row that is wanted has one in a column, which is given by its number among the stored
/// columns. The values are in ascending order.
pub struct Alternatives<'a> {
    pub column: usize,
    pub values: Vec<View<'a>, Memory>,
    ghost distinct: { IsTrue (are_distinct (map datum_of_view values.items)) },
    ghost sorted: { IsSorted order_of (map datum_of_view values.items) },
}

impl<'a> Drop for Alternatives<'a> {
    fn drop(self) {
        let Alternatives { column: _, values } = self;
        drop(values);
    }
}

/// The parts of an OR, one of which equates a column with a literal.
#[derive(Clone, Copy)]
struct Parts<'a> {
    value: View<'a>,
    rest: CondId,
}

/// Returns the literal with which a condition equates a column.
fn value_at<'a>(terms: &'a Terms, c: CondId, column: usize) -> Option<View<'a>>
    requires { HasCond terms.now c }
    ensures { option_map datum_of_view result ≡ value_of column (cond terms.now c) }
{
    terms.value(slice::from_ref(&c), column)
}

/// Returns the parts of an OR, one of which equates the column with a literal.
fn parted<'a>(terms: &'a Terms, c: CondId, column: usize) -> Option<Parts<'a>>
    requires { HasCond terms.now c }
    ensures before { IfSome result (λ p. p.rest.place < c.place) }
    ensures choice { IfSome result (λ p. choice column (cond terms.now c) ≡ choice column (cond terms.now p.rest)) }
    ensures chosen { IfSome result (λ p. (x : Datum) → is_chosen column (cond terms.now c) x
        ≡ (agree x (datum_of_view p.value) || is_chosen column (cond terms.now p.rest) x)) }
    ensures none { IsNone result → choice column (cond terms.now c) ≡ is_equated column (cond terms.now c) }
{
    match terms.node(c.place) {
        Node::Or(first, second) => {
            let first = CondId { place: first };
            let second = CondId { place: second };
            match (
                value_at(terms, first, column),
                value_at(terms, second, column),
            ) {
                (Some(value), _) => Some(Parts {
                    value,
                    rest: second,
                }),
                (None, Some(value)) => Some(Parts { value, rest: first }),
                (None, None) => None,
            }
        }
        _ => None,
    }
}

/// Whether a condition compares this column with a literal, or is the OR of such comparisons, nested to one side. A
/// long list is followed by a loop.
pub fn is_choice(terms: &Terms, c: CondId, column: usize) -> bool
    requires { HasCond terms.now c }
    ensures { result ≡ choice column (cond terms.now c) }
{
    let mut here = c;
    while let Some(parts) = parted(terms, here, column) {
        here = parts.rest;
    }
    value_at(terms, here, column).is_some()
}

/// Adds a value, unless it is NULL, which equals nothing.
fn add_value<'a>(
    values: &mut Vec<View<'a>, Memory>,
    value: Option<View<'a>>,
) -> Result<(), AllocError>
    ensures each { OnOk result ((x : Datum) → list_any (agree x) (map datum_of_view values.new.items)
        ≡ (list_any (agree x) (map datum_of_view values.old.items)
        || agrees_if x (option_map datum_of_view value.entry))) }
    ensures known { OnOk result (list_any is_null (map datum_of_view values.old.items) ≡ false
        → list_any is_null (map datum_of_view values.new.items) ≡ false) }
{
    if let Some(value) = value {
        if !value.is_null() {
            values.push(value)?;
        }
    }
    Ok(())
}

/// Returns the literals of a choice, without NULL. The only error is a refused allocation.
#[tactic(auto, using(crate::proofs::Picked::or_three, crate::proofs::Picked::equated_chosen))]
fn literals<'a>(
    memory: Memory,
    terms: &'a Terms,
    c: CondId,
    column: usize,
) -> Result<Vec<View<'a>, Memory>, AllocError>
    requires there { HasCond terms.now c }
    requires choice { IsTrue (choice column (cond terms.now c)) }
    ensures each { IfOk result (λ values. (x : Datum) → list_any (agree x) (map datum_of_view values.items)
        ≡ is_chosen column (cond terms.now c) x) }
    ensures known { IfOk result (λ values. list_any is_null (map datum_of_view values.items) ≡ false) }
{
    let mut values = Vec::new(memory);
    let mut here = c;
    while let Some(parts) = parted(terms, here, column) {
        add_value(&mut values, Some(parts.value))?;
        here = parts.rest;
    }
    add_value(&mut values, value_at(terms, here, column))?;
    Ok(values)
}

/// Sorts values in place.
fn sort_values(values: &mut Vec<View<'_>, Memory>)
    ensures sorted { IsSorted order_of (map datum_of_view values.new.items) }
    ensures same { IsPermutation values.old.items values.new.items }
{
    values.sort_unstable_by(|a, b| order(*a, *b));
}

/// Keeps the first of adjacent equal values.
fn drop_repeats(values: &mut Vec<View<'_>, Memory>)
    ensures { map datum_of_view values.new.items
        ≡ dedup (λ x y. is_eq (order_of x y)) (map datum_of_view values.old.items) }
{
    values.dedup_by(|a, b| order(*a, *b).is_eq());
}

/// Sorts values and keeps one of each.
fn keep_distinct(values: &mut Vec<View<'_>, Memory>)
    requires { list_any is_null (map datum_of_view values.old.items) ≡ false }
    ensures distinct { IsTrue (are_distinct (map datum_of_view values.new.items)) }
    ensures sorted { IsSorted order_of (map datum_of_view values.new.items) }
    ensures same { (p : Datum → Bool) → list_any p (map datum_of_view values.new.items)
        ≡ list_any p (map datum_of_view values.old.items) }
{
    sort_values(values);
    drop_repeats(values);
}

/// Returns the alternatives of a choice, with the number at which its column is stored. The only error is a refused
/// allocation.
pub fn alternatives_at<'a>(
    memory: Memory,
    terms: &'a Terms,
    c: CondId,
    column: usize,
    stored: usize,
) -> Result<Alternatives<'a>, AllocError>
    requires there { HasCond terms.now c }
    requires choice { IsTrue (choice column (cond terms.now c)) }
    ensures column { IfOk result (λ a. a.column ≡ stored) }
    ensures each { IfOk result (λ a. (x : Datum) → list_any (agree x) (map datum_of_view a.values.items)
        ≡ is_chosen column (cond terms.now c) x) }
{
    let mut values = literals(memory, terms, c, column)?;
    keep_distinct(&mut values);
    Ok(Alternatives {
        column: stored,
        values,
    })
}
