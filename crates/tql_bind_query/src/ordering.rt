//! The keys of ORDER BY.
ghost use Rattle.std.specs.Prelude.{◌≡◌, IfOk, length, map, string_bytes};
ghost use Rattle.tql_spec.specs.Binding as binding;
ghost use Rattle.tql_spec.specs.Calendar.{number_of};
ghost use Rattle.tql_spec.specs.Creation.{or_first};
ghost use Rattle.tql_spec.specs.Names.{check_each};
ghost use Rattle.tql_spec.specs.Syntax.{ByHeading};
ghost use Rattle.tql_spec.specs.Words.{same_text};
ghost use Rattle.tql_bound.specs.Queries as bound;
ghost use Rattle.tql_syntax_tree.specs.Expressions.{name_of};
ghost use Rattle.tql_syntax_tree.specs.Statements.{key_name_of, order_of};
ghost use Rattle.tql_bind_expr.specs.Gathered.{Gathers};
ghost use Rattle.tql_bind_query.specs.Headed.{AreSorted};
ghost use Rattle.tql_bind_query.specs.Ordered.{place_at, position_place};

use crate::sorted_headings::{Heading, only_heading, sorted_headings, with_name};
use std::alloc::AllocError;
use tql_bind_expr::about::{About, Cause};
use tql_bind_expr::faults::Faults;
use tql_bind_expr::number::unsigned;
use tql_bind_expr::texts::meant;
use tql_bound::query::OrderKey;
use tql_memory::Memory;
use tql_syntax_tree::expression::Name;
use tql_syntax_tree::statement::{KeyName, OrderTree};

/// Whether the heading is this name.
fn is_heading(heading: &String<Memory>, name: &str) -> bool
    ensures { result ≡ same_text name.now (string_bytes heading.now) }
{
    name == heading.as_str()
}

/// Returns the indexes of the output columns with this heading.
fn places_of(
    memory: Memory,
    headings: &[String<Memory>],
    name: &str,
) -> Result<Vec<usize, Memory>, AllocError>
    ensures { IfOk result (λ v. v.items ≡ binding.places_of name.now 0 (map string_bytes headings.now)) }
{
    let mut found = Vec::new(memory);
    for (index, heading) in headings.iter().enumerate() {
        if is_heading(heading, name) {
            found.push(index)?;
        }
    }
    Ok(found)
}

/// Returns the index if there is exactly one.
fn only_place(places: &[usize]) -> Option<usize>
    ensures { binding.only_place places.now ≡ or_first result }
{
    match places {
        [place] => Some(*place),
        _ => None,
    }
}

/// Returns the cause and place of the fault that `places` output columns have the heading: none, or several.
fn no_heading(places: usize, start: u32) -> About {
    match places {
        0 => About::at(Cause::NoHeading, start),
        _ => About::at(Cause::AmbiguousHeading, start),
    }
}

/// Returns the index of the only output column with this heading, or the cause and place of the fault if there is not
/// exactly one. Sorted headings are searched by bisection.
fn place_of(
    memory: Memory,
    headings: &[String<Memory>],
    sorted: &[Heading<'_>],
    name: &str,
    start: u32,
) -> Result<(Option<usize>, About), AllocError>
    requires { AreSorted (map string_bytes headings.now) sorted.now }
    ensures { IfOk result (λ r. binding.only_place (binding.places_of name.now 0 (map string_bytes headings.now))
        ≡ or_first r.0) }
{
    if sorted.is_empty() {
        let places = places_of(memory, headings, name)?;
        return Ok((only_place(&places), no_heading(places.len(), start)));
    }
    let named = with_name(sorted, name);
    Ok((only_heading(named), no_heading(named.len(), start)))
}

/// Returns the index of the output column with this heading. Adds a fault if there is not exactly one.
fn heading_place(
    memory: Memory,
    headings: &[String<Memory>],
    sorted: &[Heading<'_>],
    name: Name<'_>,
    faults: &mut Faults,
) -> Result<usize, AllocError>
    requires { AreSorted (map string_bytes headings.now) sorted.now }
    ensures { IfOk result
        (λ i. Gathers (binding.key_place (map string_bytes headings.now) (ByHeading (name_of name.entry)))
        faults.old faults.new i) }
{
    let start = name.start;
    let name = meant(memory, name)?;
    let (place, about) = place_of(memory, headings, sorted, name.as_str(), start)?;
    Ok(faults.or_first(place, about))
}

/// Returns the index of a position, counted from 1, among `width` columns. None if it is out of range.
fn place_at(digits: &[u8], width: usize) -> Option<usize>
    ensures { result ≡ place_at width (number_of digits.now) }
{
    let position = unsigned(digits)?;
    if 1 <= position && position <= width as u64 {
        Some(position as usize - 1)
    } else {
        None
    }
}

/// Returns the index of the output column at a position, given by its digits. Adds a fault if there is none.
fn position_place(digits: &str, width: usize, faults: &mut Faults) -> usize
    ensures { Gathers (position_place width digits.now) faults.old faults.new result }
{
    faults.or_first(
        place_at(digits.as_bytes(), width),
        About::at(Cause::NoPosition, 0).counts(0, width),
    )
}

/// Returns the index of the output column that a sort key names.
fn key_place(
    memory: Memory,
    headings: &[String<Memory>],
    sorted: &[Heading<'_>],
    key: KeyName<'_>,
    faults: &mut Faults,
) -> Result<usize, AllocError>
    requires { AreSorted (map string_bytes headings.now) sorted.now }
    ensures { IfOk result
        (λ i. Gathers (binding.key_place (map string_bytes headings.now) (key_name_of key.entry))
        faults.old faults.new i) }
{
    match key {
        KeyName::Heading(name) => heading_place(memory, headings, sorted, name, faults),
        KeyName::Position(digits) => Ok(position_place(digits, headings.len(), faults)),
    }
}

/// Binds a key of ORDER BY.
fn order_key(
    memory: Memory,
    headings: &[String<Memory>],
    sorted: &[Heading<'_>],
    key: OrderTree<'_>,
    faults: &mut Faults,
) -> Result<OrderKey, AllocError>
    requires { AreSorted (map string_bytes headings.now) sorted.now }
    ensures { IfOk result
        (λ k. Gathers (binding.order_key (map string_bytes headings.now) (order_of key.entry))
        faults.old faults.new (bound.order_of k)) }
{
    let column = key_place(memory, headings, sorted, key.key, faults)?;
    Ok(OrderKey {
        column,
        falls: key.falls,
    })
}

/// Returns the number of keys that name a heading.
fn named(keys: &[OrderTree<'_>]) -> usize {
    keys.iter()
        .filter(|key| matches!(key.key, KeyName::Heading(_)))
        .count()
}

/// Binds the keys of ORDER BY. Each names an output column by its heading, or by its position, counted from 1. Adds a
/// fault if not exactly one column has a heading, or no column is at a position. The only error is a refused
/// allocation.
pub fn order_keys(
    memory: Memory,
    headings: &[String<Memory>],
    keys: &[OrderTree<'_>],
    faults: &mut Faults,
) -> Result<Vec<OrderKey, Memory>, AllocError>
    ensures { IfOk result
        (λ v. Gathers (check_each (binding.order_key (map string_bytes headings.now)) (map order_of keys.now))
        faults.old faults.new (map bound.order_of v.items)) }
{
    let sorted = sorted_headings(memory, headings, named(keys))?;
    let mut bound = Vec::with_capacity(memory, keys.len())?;
    for index in 0..keys.len() {
        let written = keys[index];
        let key = order_key(memory, headings, &sorted, written, faults)?;
        bound.push(key)?;
    }
    Ok(bound)
}
