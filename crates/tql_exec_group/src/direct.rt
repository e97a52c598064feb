//! The items of a grouped query that stand in a group as they are: a grouping column, and COUNT(*). Where all items do
//! and there is no HAVING, no node is evaluated.
ghost use Rattle.std.specs.Prelude.{◌≡◌, ℕ, All, IfOk, IfSome, List, Some, true};
ghost use Rattle.tql_spec.specs.Words.{map_all};
ghost use Rattle.tql_value.specs.Views.{outcome, row_of, rows_of};
ghost use Rattle.tql_expr.specs.Evaluated.{behind, Evaluated};
ghost use Rattle.tql_expr.specs.Meaning.{HasExpr};
ghost use Rattle.tql_exec_group.specs.Places.{ArePlaces};
ghost use Rattle.tql_exec_group.specs.Sources.{source_value, AreSources, IsSource};
ghost use Rattle.tql_exec_group.specs.Steps.{shown_if};

use crate::on_group::counted;
use std::alloc::AllocError;
use tql_expr::node::Node;
use tql_expr::row::cell_at;
use tql_expr::terms::{ExprId, Terms};
use tql_memory::Memory;
use tql_value::arithmetic::Range;
use tql_value::refusal::Refusal;
use tql_value::value::{Value, View};

/// Where the value of an item stands in a group.
#[derive(Clone, Copy)]
pub(crate) enum Source {
    /// In the key of the group, at an index.
    Key(usize),
    /// It is the number of the group's rows.
    Count,
}

/// Returns the source of an item, or `None` if its value is to be calculated.
fn source_of(terms: &Terms, places: &[Option<usize>], item: ExprId) -> Option<Source>
    requires { HasExpr terms.now item }
    ensures { (columns : List ℕ) → ArePlaces columns places.now
        → IfSome result (λ source. IsSource terms.now columns source item) }
{
    match terms.node(item.place) {
        Node::Column(column) => match places.get(column) {
            Some(Some(place)) => Some(Source::Key(*place)),
            _ => None,
        },
        Node::CountRows => Some(Source::Count),
        _ => None,
    }
}

/// Returns the sources of the first items, up to one whose value is to be calculated. The only error is a refused
/// allocation.
pub(crate) fn sources_of(
    memory: Memory,
    terms: &Terms,
    places: &[Option<usize>],
    items: &[ExprId],
) -> Result<Vec<Source, Memory>, AllocError>
    requires { All (HasExpr terms.now) items.now }
    ensures { (columns : List ℕ) → ArePlaces columns places.now
        → IfOk result (λ v. AreSources terms.now columns v.items items.now) }
{
    let mut sources = Vec::with_capacity(memory, items.len())?;
    for item in items {
        match source_of(terms, places, *item) {
            Some(source) => sources.push(source)?,
            None => return Ok(sources),
        }
    }
    Ok(sources)
}

/// Returns the value at a source, for reading, or `Range` if 64 bits, signed, do not hold the number of rows.
fn value_at<'a>(key: &'a [Value], count: u64, source: Source) -> Result<View<'a>, Range>
    ensures { outcome result ≡ source_value (row_of key.now) count source }
{
    match source {
        Source::Key(place) => Ok(cell_at(key, place)),
        Source::Count => counted(count),
    }
}

/// Returns the values at these sources. Refused if one is out of range, or if an allocation is refused.
fn values_at(
    memory: Memory,
    key: &[Value],
    count: u64,
    sources: &[Source],
) -> Result<Vec<Value, Memory>, Refusal>
    ensures { Evaluated (λ values. row_of values.items)
        (map_all (source_value (row_of key.now) count) sources.now) result }
{
    let mut values = Vec::with_capacity(memory, sources.len())?;
    for source in sources {
        values.push(value_at(key, count, *source)?.to_value(memory)?)?;
    }
    Ok(values)
}

/// Adds the values at these sources. Refused if one is out of range, or if an allocation is refused.
pub(crate) fn add_direct(
    memory: Memory,
    key: &[Value],
    count: u64,
    sources: &[Source],
    made: &mut Vec<Vec<Value, Memory>, Memory>,
) -> Result<(), Refusal>
    ensures { Evaluated (λ _. rows_of made.new.items) (behind (rows_of made.old.items)
        (shown_if (Some true) (map_all (source_value (row_of key.now) count) sources.now))) result }
{
    made.push(values_at(memory, key, count, sources)?)?;
    Ok(())
}
