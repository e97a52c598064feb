//! The columns of GROUP BY, and what a grouped query may contain.
ghost use Rattle.std.specs.Prelude.{◌≡◌, ℕ, ◌||◌, All, IfOk, map};
ghost use Rattle.std.specs.List.{list_any};
ghost use Rattle.tql_spec.specs.Binding as binding;
ghost use Rattle.tql_spec.specs.Creation.{has_expr, has_number, nests_aggregates};
ghost use Rattle.tql_spec.specs.Names.{check_each};
ghost use Rattle.tql_expr.specs.Meaning.{cond, expr, HasCond, HasExpr};
ghost use Rattle.tql_syntax_tree.specs.Expressions.{named_of};
ghost use Rattle.tql_syntax_tree.specs.Statements.{items_of, select_of};
ghost use Rattle.tql_bind_expr.specs.Gathered.{Gathers};
ghost use Rattle.tql_bind_expr.specs.Scopes.{scope_of, things_of};
ghost use Rattle.tql_bind_query.specs.Grouped.{sole_number};

use std::alloc::AllocError;
use tql_bind_expr::about::{About, Cause};
use tql_bind_expr::faults::Faults;
use tql_bind_expr::names::{no_column, sole_column, start_of, things};
use tql_bind_expr::scope::{Known, Thing};
use tql_expr::search::Search;
use tql_expr::terms::{CondId, ExprId, Terms};
use tql_memory::Memory;
use tql_syntax_tree::expression::Named;
use tql_syntax_tree::statement::{Item, Items, SelectTree};

/// Up to this number of columns in GROUP BY, repeats are not removed before they are searched.
const FEW: usize = 8;

/// Returns the number of the column that a name means, if it means exactly one column and nothing else.
fn sole_number(found: &[Thing<'_>]) -> Option<usize>
    ensures { result ≡ sole_number (things_of found.now) }
{
    let (number, _) = sole_column(found)?;
    Some(number)
}

/// Returns the number of a column of GROUP BY. Adds a fault if the name does not mean exactly one column.
fn group_column(
    memory: Memory,
    scope: &[Known<'_>],
    named: &Named<'_>,
    faults: &mut Faults,
) -> Result<usize, AllocError>
    ensures { IfOk result
        (λ n. Gathers (binding.group_column (scope_of scope.now) (named_of named.now)) faults.old faults.new n) }
{
    let found = things(memory, scope, *named)?;
    Ok(faults.or_first(
        sole_number(&found),
        no_column(scope, start_of(*named), &found),
    ))
}

/// Returns the numbers of the columns of GROUP BY (ISO/IEC 9075-2:2011, 7.9). Adds a fault if a name does not mean
/// exactly one column. The only error is a refused allocation.
pub fn group_columns(
    memory: Memory,
    scope: &[Known<'_>],
    written: &[Named<'_>],
    faults: &mut Faults,
) -> Result<Vec<usize, Memory>, AllocError>
    ensures { IfOk result
        (λ v. Gathers (check_each (binding.group_column (scope_of scope.now)) (map named_of written.now))
        faults.old faults.new v.items) }
{
    let mut numbers = Vec::with_capacity(memory, written.len())?;
    for index in 0..written.len() {
        let named = written[index];
        let number = group_column(memory, scope, &named, faults)?;
        numbers.push(number)?;
    }
    Ok(numbers)
}

/// Whether a query is grouped: it has GROUP BY, HAVING or an aggregate.
pub fn is_grouped(
    select: &SelectTree<'_>,
    terms: &Terms,
    items: &[ExprId],
    having: &[CondId],
) -> bool
    requires items { All (HasExpr terms.now) items.now }
    requires having { All (HasCond terms.now) having.now }
    ensures { result ≡ binding.is_grouped (select_of select.now) (map (expr terms.now) items.now)
        (map (cond terms.now) having.now) }
{
    !select.grouping.is_empty()
        || select.having.is_some()
        || terms.finds_any(Search::Aggregate, items)
        || terms.finds_any_in(Search::Aggregate, having)
}

/// Whether the select list is `*`.
fn is_star(items: &Items<'_>) -> bool
    ensures { result ≡ binding.is_star (items_of items.now) }
{
    matches!(items, Items::All)
}

/// Whether the select list is `*`, or a column other than these occurs outside the aggregates.
fn has_loose(
    groups: &[usize],
    select: &SelectTree<'_>,
    terms: &Terms,
    items: &[ExprId],
    having: &[CondId],
) -> bool
    requires items { All (HasExpr terms.now) items.now }
    requires having { All (HasCond terms.now) having.now }
    ensures { result ≡ (binding.is_star (select_of select.now).items
        || list_any (binding.is_loose groups.now) (map (expr terms.now) items.now)
        || list_any (has_expr (binding.is_loose groups.now)) (map (cond terms.now) having.now)) }
{
    is_star(&select.items)
        || terms.finds_any(Search::Loose(groups), items)
        || terms.finds_any_in(Search::Loose(groups), having)
}

/// Returns the byte offset of an item of the select list, by its index, or 0 if the list is `*`.
fn item_start(items: &Items<'_>, number: usize) -> u32 {
    match items {
        Items::All => 0,
        Items::These(first, more) => match number.checked_sub(1) {
            Some(behind) => more.get(behind).map_or(0, start_of_item),
            None => start_of_item(first),
        },
    }
}

/// Returns the byte offset of an item.
fn start_of_item(item: &Item<'_>) -> u32 {
    item.value.first.first.start
}

/// Returns the cause and place of the fault of the select list or of HAVING in a grouped query.
fn about_grouping(
    is_faulty: bool,
    groups: &[usize],
    select: &SelectTree<'_>,
    terms: &Terms,
    items: &[ExprId],
) -> About
    requires { All (HasExpr terms.now) items.now }
{
    if !is_faulty {
        return About::unknown();
    }
    if is_star(&select.items) {
        return About::at(Cause::GroupedStar, 0);
    }
    for (number, item) in items.iter().enumerate() {
        let start = item_start(&select.items, number);
        if terms.finds(Search::Nested, *item) {
            return About::at(Cause::NestedAggregate, start);
        }
        if terms.finds(Search::Loose(groups), *item) {
            return About::at(Cause::LooseColumn, start);
        }
    }
    About::at(Cause::LooseHaving, 0)
}

/// Whether an aggregate contains an aggregate, or in a grouped query `*` or a column other than these occurs outside
/// the aggregates.
fn has_grouping_fault(
    is_grouped: bool,
    groups: &[usize],
    select: &SelectTree<'_>,
    terms: &Terms,
    items: &[ExprId],
    having: &[CondId],
) -> bool
    requires items { All (HasExpr terms.now) items.now }
    requires having { All (HasCond terms.now) having.now }
    ensures { result ≡ binding.grouping_faults is_grouped groups.now (select_of select.now)
        (map (expr terms.now) items.now) (map (cond terms.now) having.now) }
{
    terms.finds_any(Search::Nested, items)
        || terms.finds_any_in(Search::Nested, having)
        || (is_grouped && has_loose(groups, select, terms, items, having))
}

/// Whether a query with these columns of GROUP BY has a grouping fault, and the cause and place of the fault.
fn fault_among(
    is_grouped: bool,
    groups: &[usize],
    select: &SelectTree<'_>,
    terms: &Terms,
    items: &[ExprId],
    having: &[CondId],
) -> (bool, About)
    requires items { All (HasExpr terms.now) items.now }
    requires having { All (HasCond terms.now) having.now }
    ensures { result.0 ≡ binding.grouping_faults is_grouped groups.now (select_of select.now)
        (map (expr terms.now) items.now) (map (cond terms.now) having.now) }
{
    let is_faulty = has_grouping_fault(is_grouped, groups, select, terms, items, having);
    let about = about_grouping(is_faulty, groups, select, terms, items);
    (is_faulty, about)
}

/// Returns the numbers, each once.
fn distinct(memory: Memory, numbers: &[usize]) -> Result<Vec<usize, Memory>, AllocError>
    ensures { IfOk result (λ v. (i : ℕ) → has_number i v.items ≡ has_number i numbers.now) }
{
    let mut distinct = Vec::from_slice(memory, numbers)?;
    distinct.sort_unstable();
    distinct.dedup();
    Ok(distinct)
}

/// Whether a query has a grouping fault (ISO/IEC 9075-2:2011, 7.12), and its cause and place. An aggregate contains an
/// aggregate; or in a grouped query, `*` or a column that is not a grouping column occurs outside the aggregates. Each
/// column of each item is looked up among the grouping columns, so repeats are first removed if these are many. The
/// only error is a refused allocation.
pub fn grouping_fault(
    memory: Memory,
    is_grouped: bool,
    groups: &[usize],
    select: &SelectTree<'_>,
    terms: &Terms,
    items: &[ExprId],
    having: &[CondId],
) -> Result<(bool, About), AllocError>
    requires items { All (HasExpr terms.now) items.now }
    requires having { All (HasCond terms.now) having.now }
    ensures { IfOk result (λ r. r.0 ≡ binding.grouping_faults is_grouped groups.now (select_of select.now)
        (map (expr terms.now) items.now) (map (cond terms.now) having.now)) }
{
    if groups.len() <= FEW {
        return Ok(fault_among(is_grouped, groups, select, terms, items, having));
    }
    let distinct = distinct(memory, groups)?;
    Ok(fault_among(is_grouped, &distinct, select, terms, items, having))
}
