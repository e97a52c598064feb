//! The lookup by a range of a column that alone is a key or a reference.
ghost use Rattle.std.specs.Prelude.{◌≡◌, ◌∷◌, [], Some, List, All, IfOk, IfSome, IsTrue, map, option_map};
ghost use Rattle.tql_spec.specs.Expression.{Cond};
ghost use Rattle.tql_catalog.specs.Rows.{are_assignable};
ghost use Rattle.tql_expr.specs.Meaning.{cond, HasCond};
ghost use Rattle.tql_plan_access.specs.Access.{sought_in};
ghost use Rattle.tql_plan_access.specs.Ranges.{is_narrow as narrow, range_given, range_in, ranged_in};
ghost use Rattle.tql_plan_access.specs.Said.{IsInRange, IsOrRanged, IsRangedBy};

use crate::access::Manner;
use crate::limits::range;
use crate::singles::{Singles, single_columns};
use std::alloc::AllocError;
use tql_catalog::table_def::TableDef;
use tql_expr::terms::{CondId, Terms};
use tql_memory::Memory;

/// A column that alone is a key or a reference, and the range to which conjuncts limit it, both ends included.
#[derive(Clone, Copy)]
struct Ranged {
    column: usize,
    low: i64,
    high: i64,
}

/// The most numbers of a range by which versions of the past are looked up. A lookup by a range meets the versions of
/// all times; without one, an index returns those of the requested time alone.
const RANGE_OF_THE_PAST: i64 = 1_024;

/// Whether a range has few numbers.
fn is_narrow(low: i64, high: i64) -> bool
    ensures { result ≡ narrow (low, high) }
{
    high.saturating_sub(low) < RANGE_OF_THE_PAST
}

/// Returns the range to which the conjuncts limit a column, if rows are looked up by it: current rows by any range,
/// other versions by a narrow one.
fn range_for(
    terms: &Terms,
    conjuncts: &[CondId],
    column: usize,
    is_current: bool,
) -> Option<(i64, i64)>
    requires { All (HasCond terms.now) conjuncts.now }
    ensures given { result ≡ range_given is_current column (map (cond terms.now) conjuncts.now) }
    ensures limited { IfSome result (λ r. range_in column (map (cond terms.now) conjuncts.now) ≡ Some r) }
{
    match range(terms, conjuncts, column) {
        Some((low, high)) if is_current || is_narrow(low, high) => Some((low, high)),
        _ => None,
    }
}

/// Returns the first of these columns that the conjuncts limit to a range by which rows are looked up. They are
/// searched once for each column.
fn first_range(
    singles: &Singles<'_>,
    terms: &Terms,
    conjuncts: &[CondId],
    is_current: bool,
) -> Option<Ranged>
    requires { All (HasCond terms.now) conjuncts.now }
    ensures column { option_map (λ r. r.column ∷ []) result
        ≡ ranged_in singles.now.definition.now is_current (map (cond terms.now) conjuncts.now) }
    ensures limited { IfSome result (λ r. range_in r.column (map (cond terms.now) conjuncts.now)
        ≡ Some (r.low, r.high)) }
{
    for column in &singles.columns {
        if let Some((low, high)) = range_for(terms, conjuncts, *column, is_current) {
            return Some(Ranged {
                column: *column,
                low,
                high,
            });
        }
    }
    None
}

/// Returns the lookup by a range.
fn in_range(definition: &TableDef, found: Ranged) -> Manner
    requires { IsTrue (are_assignable definition.now (found.column ∷ [])) }
    ensures { (conds : List Cond) → range_in found.column conds ≡ Some (found.low, found.high)
        → IsInRange definition.now conds (found.column ∷ []) (sought_in result) }
{
    let stored = definition.stored_number(found.column);
    Manner::Range(stored, found.low, found.high)
}

/// Returns the lookup by the range of the first key, else of the first reference, of one column that the conjuncts
/// limit to a range by which rows are looked up. If there is none, all rows are read. The only error is a refused
/// allocation.
fn ranged_manner(
    memory: Memory,
    definition: &TableDef,
    terms: &Terms,
    conjuncts: &[CondId],
    is_current: bool,
) -> Result<Manner, AllocError>
    requires { All (HasCond terms.now) conjuncts.now }
    ensures { IfOk result (λ m. IsRangedBy definition.now (map (cond terms.now) conjuncts.now)
        (ranged_in definition.now is_current (map (cond terms.now) conjuncts.now)) (sought_in m)) }
{
    let singles = single_columns(memory, definition)?;
    match first_range(&singles, terms, conjuncts, is_current) {
        Some(found) => Ok(in_range(definition, found)),
        None => Ok(Manner::Whole),
    }
}

/// Returns the lookup `said` for a period. If it reads all rows, returns a lookup by a range, if the conjuncts limit a
/// column to one. The only error is a refused allocation.
pub(crate) fn or_ranged(
    memory: Memory,
    definition: &TableDef,
    terms: &Terms,
    conjuncts: &[CondId],
    is_current: bool,
    said: Manner,
) -> Result<Manner, AllocError>
    requires { All (HasCond terms.now) conjuncts.now }
    ensures { IfOk result (λ m. IsOrRanged definition.now (map (cond terms.now) conjuncts.now) is_current
        (sought_in said) (sought_in m)) }
{
    if said.is_whole() {
        ranged_manner(memory, definition, terms, conjuncts, is_current)
    } else {
        Ok(said)
    }
}
