//! The choice of a table's access path.
ghost use Rattle.std.specs.Prelude.{◌≡◌, All, IfOk, map, option_map, true};
ghost use Rattle.tql_catalog.specs.Defined.{IsDefinition};
ghost use Rattle.tql_catalog.specs.Sought.{sought_columns};
ghost use Rattle.tql_expr.specs.Meaning.{cond, HasCond};
ghost use Rattle.tql_period.specs.Points.{points_of};
ghost use Rattle.tql_store_index.specs.Basis.{is_looked_at};
ghost use Rattle.tql_plan_access.specs.Access.{first_given, key_given, safe_part, ServesChange, ServesTable, sought_in};
ghost use Rattle.tql_plan_access.specs.Said.{IsPortionBy, IsSoughtBy, IsSoughtFor, IsSoughtForChange};

use crate::access::{Access, Manner};
use crate::given::given_columns;
use crate::ranges::or_ranged;
use crate::safe::safe_conjuncts;
use crate::said::{current_manner, portion_manner};
use std::alloc::AllocError;
use tql_catalog::table_def::TableDef;
use tql_expr::terms::{CondId, Terms};
use tql_memory::Memory;
use tql_period::period::Period;
use tql_plan_laws::constants_are_met;

/// Returns a lookup by the first key, else by the first reference, whose columns are all given values by the conjuncts,
/// narrowed to the period of `said`, if any. If there is none, the access path is `said` alone, or a lookup by a range
/// of a single such column if `said` reads all rows.
fn keyed<'a>(
    memory: Memory,
    definition: &TableDef,
    terms: &'a Terms,
    conjuncts: &[CondId],
    is_current: bool,
    said: Manner,
) -> Result<Access<'a>, AllocError>
    requires { All (HasCond terms.now) conjuncts.now }
    ensures sought { IfOk result (λ a. IsSoughtBy definition.now (map (cond terms.now) conjuncts.now)
        is_current (first_given (map (cond terms.now) conjuncts.now) (sought_columns definition.now))
        (λ o. o ≡ sought_in said) a) }
    ensures right { IfOk result (λ a. IsDefinition definition.now) }
{
    match given_columns(memory, definition, terms, conjuncts)? {
        Some(columns) => Access::by_key(memory, definition, terms, conjuncts, columns, said),
        None => {
            let manner = or_ranged(memory, definition, terms, conjuncts, is_current, said)?;
            Ok(Access::unkeyed(memory, manner))
        }
    }
}

/// Returns the access path of a table for these conjuncts. Only the conjuncts before the first that can be out of range
/// are used; every row outside the path fails one of them. If they give a value to each column of a key, or else of a
/// reference, the path looks up the first such key or reference. For current rows, the path is also restricted to the
/// rows whose application period contains a constant point, or else overlaps a constant period, if a conjunct says so.
/// Without any of these, if conjuncts limit the only column of a key, or else of a reference, by two literals of one
/// kind, the path is the range between them; for other versions than current rows only if it has few numbers. Otherwise
/// all rows are scanned. The only error is a refused allocation.
pub fn access<'a>(
    memory: Memory,
    definition: &TableDef,
    terms: &'a Terms,
    conjuncts: &[CondId],
    is_current: bool,
) -> Result<Access<'a>, AllocError>
    requires { All (HasCond terms.now) conjuncts.now }
    ensures serves { IfOk result (λ a. ServesTable definition.now (map (cond terms.now) conjuncts.now) a) }
    ensures sought { IfOk result (λ a. IsSoughtFor definition.now (map (cond terms.now) conjuncts.now)
        is_current a) }
{
    constants_are_met();
    let decisive = safe_conjuncts(terms, conjuncts);
    let said = current_manner(definition, terms, decisive, is_current);
    keyed(memory, definition, terms, decisive, is_current, said)
}

/// Returns the access path to the current rows that share a point with a portion, by key or reference where possible.
fn portion_access<'a>(
    memory: Memory,
    definition: &TableDef,
    terms: &'a Terms,
    conjuncts: &[CondId],
    portion: Period,
) -> Result<Access<'a>, AllocError>
    requires { All (HasCond terms.now) conjuncts.now }
    ensures sought { IfOk result (λ a. IsSoughtBy definition.now (safe_part (map (cond terms.now) conjuncts.now))
        true (key_given definition.now (map (cond terms.now) conjuncts.now))
        (IsPortionBy definition.now (points_of portion) definition.now.application) a) }
    ensures right { IsDefinition definition.now }
{
    let said = portion_manner(definition, portion);
    keyed(
        memory,
        definition,
        terms,
        safe_conjuncts(terms, conjuncts),
        true,
        said,
    )
}

/// Returns the access path to the current rows for an UPDATE or DELETE with these conjuncts. The change touches no
/// other row, and is not refused because of one. With a portion, the path is restricted to rows whose application
/// period shares a point with it, and uses a key or reference as [`access`] does. Without a portion, it is the path of
/// [`access`]. The only error is a refused allocation.
pub fn change_access<'a>(
    memory: Memory,
    definition: &TableDef,
    terms: &'a Terms,
    conjuncts: &[CondId],
    portion: Option<Period>,
) -> Result<Access<'a>, AllocError>
    requires { All (HasCond terms.now) conjuncts.now }
    ensures serves { IfOk result (λ a. ServesChange definition.now (option_map points_of portion)
        (map (cond terms.now) conjuncts.now) (is_looked_at a)) }
    ensures sought { IfOk result (λ a. IsSoughtForChange definition.now (option_map points_of portion)
        (map (cond terms.now) conjuncts.now) a) }
{
    constants_are_met();
    match portion {
        None => access(memory, definition, terms, conjuncts, true),
        Some(portion) => portion_access(memory, definition, terms, conjuncts, portion),
    }
}
