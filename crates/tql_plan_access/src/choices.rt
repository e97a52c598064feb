//! The conjunct by whose alternatives the rows of a table are looked up.
ghost use Rattle.std.specs.Prelude.{◌≡◌, ◌∷◌, [], All, IfOk, IfSome, IsTrue, length, map, Option, option_map};
ghost use Rattle.tql_spec.specs.Period as periods;
ghost use Rattle.tql_catalog.specs.Rows.{are_assignable};
ghost use Rattle.tql_expr.specs.Meaning.{cond, HasCond};
ghost use Rattle.tql_plan_access.specs.Access.{period_columns, ServesChange};
ghost use Rattle.tql_plan_access.specs.Choices.{choice_by, choice_in, chooses};
ghost use Rattle.tql_plan_access.specs.Alternatives.{AlternativesAreEnough, AreAlternatives, AreChosenBy, ServesAny};
ghost use Rattle.tql_plan_access.specs.Alternatives.{has_any, named, values_of};

use crate::alternatives::{Alternatives, alternatives_at, is_choice};
use crate::safe::{safe_conjuncts, safe_part_decides};
use crate::singles::{Singles, single_columns};
use std::alloc::AllocError;
use tql_catalog::table_def::TableDef;
use tql_expr::terms::{CondId, Terms};
use tql_memory::Memory;
use tql_plan_laws::constants_are_met;

/// A conjunct, and the only column of a key or of a reference with one of whose values it is met.
#[derive(Clone, Copy)]
struct Choice {
    conjunct: CondId,
    column: usize,
}

/// States that it is enough to look at the rows with one of the values of alternatives.
pub fn alternatives_are_enough()
    ensures { AlternativesAreEnough }
{
    safe_part_decides();
}

/// Returns the first of these columns of which a condition chooses a value.
fn choice_of(singles: &Singles<'_>, terms: &Terms, c: CondId) -> Option<Choice>
    requires { HasCond terms.now c }
    ensures choice { option_map (named terms.now) result ≡ choice_by singles.now.definition.now (cond terms.now c) }
    ensures there { IfSome result (λ p. HasCond terms.now p.conjunct) }
{
    for column in &singles.columns {
        if is_choice(terms, c, *column) {
            return Some(Choice {
                conjunct: c,
                column: *column,
            });
        }
    }
    None
}

/// Returns the first conjunct that chooses one of these columns.
fn first_choice(singles: &Singles<'_>, terms: &Terms, conjuncts: &[CondId]) -> Option<Choice>
    requires { All (HasCond terms.now) conjuncts.now }
    ensures choice { option_map (named terms.now) result
        ≡ choice_in singles.now.definition.now (map (cond terms.now) conjuncts.now) }
    ensures there { IfSome result (λ p. HasCond terms.now p.conjunct) }
{
    for conjunct in conjuncts {
        if let Some(choice) = choice_of(singles, terms, *conjunct) {
            return Some(choice);
        }
    }
    None
}

/// Returns the alternatives of a choice. The only error is a refused allocation.
fn chosen<'a>(
    memory: Memory,
    definition: &TableDef,
    terms: &'a Terms,
    choice: Choice,
) -> Result<Alternatives<'a>, AllocError>
    requires there { HasCond terms.now choice.conjunct }
    requires chooses { IsTrue (chooses (cond terms.now choice.conjunct) (choice.column ∷ [])) }
    requires assignable { IsTrue (are_assignable definition.now (choice.column ∷ [])) }
    ensures { IfOk result (λ a.
        AreChosenBy definition.now (cond terms.now choice.conjunct) (choice.column ∷ []) a) }
{
    let stored = definition.stored_number(choice.column);
    alternatives_at(memory, terms, choice.conjunct, choice.column, stored)
}

/// Returns the alternatives of the first conjunct that equates the only column of a key, or of a reference, with one of
/// several literals. Only the conjuncts before the first that can be out of range are used. Each row that passes the
/// conjuncts has one of the values. A change with these conjuncts touches no other row, and is not refused because of
/// one. The only error is a refused allocation.
pub fn alternatives<'a>(
    memory: Memory,
    definition: &TableDef,
    terms: &'a Terms,
    conjuncts: &[CondId],
) -> Result<Option<Alternatives<'a>>, AllocError>
    requires { All (HasCond terms.now) conjuncts.now }
    ensures which { IfOk result (λ o. AreAlternatives definition.now (map (cond terms.now) conjuncts.now) o) }
    ensures serves { IfOk result (λ o. IfSome o (λ a. ServesAny definition.now.system
        (period_columns definition.now) (length definition.now.columns) (map (cond terms.now) conjuncts.now) a.column
        (values_of a))) }
    ensures changes { IfOk result (λ o. IfSome o (λ a. (portion : Option periods.Period)
        → ServesChange definition.now portion (map (cond terms.now) conjuncts.now)
        (has_any a.column (values_of a)))) }
{
    constants_are_met();
    let decisive = safe_conjuncts(terms, conjuncts);
    let singles = single_columns(memory, definition)?;
    match first_choice(&singles, terms, decisive) {
        Some(choice) => {
            let found = chosen(memory, definition, terms, choice)?;
            Ok(Some(found))
        }
        None => Ok(None),
    }
}
