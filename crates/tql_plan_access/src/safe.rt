//! The safe part of a list of conjuncts: those before the first that can be out of range. It decides the access path.
ghost use Rattle.std.specs.Prelude.{◌≡◌, All, map};
ghost use Rattle.tql_expr.specs.Meaning.{cond, HasCond};
ghost use Rattle.tql_plan_access.specs.Access.{LookingIsEnough, SafePartDecides, safe_part};

use tql_expr::terms::{CondId, Terms};
use tql_spec::safe_conditions;

/// States that a row that fails the safe part fails the conjuncts and raises no error. So it is enough to look at rows
/// that meet the safe part.
pub fn safe_part_decides()
    ensures decides { SafePartDecides }
    ensures enough { LookingIsEnough }
{
    safe_conditions();
}

/// Returns the conjuncts before the first that can be out of range.
pub fn safe_conjuncts<'c>(terms: &Terms, conjuncts: &'c [CondId]) -> &'c [CondId]
    requires { All (HasCond terms.now) conjuncts.now }
    ensures part { map (cond terms.now) result.now ≡ safe_part (map (cond terms.now) conjuncts.now) }
    ensures there { All (HasCond terms.now) result.now }
{
    for (place, conjunct) in conjuncts.iter().enumerate() {
        if !terms.is_safe(*conjunct) {
            return &conjuncts[..place];
        }
    }
    conjuncts
}
