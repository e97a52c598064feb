//! From conjuncts to a screen.
ghost use Rattle.std.specs.Prelude.{◌≡◌, ◌<◌, ◌∷◌, [], false, All, IfOk, IsTrue, OnOk, length, map};
ghost use Rattle.std.specs.List.{list_any};
ghost use Rattle.tql_spec.specs.Binding.{all_assignable, is_generated};
ghost use Rattle.tql_catalog.specs.Defined.{IsDefinition};
ghost use Rattle.tql_expr.specs.Meaning.{cond, HasCond};
ghost use Rattle.tql_plan_access.specs.Access.{period_columns};
ghost use Rattle.tql_plan_access.specs.Choices.{is_choice};
ghost use Rattle.tql_plan_screen.specs.Coded.{Gains};
ghost use Rattle.tql_plan_screen.specs.Screens.{is_compared, parts, parts_of, IsScreen, IsScreenOf};

use crate::parts::{sides, stored_choice, stored_comparison};
use crate::screen::Screen;
use std::alloc::AllocError;
use tql_catalog::table_def::TableDef;
use tql_expr::terms::{CondId, Terms};
use tql_memory::Memory;
use tql_plan_access::alternatives::alternatives_at;
use tql_plan_access::safe::safe_conjuncts;
use tql_spec::safe_conditions;

/// States that the definition of a table follows the rules for definitions.
fn is_definition(definition: &TableDef)
    ensures { IsDefinition definition.now }
{
    let _columns = definition.columns();
}

/// Adds the test for the values of a choice.
fn add_choice<'a>(
    memory: Memory,
    definition: &TableDef,
    terms: &'a Terms,
    c: CondId,
    column: usize,
    screen: &mut Screen<'a>,
) -> Result<(), AllocError>
    requires there { HasCond terms.now c }
    requires choice { IsTrue (is_choice column (cond terms.now c)) }
    requires within { column < length definition.now.columns }
    requires stored { is_generated definition.now column ≡ false }
    ensures { OnOk result (Gains definition.now (cond terms.now c ∷ []) screen.old screen.new) }
{
    safe_conditions();
    let stored = definition.stored_number(column);
    let set = alternatives_at(memory, terms, c, column, stored)?;
    screen.add_set(set)
}

/// Adds the test for a condition that is not a comparison, if it is a choice of a stored column. Otherwise the screen
/// is not whole.
fn add_other<'a>(
    memory: Memory,
    definition: &TableDef,
    terms: &'a Terms,
    c: CondId,
    screen: &mut Screen<'a>,
) -> Result<(), AllocError>
    requires there { HasCond terms.now c }
    requires other { list_any (λ i. is_compared i (cond terms.now c)) (all_assignable definition.now) ≡ false }
    ensures { OnOk result (Gains definition.now (cond terms.now c ∷ []) screen.old screen.new) }
{
    match stored_choice(definition, terms, c) {
        Some(column) => add_choice(memory, definition, terms, c, column, screen),
        None => {
            screen.leave_open();
            Ok(())
        }
    }
}

/// Adds the test for a part of a conjunct, if it is one. Otherwise the screen is not whole.
fn add_part<'a>(
    memory: Memory,
    definition: &TableDef,
    terms: &'a Terms,
    c: CondId,
    screen: &mut Screen<'a>,
) -> Result<(), AllocError>
    requires { HasCond terms.now c }
    ensures { OnOk result (Gains definition.now (cond terms.now c ∷ []) screen.old screen.new) }
{
    match stored_comparison(definition, terms, c) {
        Some(compared) => screen.add_comparison(compared),
        None => add_other(memory, definition, terms, c, screen),
    }
}

/// Adds the tests for the parts of a conjunct.
fn add_conjunct<'a>(
    memory: Memory,
    definition: &TableDef,
    terms: &'a Terms,
    c: CondId,
    screen: &mut Screen<'a>,
) -> Result<(), AllocError>
    requires { HasCond terms.now c }
    ensures { OnOk result (Gains definition.now (parts (cond terms.now c)) screen.old screen.new) }
{
    let mut here = c;
    while let Some(both) = sides(terms, here) {
        add_part(memory, definition, terms, both.right, screen)?;
        here = both.left;
    }
    add_part(memory, definition, terms, here, screen)
}

/// Adds the tests for the parts of conjuncts.
fn add_conjuncts<'a>(
    memory: Memory,
    definition: &TableDef,
    terms: &'a Terms,
    conjuncts: &[CondId],
    screen: &mut Screen<'a>,
) -> Result<(), AllocError>
    requires { All (HasCond terms.now) conjuncts.now }
    ensures { OnOk result
        (Gains definition.now (parts_of (map (cond terms.now) conjuncts.now)) screen.old screen.new) }
{
    for conjunct in conjuncts {
        add_conjunct(memory, definition, terms, *conjunct, screen)?;
    }
    Ok(())
}

/// Returns the screen of conjuncts for the rows of a table. Of the conjuncts before the first that can be out of range,
/// and of both sides of each AND among them (so also of BETWEEN), it has a test for each comparison of a stored column
/// with a literal, either way round, and for each IN of literals and each OR of equalities with literals on one such
/// column. The generated columns of a versioned table are not stored. It is whole if each part of each conjunct has a
/// test. The only error is a refused allocation.
pub fn screen_of<'a>(
    memory: Memory,
    definition: &TableDef,
    terms: &'a Terms,
    conjuncts: &[CondId],
) -> Result<Screen<'a>, AllocError>
    requires { All (HasCond terms.now) conjuncts.now }
    ensures which { IfOk result (λ s. IsScreenOf definition.now (map (cond terms.now) conjuncts.now) s) }
    ensures serves { IfOk result (λ s. IsScreen definition.now.system (period_columns definition.now)
        (length definition.now.columns) (map (cond terms.now) conjuncts.now) s) }
{
    is_definition(definition);
    let decisive = safe_conjuncts(terms, conjuncts);
    let mut screen: Screen<'a> = Screen::begun(memory, decisive.len() == conjuncts.len());
    add_conjuncts(memory, definition, terms, decisive, &mut screen)?;
    Ok(screen)
}
