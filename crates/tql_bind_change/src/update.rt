//! Name binding of UPDATE.
ghost use Rattle.std.specs.Prelude.{◌∷◌, All, IfOk, option_map};
ghost use Rattle.tql_spec.specs.Binding.{bind};
ghost use Rattle.tql_spec.specs.Machine.{ChangeRows};
ghost use Rattle.tql_bound.specs.Changes.{modification_of};
ghost use Rattle.tql_catalog.specs.Tables.{definitions_of};
ghost use Rattle.tql_expr.specs.Meaning.{Stays};
ghost use Rattle.tql_syntax_tree.specs.Expressions.{name_of};
ghost use Rattle.tql_syntax_tree.specs.Statements.{assignment_of, assignments_of, portion_of, update_of};
ghost use Rattle.tql_bind_expr.specs.Gathered.{Gathers};
ghost use Rattle.tql_bind_change.specs.Cells.{HasAssigned};
ghost use Rattle.tql_bind_change.specs.Heads as heads;

use crate::portion::{period_assigned, portion, sets_period};
use crate::sets::{assignments, own_reference, set_columns};
use std::alloc::AllocError;
use tql_bind_cond::conjuncts::plain_filter;
use tql_bind_expr::faults::Faults;
use tql_bind_expr::tables::table_number;
use tql_bound::change::{Assignment, Modification, Work};
use tql_catalog::catalog::Catalog;
use tql_catalog::table_def::TableDef;
use tql_expr::terms::Terms;
use tql_memory::Memory;
use tql_period::period::Period;
use tql_syntax_tree::statement::Update;
use tql_value::refusal::Refusal;

/// The parts of an UPDATE before its WHERE: the index of its table, its portion, if any, and its assignments.
#[derive(Drop)]
pub struct Head {
    pub table: usize,
    pub portion: Option<Period>,
    pub sets: Vec<Assignment, Memory>,
}

/// Binds the parts of an UPDATE before its WHERE. Faults: no table has the name; those of `portion`; a column of SET is
/// unknown, repeated or generated, or belongs to the period whose portion is changed; a cell has a fault of its own, or
/// is of another kind than its column.
pub(crate) fn update_head(
    memory: Memory,
    catalog: &Catalog,
    update: &Update<'_>,
    terms: &mut Terms,
    faults: &mut Faults,
) -> Result<Head, AllocError>
    ensures bound { IfOk result (λ head. Gathers
        (heads.update_head (definitions_of catalog.now) (name_of update.now.table)
        (option_map portion_of update.now.portion) (assignment_of update.now.first ∷ assignments_of update.now.more))
        faults.old faults.new (heads.head_of terms.new head)) }
    ensures stays { Stays terms.old terms.new }
    ensures held { IfOk result (λ head. All (HasAssigned terms.new) head.sets.items) }
{
    let table = table_number(memory, catalog, update.table, faults)?;
    let nothing = TableDef::nothing(memory);
    let definition = catalog.definition_or(table, &nothing);
    let portion = portion(memory, definition, update.portion, faults)?;
    let numbers = set_columns(memory, definition, &update.first, &update.more, faults)?;
    faults.refuse_if(
        sets_period(definition, update.portion, &numbers),
        Refusal::FormNotAllowedHere,
        period_assigned(definition, &update.first, &update.more, &numbers),
    );
    let sets = assignments(
        memory,
        definition,
        &update.first,
        &update.more,
        terms,
        faults,
    )?;
    Ok(Head {
        table,
        portion,
        sets,
    })
}

/// Binds an UPDATE. Faults: those of `update_head`; in WHERE, a name that is unknown or ambiguous, kinds that do not
/// fit, an aggregate, or a literal that is out of range.
pub fn update_rows(
    memory: Memory,
    catalog: &Catalog,
    update: &Update<'_>,
    faults: &mut Faults,
) -> Result<Modification, AllocError>
    ensures { IfOk result
        (λ x. Gathers (bind (definitions_of catalog.now) (update_of update.now)) faults.old faults.new
        (ChangeRows (modification_of x))) }
{
    let mut terms = Terms::new(memory);
    let Head {
        table,
        portion,
        sets,
    } = update_head(memory, catalog, update, &mut terms, faults)?;
    let nothing = TableDef::nothing(memory);
    let scope = [own_reference(catalog.definition_or(table, &nothing))];
    let conjuncts = plain_filter(memory, &scope, &update.filter, &mut terms, faults)?;
    Ok(Modification {
        terms,
        table,
        portion,
        work: Work::Set(sets),
        conjuncts,
    })
}
