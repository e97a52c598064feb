//! The assignments of SET.
ghost use Rattle.std.specs.Prelude.{◌≡◌, [], ◌∷◌, All, IfOk, map};
ghost use Rattle.tql_spec.specs.Binding as binding;
ghost use Rattle.tql_spec.specs.Names.{check_each};
ghost use Rattle.tql_bound.specs.Works as bound;
ghost use Rattle.tql_expr.specs.Meaning.{Stays};
ghost use Rattle.tql_syntax_tree.specs.Statements.{assignment_of};
ghost use Rattle.tql_bind_expr.specs.Gathered.{Gathers};
ghost use Rattle.tql_bind_expr.specs.Scopes.{scope_of, word_of};
ghost use Rattle.tql_bind_change.specs.Cells.{HasAssigned};

use crate::columns::{assigned_columns, column_kind, named_column};
use std::alloc::AllocError;
use tql_bind_expr::about::{About, Cause};
use tql_bind_expr::cells::cell;
use tql_bind_expr::faults::Faults;
use tql_bind_expr::kinds::is_other_kind;
use tql_bind_expr::scope::Known;
use tql_bind_expr::tables::known_table;
use tql_bind_expr::texts::{Word, meant_word};
use tql_bound::change::Assignment;
use tql_catalog::table_def::TableDef;
use tql_expr::terms::Terms;
use tql_memory::Memory;
use tql_syntax_tree::statement::SetTree;
use tql_value::refusal::Refusal;

/// Returns the one reference in the scope of a change: its table, known by its own name.
pub fn own_reference(definition: &TableDef) -> Known<'_>
    ensures { scope_of (result ∷ []) ≡ binding.own_scope definition.now }
{
    // The length of the slice bounds the column numbers, so they fit in 64 bits.
    let _width = definition.columns().len();
    known_table(definition.name(), definition, 0, 0)
}

/// Binds an assignment. Faults: its column is unknown; its cell has a fault of its own, or is of another kind than the
/// column.
#[tactic(auto, using(tql_bind_expr::proofs::Gathering::gathering))]
fn assignment(
    memory: Memory,
    definition: &TableDef,
    set: &SetTree<'_>,
    terms: &mut Terms,
    faults: &mut Faults,
) -> Result<Assignment, AllocError>
    ensures bound { IfOk result
        (λ a. Gathers (binding.assignment definition.now (assignment_of set.now)) faults.old faults.new
        (bound.assignment_of terms.new a)) }
    ensures stays { Stays terms.old terms.new }
    ensures held { IfOk result (HasAssigned terms.new) }
{
    let column = named_column(memory, definition, set.column, faults)?;
    let scope = [own_reference(definition)];
    let value = cell(memory, &scope, &set.value, terms, faults)?;
    faults.refuse_if(
        is_other_kind(column_kind(definition, column), value.kind),
        Refusal::TypesDoNotFit,
        About::at(Cause::KindsDiffer, set.column.start)
            .and(value.start)
            .kinds(Some(column_kind(definition, column)), value.kind),
    );
    Ok(Assignment {
        column,
        value: value.expr,
    })
}

/// Binds the assignments of SET: the first and the later ones. Faults: those of each. `set_columns` decides whether a
/// user may assign the columns.
pub fn assignments(
    memory: Memory,
    definition: &TableDef,
    first: &SetTree<'_>,
    more: &[SetTree<'_>],
    terms: &mut Terms,
    faults: &mut Faults,
) -> Result<Vec<Assignment, Memory>, AllocError>
    ensures bound { IfOk result
        (λ v. Gathers (check_each (binding.assignment definition.now)
        (assignment_of first.now ∷ map assignment_of more.now)) faults.old faults.new
        (map (bound.assignment_of terms.new) v.items)) }
    ensures stays { Stays terms.old terms.new }
    ensures held { IfOk result (λ v. All (HasAssigned terms.new) v.items) }
{
    let mut sets = Vec::new(memory);
    sets.push(assignment(memory, definition, first, terms, faults)?)?;
    for set in more {
        sets.push(assignment(memory, definition, set, terms, faults)?)?;
    }
    Ok(sets)
}

/// Decodes the names of the columns of SET.
fn set_names(
    memory: Memory,
    first: &SetTree<'_>,
    more: &[SetTree<'_>],
) -> Result<Vec<Word, Memory>, AllocError>
    ensures { IfOk result
        (λ names. map word_of names.items
        ≡ map (λ set. set.column) (assignment_of first.now ∷ map assignment_of more.now)) }
{
    let mut names = Vec::new(memory);
    names.push(meant_word(memory, first.column)?)?;
    for set in more {
        names.push(meant_word(memory, set.column)?)?;
    }
    Ok(names)
}

/// Returns the numbers of the columns of SET. Faults: one is unknown, repeated or generated.
pub fn set_columns(
    memory: Memory,
    definition: &TableDef,
    first: &SetTree<'_>,
    more: &[SetTree<'_>],
    faults: &mut Faults,
) -> Result<Vec<usize, Memory>, AllocError>
    ensures { IfOk result
        (λ numbers. Gathers (binding.assigned_columns definition.now
        (map (λ set. set.column) (assignment_of first.now ∷ map assignment_of more.now)))
        faults.old faults.new numbers.items) }
{
    let names = set_names(memory, first, more)?;
    assigned_columns(memory, definition, &names, faults)
}
