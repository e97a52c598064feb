//! The output columns of a select list.
ghost use Rattle.std.specs.Prelude.{◌≡◌, [], ◌∷◌, All, IfOk, map};
ghost use Rattle.tql_spec.specs.Binding as binding;
ghost use Rattle.tql_spec.specs.Names.{sound};
ghost use Rattle.tql_spec.specs.Syntax.{AllColumns, TheseItems};
ghost use Rattle.tql_catalog.specs.Definitions.{column_of};
ghost use Rattle.tql_expr.specs.Meaning.{HasExpr, Stays};
ghost use Rattle.tql_syntax_tree.specs.Statements.{item_of, items_of};
ghost use Rattle.tql_bind_expr.specs.Gathered.{Gathers};
ghost use Rattle.tql_bind_expr.specs.Scopes.{scope_of};
ghost use Rattle.tql_bind_query.specs.Shown.{column_output, outputs_of, shown, PushesItem, PushesOutputs};

use crate::headings::heading;
use std::alloc::AllocError;
use tql_bind_expr::expressions::sum;
use tql_bind_expr::faults::Faults;
use tql_bind_expr::scope::Known;
use tql_catalog::definition::Column;
use tql_expr::terms::{ExprId, Terms};
use tql_memory::Memory;
use tql_syntax_tree::statement::{Item, Items};
use tql_value::value::Kind;

/// The output columns of a select list: their values, headings and kinds. A kind is missing if it is not known.
#[derive(Drop)]
pub struct SelectList {
    pub items: Vec<ExprId, Memory>,
    pub headings: Vec<String<Memory>, Memory>,
    pub kinds: Vec<Option<Kind>, Memory>,
}

impl SelectList {
    /// Returns an empty list.
    fn none(memory: Memory) -> SelectList
        ensures items { result.items.items ≡ [] }
        ensures headings { result.headings.items ≡ [] }
        ensures kinds { result.kinds.items ≡ [] }
    {
        SelectList {
            items: Vec::new(memory),
            headings: Vec::new(memory),
            kinds: Vec::new(memory),
        }
    }
}

/// Binds an item of the select list and adds it as the last output column.
fn push_item(
    memory: Memory,
    scope: &[Known<'_>],
    item: &Item<'_>,
    outputs: &mut SelectList,
    terms: &mut Terms,
    faults: &mut Faults,
) -> Result<(), AllocError>
    ensures pushes { IfOk result
        (λ _. PushesItem (scope_of scope.now) (item_of item.now) faults.old faults.new
        terms.new outputs.old outputs.new) }
    ensures stays { Stays terms.old terms.new }
{
    let value = sum(memory, scope, &item.value, terms, faults)?;
    let name = heading(memory, item, outputs.headings.len() + 1)?;
    outputs.items.push(value.expr)?;
    outputs.headings.push(name)?;
    outputs.kinds.push(value.kind)?;
    Ok(())
}

/// Binds the items of a select list: the first and the later ones.
fn these(
    memory: Memory,
    scope: &[Known<'_>],
    first: &Item<'_>,
    more: &[Item<'_>],
    terms: &mut Terms,
    faults: &mut Faults,
) -> Result<SelectList, AllocError>
    ensures bound { IfOk result
        (λ x. Gathers (shown (scope_of scope.now) (TheseItems (item_of first.now) (map item_of more.now))) faults.old
        faults.new (outputs_of terms.new x)) }
    ensures stays { Stays terms.old terms.new }
    ensures held { IfOk result (λ x. All (HasExpr terms.new) x.items.items) }
{
    let mut outputs = SelectList::none(memory);
    push_item(memory, scope, first, &mut outputs, terms, faults)?;
    for item in more {
        push_item(memory, scope, item, &mut outputs, terms, faults)?;
    }
    Ok(outputs)
}

/// Adds a column of a table, with its number, as an output column headed by its name.
fn push_column(
    memory: Memory,
    column: &Column,
    number: usize,
    outputs: &mut SelectList,
    terms: &mut Terms,
) -> Result<(), AllocError>
    requires { All (HasExpr terms.old) outputs.old.items.items }
    ensures pushes { IfOk result
        (λ _. PushesOutputs (column_output number (column_of column.now) ∷ []) terms.old
        terms.new outputs.old outputs.new) }
    ensures stays { Stays terms.old terms.new }
{
    let value = terms.push_column(number)?;
    let name = String::from_str(memory, column.name.as_str())?;
    outputs.items.push(value)?;
    outputs.headings.push(name)?;
    outputs.kinds.push(Some(column.kind))?;
    Ok(())
}

/// Adds each column of a reference as an output column headed by its name.
fn push_columns(
    memory: Memory,
    known: &Known<'_>,
    outputs: &mut SelectList,
    terms: &mut Terms,
) -> Result<(), AllocError>
    requires { All (HasExpr terms.old) outputs.old.items.items }
    ensures pushes { IfOk result
        (λ _. PushesOutputs (binding.all_columns_from known.now.offset (map column_of known.now.columns.now)) terms.old
        terms.new outputs.old outputs.new) }
    ensures stays { Stays terms.old terms.new }
{
    let columns = known.columns;
    for index in 0..columns.len() {
        push_column(
            memory,
            &columns[index],
            known.offset + index,
            outputs,
            terms,
        )?;
    }
    Ok(())
}

/// Binds `*`: each column of each reference, headed by its name.
fn all_columns(
    memory: Memory,
    scope: &[Known<'_>],
    terms: &mut Terms,
) -> Result<SelectList, AllocError>
    ensures bound { IfOk result (λ x. sound (outputs_of terms.new x) ≡ shown (scope_of scope.now) AllColumns) }
    ensures stays { Stays terms.old terms.new }
    ensures held { IfOk result (λ x. All (HasExpr terms.new) x.items.items) }
{
    let mut outputs = SelectList::none(memory);
    for known in scope {
        push_columns(memory, known, &mut outputs, terms)?;
    }
    Ok(outputs)
}

/// Binds a select list: the values, headings and kinds of its output columns. Faults: a name is unknown or ambiguous;
/// kinds do not fit; a literal is out of range. The only error is a refused allocation.
pub fn outputs(
    memory: Memory,
    scope: &[Known<'_>],
    items: &Items<'_>,
    terms: &mut Terms,
    faults: &mut Faults,
) -> Result<SelectList, AllocError>
    ensures bound { IfOk result
        (λ x. Gathers (shown (scope_of scope.now) (items_of items.now)) faults.old
        faults.new (outputs_of terms.new x)) }
    ensures stays { Stays terms.old terms.new }
    ensures held { IfOk result (λ x. All (HasExpr terms.new) x.items.items) }
{
    match items {
        Items::All => all_columns(memory, scope, terms),
        Items::These(first, more) => these(memory, scope, first, more, terms, faults),
    }
}
