//! The headings of output columns.
ghost use Rattle.std.specs.Prelude.{◌≡◌, ◌++◌, IfOk, None, codes, decimal, string_bytes};
ghost use Rattle.tql_spec.specs.Binding as binding;
ghost use Rattle.tql_spec.specs.Names as names;
ghost use Rattle.tql_syntax_tree.specs.Expressions.{expr_of};
ghost use Rattle.tql_syntax_tree.specs.Statements.{item_of};

use std::alloc::AllocError;
use tql_bind_cond::sole_names::sole_name;
use tql_bind_expr::texts::meant;
use tql_memory::Memory;
use tql_syntax_tree::expression::Expr;
use tql_syntax_tree::statement::Item;

/// Returns the heading of a column without a name: `C` and its position, counted from 1.
fn numbered(memory: Memory, position: usize) -> Result<String<Memory>, AllocError>
    ensures { IfOk result (λ h. string_bytes h ≡ codes "C" ++ decimal position) }
{
    format!(in memory; "C{position}")
}

/// Returns the heading of an expression without an alias: the name of a column alone, else `C` and the position.
fn own_heading(
    memory: Memory,
    value: &Expr<'_>,
    position: usize,
) -> Result<String<Memory>, AllocError>
    ensures { IfOk result
        (λ h. string_bytes h ≡ binding.heading_by None (names.sole_name (expr_of value.now)) position) }
{
    match sole_name(value) {
        Some(named) => meant(memory, named.name),
        None => numbered(memory, position),
    }
}

/// Returns the heading of an item at a position, counted from 1: its alias, else the name of a column alone, else `C`
/// and the position. The only error is a refused allocation.
pub fn heading(
    memory: Memory,
    item: &Item<'_>,
    position: usize,
) -> Result<String<Memory>, AllocError>
    ensures { IfOk result
        (λ h. string_bytes h ≡ binding.heading_by (item_of item.now).alias
        (names.sole_name (item_of item.now).value) position) }
{
    match item.alias {
        Some(alias) => meant(memory, alias),
        None => own_heading(memory, &item.value, position),
    }
}
