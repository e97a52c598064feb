//! Operations and aggregates: from the syntax tree to bound expressions.
ghost use Rattle.std.specs.Prelude.{◌≡◌};
ghost use Rattle.tql_expr.specs.Trees.{plain_function, plain_operation};
ghost use Rattle.tql_syntax_tree.specs.Expressions.{function_of};
ghost use Rattle.tql_bind_expr.specs.Bounds.{sign_of};

use tql_expr::node as expr;
use tql_expr::node::Operation;
use tql_syntax_tree::expression::Function;

/// Returns the operation of the sign before a term.
pub(crate) fn operation(is_minus: bool) -> Operation
    ensures { plain_operation result ≡ sign_of is_minus }
{
    if is_minus {
        Operation::Subtract
    } else {
        Operation::Add
    }
}

/// Returns the bound form of an aggregate function.
pub(crate) fn function(written: Function) -> expr::Function
    ensures { plain_function result ≡ function_of written }
{
    match written {
        Function::Count => expr::Function::Count,
        Function::Sum => expr::Function::Sum,
        Function::Min => expr::Function::Min,
        Function::Max => expr::Function::Max,
    }
}
