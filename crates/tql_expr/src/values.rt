//! The values of expressions on a row, in memory of their own.
ghost use Rattle.std.specs.Prelude.{All, map};
ghost use Rattle.tql_spec.specs.Expression as bound;
ghost use Rattle.tql_spec.specs.Words.{map_all};
ghost use Rattle.tql_expr.specs.Evaluated.{Evaluated};
ghost use Rattle.tql_expr.specs.Meaning.{expr as tree_of, HasExpr};
ghost use Rattle.tql_value.specs.Views.{datum_of_value, row_of};

use crate::columns::Columns;
use crate::terms::{ExprId, Terms};
use tql_memory::Memory;
use tql_value::refusal::Refusal;
use tql_value::value::Value;

/// Returns the value of an expression. Refused if an evaluation inside leaves 64 bits, or if out of memory.
pub fn value_on<C: Columns>(
    memory: Memory,
    terms: &Terms,
    expr: ExprId,
    columns: &C,
) -> Result<Value, Refusal>
    requires { HasExpr terms.now expr }
    ensures { Evaluated datum_of_value
        (bound.eval (C.group columns.now) (C.values columns.now) (tree_of terms.now expr)) result }
{
    terms.eval(expr, columns)?.to_value(memory)
}

/// Returns the values of expressions, in order. Refused if an evaluation inside leaves 64 bits, or if out of memory.
pub fn values_on<C: Columns>(
    memory: Memory,
    terms: &Terms,
    exprs: &[ExprId],
    columns: &C,
) -> Result<Vec<Value, Memory>, Refusal>
    requires { All (HasExpr terms.now) exprs.now }
    ensures { Evaluated (λ values. row_of values.items)
        (map_all (bound.eval (C.group columns.now) (C.values columns.now)) (map (tree_of terms.now) exprs.now)) result }
{
    let mut values = Vec::with_capacity(memory, exprs.len())?;
    for expr in exprs {
        values.push(value_on(memory, terms, *expr, columns)?)?;
    }
    Ok(values)
}
