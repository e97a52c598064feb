//! The rows of an INSERT whose values are computed.
ghost use Rattle.std.specs.Prelude.{[], All, IsTrue, map, option_map};
ghost use Rattle.tql_spec.specs.Expression as bound;
ghost use Rattle.tql_spec.specs.Words.{map_all};
ghost use Rattle.tql_bound.specs.Changes.{tuple_of};
ghost use Rattle.tql_expr.specs.Evaluated.{Evaluated};
ghost use Rattle.tql_expr.specs.Meaning.{expr as tree_of, HasExpr};
ghost use Rattle.tql_value.specs.Views.{datum_of_view};
ghost use Rattle.tql_dml.specs.Alters.{tuples_in};
ghost use Rattle.tql_dml.specs.Cells.{data_of, stored_cells, StoresAsGiven};

use crate::spread::{are_stored, new_row};
use smallvec::SmallVec;
use tql_bound::change::Insertion;
use tql_catalog::table_def::TableDef;
use tql_dml::draft::Draft;
use tql_expr::row::{EmptyRow, Row};
use tql_expr::terms::{ExprId, Terms};
use tql_memory::Memory;
use tql_value::refusal::Refusal;
use tql_value::value::View;

/// Returns the value of an expression that names no column, for reading.
fn view_on<'a>(terms: &'a Terms, expr: ExprId, row: &'a EmptyRow) -> Result<View<'a>, Refusal>
    requires { HasExpr terms.now expr }
    ensures { Evaluated datum_of_view (bound.eval [] [] (tree_of terms.now expr)) result }
{
    Ok(terms.eval(expr, row)?)
}

/// Returns the values of expressions that name no column, for reading.
fn views_on<'a>(
    memory: Memory,
    terms: &'a Terms,
    tuple: &[ExprId],
    row: &'a EmptyRow,
) -> Result<Draft<'a>, Refusal>
    requires { All (HasExpr terms.now) tuple.now }
    ensures { Evaluated (λ views. data_of views.items)
        (map_all (bound.eval [] []) (map (tree_of terms.now) tuple.now)) result }
{
    let mut views = SmallVec::with_capacity(memory, tuple.len())?;
    for expr in tuple {
        views.push(view_on(terms, *expr, row)?)?;
    }
    Ok(views)
}

/// Returns the stored cells of the new row of a tuple of expressions, as `new_row` does. Up to eight expressions make
/// no allocation besides that of the row.
fn tuple_row(
    memory: Memory,
    definition: &TableDef,
    columns: &[usize],
    stored: bool,
    terms: &Terms,
    tuple: &[ExprId],
) -> Result<Row, Refusal>
    requires stored { IsTrue stored → StoresAsGiven definition.now columns.now }
    requires exprs { All (HasExpr terms.now) tuple.now }
    ensures { Evaluated (λ row. row) (option_map (stored_cells definition.now columns.now)
        (map_all (bound.eval [] []) (map (tree_of terms.now) tuple.now))) result }
{
    let views = views_on(memory, terms, tuple, &EmptyRow)?;
    new_row(memory, definition, columns, stored, views.as_slice())
}

/// Returns the stored cells of the new row of each tuple of expressions.
fn rows_of_tuples(
    memory: Memory,
    definition: &TableDef,
    columns: &[usize],
    terms: &Terms,
    tuples: &[Vec<ExprId, Memory>],
) -> Result<Vec<Row, Memory>, Refusal>
    requires { All (λ tuple. All (HasExpr terms.now) tuple.items) tuples.now }
    ensures { Evaluated (λ rows. rows.items) (option_map (map (stored_cells definition.now columns.now))
        (map_all (map_all (bound.eval [] [])) (map (tuple_of terms.now) tuples.now))) result }
{
    let stored = are_stored(definition, columns);
    let mut rows = Vec::with_capacity(memory, tuples.len())?;
    for tuple in tuples {
        rows.push(tuple_row(memory, definition, columns, stored, terms, tuple)?)?;
    }
    Ok(rows)
}

/// Returns the stored cells of the rows that an INSERT of tuples adds.
pub(crate) fn insertion_rows(
    memory: Memory,
    definition: &TableDef,
    insertion: &Insertion,
) -> Result<Vec<Row, Memory>, Refusal>
    ensures { Evaluated (λ rows. rows.items)
        (option_map (map (stored_cells definition.now insertion.now.columns.items)) (tuples_in insertion.now)) result }
{
    rows_of_tuples(
        memory,
        definition,
        &insertion.columns,
        &insertion.terms,
        &insertion.tuples,
    )
}
