//! The new row of an UPDATE, and the rows that a change of a portion leaves before and after it.
ghost use Rattle.std.specs.Prelude.{◌≡◌, All, map, option_map, IfOk, IfErr};
ghost use Rattle.tql_spec.specs.Change.{assigned};
ghost use Rattle.tql_spec.specs.Definition.{with_period, without_generated};
ghost use Rattle.tql_period.specs.Points.{points_of};
ghost use Rattle.tql_bound.specs.Works.{assignment_of};
ghost use Rattle.tql_expr.specs.Meaning.{HasExpr};
ghost use Rattle.tql_value.specs.declared.refusal.Refusal.TheVariants.{OutOfMemory};
ghost use Rattle.tql_expr.specs.Evaluated.{Evaluated};
ghost use Rattle.tql_expr.specs.Shown.{shown_by};
ghost use Rattle.tql_dml.specs.Cells.{data_of};
ghost use Rattle.tql_dml.specs.Cutting.{stored_of};

use crate::draft::{Draft, packed, put};
use crate::periods::put_period;
use smallvec::SmallVec;
use tql_bound::change::Assignment;
use tql_catalog::table_def::TableDef;
use tql_expr::columns::Columns;
use tql_expr::row::Row;
use tql_expr::stored::StoredRow;
use tql_expr::terms::Terms;
use tql_memory::Memory;
use tql_period::period::Period;
use tql_value::refusal::Refusal;
use tql_value::value::View;

/// Returns all values of a row, for reading. The only error is a refused allocation.
fn copied<'a>(memory: Memory, row: &'a StoredRow<'_>) -> Result<Draft<'a>, Refusal>
    ensures row { IfOk result (λ cells. data_of cells.items ≡ shown_by row.now) }
    ensures memory { IfErr result (λ e. e ≡ OutOfMemory) }
{
    let width = row.width();
    let mut cells = SmallVec::with_capacity(memory, width)?;
    for place in 0..width {
        cells.push(row.column(place))?;
    }
    Ok(cells)
}

/// Sets each assigned column to its value, which is computed on the old row.
fn assign<'a>(
    terms: &'a Terms,
    sets: &[Assignment],
    old: &'a StoredRow<'_>,
    cells: &mut [View<'a>],
) -> Result<(), Refusal>
    requires { All (λ a. HasExpr terms.now a.value) sets.now }
    ensures { Evaluated (λ _. data_of cells.new)
        (assigned (shown_by old.now) (data_of cells.old) (map (assignment_of terms.now) sets.now)) result }
{
    for set in sets {
        let value = terms.eval(set.value, old)?;
        put(cells, set.column, value);
    }
    Ok(())
}

/// Returns the stored cells of the new row of an UPDATE. Each assigned column has its value, which is computed on the
/// old row. With a `part`, the new row's application period is that part.
pub(crate) fn changed_row<'a>(
    memory: Memory,
    terms: &'a Terms,
    definition: &TableDef,
    sets: &[Assignment],
    old: &'a StoredRow<'_>,
    part: Option<Period>,
) -> Result<Row, Refusal>
    requires { All (λ a. HasExpr terms.now a.value) sets.now }
    ensures { Evaluated (λ row. row) (stored_of definition.now (option_map points_of part)
        (assigned (shown_by old.now) (shown_by old.now) (map (assignment_of terms.now) sets.now))) result }
{
    let mut cells = copied(memory, old)?;
    assign(terms, sets, old, cells.as_mut_slice())?;
    if let Some(part) = part {
        put_period(definition, part, cells.as_mut_slice());
    }
    packed(memory, cells, definition.system())
}

/// Returns the stored cells of a row with its old values, for a part of its application period. The only error is a
/// refused allocation.
pub(crate) fn left_row(
    memory: Memory,
    definition: &TableDef,
    row: &StoredRow<'_>,
    part: Period,
) -> Result<Row, Refusal>
    ensures row { IfOk result (λ left. left
        ≡ without_generated definition.now.system (with_period definition.now (points_of part) (shown_by row.now))) }
    ensures memory { IfErr result (λ e. e ≡ OutOfMemory) }
{
    let mut cells = copied(memory, row)?;
    put_period(definition, part, cells.as_mut_slice());
    packed(memory, cells, definition.system())
}
