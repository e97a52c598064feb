//! The tuples of VALUES.
ghost use Rattle.std.specs.Prelude.{◌≡◌, [], ◌∷◌, All, IfOk, map, option_map};
ghost use Rattle.tql_spec.specs.Binding as binding;
ghost use Rattle.tql_spec.specs.Names.{check_each};
ghost use Rattle.tql_bound.specs.Changes as bound;
ghost use Rattle.tql_expr.specs.Meaning.{expr, HasExpr, Stays};
ghost use Rattle.tql_syntax_tree.specs.Statements.{cell_of, cells_of, tuple_of};
ghost use Rattle.tql_value.specs.Views.{plain_kind};
ghost use Rattle.tql_bind_expr.specs.Bounds.{typed_of};
ghost use Rattle.tql_bind_expr.specs.Gathered.{Gathers};
ghost use Rattle.tql_bind_change.specs.Cells.{kind_of, HasValue, HasValues};

use std::alloc::AllocError;
use tql_bind_expr::about::{About, Cause};
use tql_bind_expr::cells::cell;
use tql_bind_expr::faults::Faults;
use tql_bind_expr::kinds::is_other_kind;
use tql_bind_expr::scope::{Known, Typed};
use tql_expr::terms::{ExprId, Terms};
use tql_memory::Memory;
use tql_syntax_tree::statement::{CellTree, Tuple};
use tql_value::refusal::Refusal;
use tql_value::value::Kind;

/// Whether values of these kinds, as far as they are known, do not fit columns of these kinds: there are more or fewer
/// values, or one is of another kind.
pub(crate) fn cells_misfit(kinds: &[Kind], cells: &[Option<Kind>]) -> bool
    ensures { result ≡ binding.cells_misfit (map plain_kind kinds.now) (map (option_map plain_kind) cells.now) }
{
    let mut left = kinds;
    for cell in cells {
        match left {
            [] => return true,
            [kind, others @ ..] => {
                if is_other_kind(*kind, *cell) {
                    return true;
                }
                left = others;
            }
        }
    }
    !left.is_empty()
}

/// Returns the cause and place of the fault that a row does not have one value of the right type for each column.
fn misfit(is_misfit: bool, kinds: &[Kind], cells: &[Typed]) -> About {
    if !is_misfit {
        return About::unknown();
    }
    let start = match cells.first() {
        Some(cell) => cell.start,
        None => 0,
    };
    if kinds.len() != cells.len() {
        return About::at(Cause::CellCount, start).counts(cells.len(), kinds.len());
    }
    for (number, (kind, cell)) in kinds.iter().zip(cells.iter()).enumerate() {
        if is_other_kind(*kind, cell.kind) {
            return About::at(Cause::CellKind, cell.start)
                .kinds(cell.kind, Some(*kind))
                .counts(number, 0);
        }
    }
    About::unknown()
}

/// Binds a cell of VALUES, in which no name can be used.
fn plain_cell(
    memory: Memory,
    written: &CellTree<'_>,
    terms: &mut Terms,
    faults: &mut Faults,
) -> Result<Typed, AllocError>
    ensures bound { IfOk result
        (λ t. Gathers (binding.cell [] (cell_of written.now)) faults.old faults.new (typed_of terms.new t)) }
    ensures stays { Stays terms.old terms.new }
    ensures held { IfOk result (HasValue terms.new) }
{
    let scope: &[Known<'_>] = &[];
    cell(memory, scope, written, terms, faults)
}

/// Binds the cells of a tuple.
fn cells(
    memory: Memory,
    tuple: &Tuple<'_>,
    terms: &mut Terms,
    faults: &mut Faults,
) -> Result<Vec<Typed, Memory>, AllocError>
    ensures bound { IfOk result
        (λ v. Gathers (check_each (binding.cell []) (cell_of tuple.now.first ∷ cells_of tuple.now.more)) faults.old
        faults.new (map (typed_of terms.new) v.items)) }
    ensures stays { Stays terms.old terms.new }
    ensures held { IfOk result (λ v. All (HasValue terms.new) v.items) }
{
    let mut cells = Vec::new(memory);
    cells.push(plain_cell(memory, &tuple.first, terms, faults)?)?;
    for written in &tuple.more {
        cells.push(plain_cell(memory, written, terms, faults)?)?;
    }
    Ok(cells)
}

/// Returns the kinds of cells.
fn cell_kinds(memory: Memory, cells: &[Typed]) -> Result<Vec<Option<Kind>, Memory>, AllocError>
    ensures { IfOk result (λ v. map (option_map plain_kind) v.items ≡ map kind_of cells.now) }
{
    let mut kinds = Vec::with_capacity(memory, cells.len())?;
    for cell in cells {
        kinds.push(cell.kind)?;
    }
    Ok(kinds)
}

/// Returns the expressions of cells.
fn values(memory: Memory, cells: &[Typed]) -> Result<Vec<ExprId, Memory>, AllocError>
    ensures { IfOk result (λ v. v.items ≡ map (λ cell. cell.expr) cells.now) }
{
    let mut values = Vec::with_capacity(memory, cells.len())?;
    for cell in cells {
        values.push(cell.expr)?;
    }
    Ok(values)
}

/// Binds a tuple for columns of these kinds. Adds a fault if it has more or fewer cells, or one of another kind.
#[tactic(auto, using(tql_bind_expr::proofs::Gathering::gathering))]
fn tuple(
    memory: Memory,
    kinds: &[Kind],
    tuple: &Tuple<'_>,
    terms: &mut Terms,
    faults: &mut Faults,
) -> Result<Vec<ExprId, Memory>, AllocError>
    ensures bound { IfOk result
        (λ v. Gathers (binding.tuple (map plain_kind kinds.now) (tuple_of tuple.now)) faults.old
        faults.new (bound.tuple_of terms.new v)) }
    ensures stays { Stays terms.old terms.new }
    ensures held { IfOk result (HasValues terms.new) }
{
    let cells = cells(memory, tuple, terms, faults)?;
    let found = cell_kinds(memory, &cells)?;
    let is_misfit = cells_misfit(kinds, &found);
    let about = misfit(is_misfit, kinds, &cells);
    faults.refuse_if(is_misfit, Refusal::TypesDoNotFit, about);
    values(memory, &cells)
}

/// Binds tuples for columns of these kinds: the first and the later ones.
pub(crate) fn tuples(
    memory: Memory,
    kinds: &[Kind],
    first: &Tuple<'_>,
    more: &[Tuple<'_>],
    terms: &mut Terms,
    faults: &mut Faults,
) -> Result<Vec<Vec<ExprId, Memory>, Memory>, AllocError>
    ensures bound { IfOk result
        (λ v. Gathers (check_each (binding.tuple (map plain_kind kinds.now))
        (tuple_of first.now ∷ map tuple_of more.now)) faults.old faults.new
        (map (bound.tuple_of terms.new) v.items)) }
    ensures stays { Stays terms.old terms.new }
    ensures held { IfOk result (λ v. All (HasValues terms.new) v.items) }
{
    let mut tuples: Vec<Vec<ExprId, Memory>, Memory> = Vec::new(memory);
    tuples.push(tuple(memory, kinds, first, terms, faults)?)?;
    for written in more {
        tuples.push(tuple(memory, kinds, written, terms, faults)?)?;
    }
    Ok(tuples)
}
