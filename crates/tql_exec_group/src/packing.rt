//! The packed rows of a query without groups, as a sink: `INSERT INTO v SELECT x + 1, y FROM t, u WHERE ..`. The values
//! of the items are calculated on each row when it is handed over, and packed at once.
ghost use Rattle.std.specs.Prelude.{◌≡◌, ◌∷◌, [], All, IfOk, map, Some};
ghost use Rattle.tql_spec.specs.Expression as bound;
ghost use Rattle.tql_spec.specs.Query.{alone};
ghost use Rattle.tql_spec.specs.QueryLaws.{shown};
ghost use Rattle.tql_spec.specs.Words.{map_all};
ghost use Rattle.tql_expr.specs.Evaluated.{Evaluated, behind};
ghost use Rattle.tql_expr.specs.Meaning.{cond, expr, HasExpr};
ghost use Rattle.tql_value.specs.Views.{datum_of_view, rows_of};

use crate::listing::Listing;
use smallvec::SmallVec;
use std::alloc::AllocError;
use std::mem;
use tql_exec_join::sink::Sink;
use tql_exec_join::tuple::Tuple;
use tql_expr::columns::Columns;
use tql_expr::row::Row;
use tql_expr::terms::{ExprId, Terms};
use tql_memory::Memory;
use tql_value::refusal::Refusal;
use tql_value::value::{Value, View};

/// The values of the items on a row. Up to eight make no allocation.
type Views<'x> = SmallVec<View<'x>, 8, Memory>;

/// Returns the values of the items, for reading. Refused if an evaluation that is reached overflows 64 bits, or if an
/// allocation is refused.
fn views_on<'x, C: Columns>(
    memory: Memory,
    terms: &'x Terms,
    items: &[ExprId],
    scope: &'x C,
) -> Result<Views<'x>, Refusal>
    requires { All (HasExpr terms.now) items.now }
    ensures { Evaluated (λ views. map datum_of_view views.items)
        (map_all (bound.eval (C.group scope.now) (C.values scope.now)) (map (expr terms.now) items.now)) result }
{
    let mut views = SmallVec::with_capacity(memory, items.len())?;
    for item in items {
        views.push(terms.eval(*item, scope)?)?;
    }
    Ok(views)
}

/// Adds the packed values of the items on a row if it passes the conjuncts. Refused if an evaluation that is reached
/// overflows 64 bits, or if an allocation is refused.
fn pack_scope<C: Columns>(
    listing: &Listing<'_>,
    scope: &C,
    made: &mut Vec<Row, Memory>,
) -> Result<(), Refusal>
    ensures { Evaluated (λ _. made.new.items) (behind made.old.items
        (shown (map (cond listing.now.terms.now) listing.now.having.now)
        (map (expr listing.now.terms.now) listing.now.items.now)
        (record { row = C.values scope.now; group = C.group scope.now } ∷ []))) result }
{
    if listing.terms.passes(listing.having, scope)? {
        let views = views_on(listing.memory, listing.terms, listing.items, scope)?;
        made.push(Row::of(listing.memory, views.as_slice())?)?;
    }
    Ok(())
}

/// A query without groups whose rows are packed.
#[derive(Clone, Copy)]
pub struct Packing<'q> {
    /// The same query, with a list of values for each row.
    pub listing: Listing<'q>,
}

impl Sink for Packing<'_> {
    /// The packed values of the items on the rows so far that pass the conjuncts, in the order of the rows.
    type State = Vec<Row, Memory>;

    ghost knows = { λ l s rows. shown (map (cond l.listing.terms.now) l.listing.having.now)
        (map (expr l.listing.terms.now) l.listing.items.now) (map alone rows) ≡ Some s.items };

    ghost gives = { λ l row. shown (map (cond l.listing.terms.now) l.listing.having.now)
        (map (expr l.listing.terms.now) l.listing.items.now) (alone row ∷ []) };

    fn take(&self, state: &mut Vec<Row, Memory>, row: &Tuple<'_>) -> Result<(), Refusal> {
        pack_scope(&self.listing, row, state)
    }
}

impl Packing<'_> {
    /// Returns the state before the first row. Makes no allocation.
    pub fn begin(&self) -> Vec<Row, Memory>
        ensures { result.items ≡ [] }
    {
        Vec::new(self.listing.memory)
    }
}

/// Packs the rows of a query, in their order. Each list of values is freed once its row is packed. The only error is a
/// refused allocation.
pub fn packed(
    memory: Memory,
    mut rows: Vec<Vec<Value, Memory>, Memory>,
) -> Result<Vec<Row, Memory>, AllocError>
    ensures { IfOk result (λ packed. packed.items ≡ rows_of rows.entry.items) }
{
    let mut packed = Vec::with_capacity(memory, rows.len())?;
    for row in rows.iter_mut() {
        let values = mem::replace(row, Vec::new(memory));
        packed.push(Row::of_values(memory, &values)?)?;
    }
    Ok(packed)
}
