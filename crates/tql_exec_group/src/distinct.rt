//! The distinct rows of a query without groups, as a sink: `SELECT DISTINCT x + 1, y FROM t, u WHERE ..`. The values of
//! the items are calculated on each row when it is handed over, and copied only if no row before it had the same.
ghost use Rattle.std.specs.Prelude.{◌≡◌, ◌≤◌, ◌∷◌, [], All, length, map, option_map, Some};
ghost use Rattle.tql_spec.specs.Expression as bound;
ghost use Rattle.tql_spec.specs.Query.{alone, distinct_rows};
ghost use Rattle.tql_spec.specs.QueryLaws.{shown};
ghost use Rattle.tql_spec.specs.Words.{map_all};
ghost use Rattle.tql_expr.specs.Evaluated.{Evaluated};
ghost use Rattle.tql_expr.specs.Meaning.{cond, expr, HasExpr};
ghost use Rattle.tql_exec_numbered.specs.Numbered.{with_row, with_rows};

use crate::listing::Listing;
use tql_exec_join::sink::Sink;
use tql_exec_join::tuple::Tuple;
use tql_exec_numbered::numbered::Numbered;
use tql_expr::columns::Columns;
use tql_expr::terms::{ExprId, Terms};
use tql_memory::Memory;
use tql_value::refusal::Refusal;
use tql_value::value::View;

/// The number of items that are looked up without an allocation.
const FEW: usize = 4;

/// Puts the values of a few items among the rows. Refused if an evaluation that is reached overflows 64 bits, or if an
/// allocation is refused.
fn put_few<'x, C: Columns>(
    terms: &'x Terms,
    items: &[ExprId],
    scope: &'x C,
    kept: &mut Numbered,
) -> Result<(), Refusal>
    requires few { length items.now ≤ 4 }
    requires there { All (HasExpr terms.now) items.now }
    ensures { Evaluated (λ _. kept.new) (option_map (with_row kept.old)
        (map_all (bound.eval (C.group scope.now) (C.values scope.now)) (map (expr terms.now) items.now))) result }
{
    let mut views = [View::Null; FEW];
    for (place, item) in items.iter().enumerate() {
        views[place] = terms.eval(*item, scope)?;
    }
    kept.put(&views[..items.len()])?;
    Ok(())
}

/// Puts the values of the items among the rows. Refused if an evaluation that is reached overflows 64 bits, or if an
/// allocation is refused.
fn put_many<C: Columns>(
    memory: Memory,
    terms: &Terms,
    items: &[ExprId],
    scope: &C,
    kept: &mut Numbered,
) -> Result<(), Refusal>
    requires there { All (HasExpr terms.now) items.now }
    ensures { Evaluated (λ _. kept.new) (option_map (with_row kept.old)
        (map_all (bound.eval (C.group scope.now) (C.values scope.now)) (map (expr terms.now) items.now))) result }
{
    let mut views = Vec::with_capacity(memory, items.len())?;
    for item in items {
        views.push(terms.eval(*item, scope)?)?;
    }
    kept.put(views.as_slice())?;
    Ok(())
}

/// Puts the values of the items on a row among the rows if it passes the conjuncts. Refused if an evaluation that is
/// reached overflows 64 bits, or if an allocation is refused.
fn put_scope<C: Columns>(asked: &Listing<'_>, scope: &C, kept: &mut Numbered) -> Result<(), Refusal>
    ensures { Evaluated (λ _. kept.new) (option_map (with_rows kept.old)
        (shown (map (cond asked.now.terms.now) asked.now.having.now)
        (map (expr asked.now.terms.now) asked.now.items.now)
        (record { row = C.values scope.now; group = C.group scope.now } ∷ []))) result }
{
    if !asked.terms.passes(asked.having, scope)? {
        return Ok(());
    }
    if asked.items.len() <= FEW {
        put_few(asked.terms, asked.items, scope, kept)
    } else {
        put_many(asked.memory, asked.terms, asked.items, scope, kept)
    }
}

/// A query with DISTINCT and without groups.
#[derive(Clone, Copy)]
pub struct Distinct<'q> {
    /// The same query without DISTINCT.
    pub listing: Listing<'q>,
}

impl Sink for Distinct<'_> {
    type State = Numbered;

    ghost knows = { λ l s rows. option_map distinct_rows (shown (map (cond l.listing.terms.now) l.listing.having.now)
        (map (expr l.listing.terms.now) l.listing.items.now) (map alone rows)) ≡ Some s };

    ghost gives = { λ l row. shown (map (cond l.listing.terms.now) l.listing.having.now)
        (map (expr l.listing.terms.now) l.listing.items.now) (alone row ∷ []) };

    fn take(&self, state: &mut Numbered, row: &Tuple<'_>) -> Result<(), Refusal> {
        put_scope(&self.listing, row, state)
    }
}

impl Distinct<'_> {
    /// Returns the state before the first row. Makes no allocation.
    pub fn begin(&self) -> Numbered
        ensures { result ≡ [] }
    {
        Numbered::new(self.listing.memory)
    }
}
