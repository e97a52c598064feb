//! The rows of a query without groups, as a sink: `SELECT x + 1, y FROM t, u WHERE ..`. The values of the items are
//! calculated on each row when it is handed over, so no list of the joined rows is kept.
ghost use Rattle.std.specs.Prelude.{◌≡◌, ◌∷◌, [], All, map, Some};
ghost use Rattle.tql_spec.specs.Query.{alone};
ghost use Rattle.tql_spec.specs.QueryLaws.{shown};
ghost use Rattle.tql_expr.specs.Evaluated.{Evaluated, behind};
ghost use Rattle.tql_expr.specs.Meaning.{cond, expr, HasCond, HasExpr};
ghost use Rattle.tql_value.specs.Views.{rows_of};

use tql_exec_join::sink::Sink;
use tql_exec_join::tuple::Tuple;
use tql_expr::columns::Columns;
use tql_expr::terms::{CondId, ExprId, Terms};
use tql_expr::values::values_on;
use tql_memory::Memory;
use tql_value::refusal::Refusal;
use tql_value::value::Value;

/// Adds the values of the items on a row if it passes the conjuncts. Refused if an evaluation that is reached
/// overflows 64 bits, or if an allocation is refused.
fn add_scope<C: Columns>(
    listing: &Listing<'_>,
    scope: &C,
    made: &mut Vec<Vec<Value, Memory>, Memory>,
) -> Result<(), Refusal>
    ensures { Evaluated (λ _. rows_of made.new.items) (behind (rows_of made.old.items)
        (shown (map (cond listing.now.terms.now) listing.now.having.now)
        (map (expr listing.now.terms.now) listing.now.items.now)
        (record { row = C.values scope.now; group = C.group scope.now } ∷ []))) result }
{
    if listing.terms.passes(listing.having, scope)? {
        let values = values_on(listing.memory, listing.terms, listing.items, scope)?;
        made.push(values)?;
    }
    Ok(())
}

/// The items of a query without groups, and the conjuncts of HAVING.
#[derive(Clone, Copy)]
pub struct Listing<'q> {
    pub(crate) memory: Memory,
    pub(crate) terms: &'q Terms,
    pub(crate) having: &'q [CondId],
    pub(crate) items: &'q [ExprId],
    ghost judged: { All (HasCond terms.now) having.now },
    ghost held: { All (HasExpr terms.now) items.now },
}

impl Sink for Listing<'_> {
    /// The values of the items on the rows so far that pass the conjuncts, in the order of the rows.
    type State = Vec<Vec<Value, Memory>, Memory>;

    ghost knows = { λ l s rows. shown (map (cond l.terms.now) l.having.now) (map (expr l.terms.now) l.items.now)
        (map alone rows) ≡ Some (rows_of s.items) };

    ghost gives = { λ l row. shown (map (cond l.terms.now) l.having.now) (map (expr l.terms.now) l.items.now)
        (alone row ∷ []) };

    fn take(
        &self,
        state: &mut Vec<Vec<Value, Memory>, Memory>,
        row: &Tuple<'_>,
    ) -> Result<(), Refusal> {
        add_scope(self, row, state)
    }
}

impl<'q> Listing<'q> {
    /// Returns the sink of a query without groups.
    pub fn new(
        memory: Memory,
        terms: &'q Terms,
        having: &'q [CondId],
        items: &'q [ExprId],
    ) -> Listing<'q>
        requires having { All (HasCond terms.now) having.now }
        requires items { All (HasExpr terms.now) items.now }
        ensures terms { result.terms.now ≡ terms.now }
        ensures having { result.having.now ≡ having.now }
        ensures items { result.items.now ≡ items.now }
    {
        Listing {
            memory,
            terms,
            having,
            items,
        }
    }

    /// Returns the state before the first row. Makes no allocation.
    pub fn begin(&self) -> Vec<Vec<Value, Memory>, Memory>
        ensures { result.items ≡ [] }
    {
        Vec::new(self.memory)
    }
}
