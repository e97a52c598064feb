//! Which joins look up partners by period alone. This is so only if the plan names no equality for the join.
ghost use Rattle.std.specs.Prelude.{All};
ghost use Rattle.tql_expr.specs.Meaning.{HasCond};

use tql_bound::query::Chain;
use tql_exec_within::within::within_at;
use tql_expr::terms::{CondId, Terms};
use tql_plan::plan::{Plan, Scan};
use tql_query_words::columns::width_of;

/// Whether the rows of a scan are looked up by period for left rows of this width.
fn is_within(terms: &Terms, conjuncts: &[CondId], source: &Scan, width: usize) -> bool
    requires { All (HasCond terms.now) conjuncts.now }
{
    within_at(terms, conjuncts, source, width).is_some()
}

/// Returns the number of columns before the join with this number in a chain.
fn width_before(chain: &Chain, at: usize) -> usize {
    let mut width = chain.first.width;
    for join in chain.joins.iter().take(at) {
        width = width.saturating_add(join.reference.width);
    }
    width
}

/// Whether the join with the number `at` in the chain with the number `place` looks up partners by period.
pub(crate) fn is_step_within(plan: &Plan<'_>, chain: &Chain, place: usize, at: usize) -> bool {
    match plan.chains.get(place) {
        Some(planned) => match planned.joins.get(at) {
            Some(step) => is_within(
                &plan.query.terms,
                step.on,
                &step.source,
                width_before(chain, at),
            ),
            None => false,
        },
        None => false,
    }
}

/// Returns the number of columns of the chains before this number.
fn width_of_chains(chains: &[Chain], place: usize) -> usize {
    let mut width = 0_usize;
    for chain in chains.iter().take(place) {
        width = width.saturating_add(width_of(chain));
    }
    width
}

/// Whether the product with a middle chain, which is a single scan, looks up partners by period.
fn is_middle_within(plan: &Plan<'_>, place: usize, source: &Scan, width: usize) -> bool {
    match plan.products.get(place) {
        Some(product) if product.width == source.width && product.before == width => {
            is_within(&plan.query.terms, &product.early, source, width)
        }
        _ => false,
    }
}

/// Whether the product with the chain with this number, which is not the first, looks up partners by period.
pub(crate) fn is_product_within(plan: &Plan<'_>, place: usize) -> bool {
    match plan.chains.get(place) {
        Some(planned) if planned.joins.is_empty() => {
            let width = width_of_chains(&plan.query.chains, place);
            if place.saturating_add(1) >= plan.chains.len() {
                let query = plan.query;
                is_within(&query.terms, &query.filter, &planned.first, width)
            } else {
                is_middle_within(plan, place, &planned.first, width)
            }
        }
        _ => false,
    }
}
