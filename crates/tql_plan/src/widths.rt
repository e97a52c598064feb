//! The number of columns of chains.
ghost use Rattle.std.specs.Prelude.{◌≡◌};
ghost use Rattle.tql_plan.specs.Planned.{chains_width, joins_width};

use tql_bound::query::Chain;

/// Returns the number of columns of a chain, at most `usize::MAX`.
pub(crate) fn chain_width(chain: &Chain) -> usize
    ensures { result ≡ joins_width chain.now.first.width chain.now.joins.items }
{
    let mut width = chain.first.width;
    for join in &chain.joins {
        width = width.saturating_add(join.reference.width);
    }
    width
}

/// Returns the number of columns of all these chains together.
pub fn width_of(chains: &[Chain]) -> usize
    ensures { result ≡ chains_width 0 chains.now }
{
    let mut width = 0_usize;
    for chain in chains {
        width = width.saturating_add(chain_width(chain));
    }
    width
}
