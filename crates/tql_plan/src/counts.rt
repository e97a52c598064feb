//! How many places of a plan can avoid reading and comparing all rows.
ghost use Rattle.std.specs.Prelude.{◌≡◌, if◌then◌else◌, option_map};
ghost use Rattle.tql_plan.specs.Maps.{chains_keys, chains_maps, intervals_of, keys_of, maps_of, products_keys};
ghost use Rattle.tql_plan.specs.Maps.{products_maps, steps_keys, steps_maps, with_map};
ghost use Rattle.tql_plan_access.specs.Access.{is_by_key, is_by_period};
ghost use Rattle.tql_store_index.specs.Basis.{sought_of};

use crate::plan::{ChainPlan, Plan, Product, Step};
use tql_expr::equality::Equality;
use tql_store_index::basis::Sought;

/// The number of places of a plan that can avoid reading and comparing all rows.
#[derive(Clone, Copy, PartialEq, Eq, Debug)]
pub struct Counts {
    /// Joins and products that name an equality.
    pub maps: usize,
    /// Joins and products that name a key or a reference, and the first scan if its access path is one.
    pub keys: usize,
    /// The first scan, if its access path is the application period alone, which contains a point or overlaps with a
    /// period.
    pub intervals: usize,
}

impl Counts {
    /// Returns these counts, plus one place if it names an equality and if it names a key.
    fn with(self, equality: Option<Equality>, key: Option<&[usize]>) -> Counts
        ensures maps { result.maps ≡ with_map self.maps equality }
        ensures keys { result.keys ≡ with_map self.keys key.entry }
        ensures intervals { result.intervals ≡ self.intervals }
    {
        let mut counts = self;
        if equality.is_some() {
            counts.maps = self.maps.saturating_add(1);
        }
        if key.is_some() {
            counts.keys = self.keys.saturating_add(1);
        }
        counts
    }

    /// Returns these counts plus those of the steps.
    fn with_steps(self, steps: &[Step<'_>]) -> Counts
        ensures maps { result.maps ≡ steps_maps self.maps steps.now }
        ensures keys { result.keys ≡ steps_keys self.keys steps.now }
        ensures intervals { result.intervals ≡ self.intervals }
    {
        let mut counts = self;
        for step in steps {
            counts = counts.with(step.equality, step.key);
        }
        counts
    }

    /// Returns these counts plus those of the joins in the chains.
    fn with_chains(self, chains: &[ChainPlan<'_>]) -> Counts
        ensures maps { result.maps ≡ chains_maps self.maps chains.now }
        ensures keys { result.keys ≡ chains_keys self.keys chains.now }
        ensures intervals { result.intervals ≡ self.intervals }
    {
        let mut counts = self;
        for chain in chains {
            counts = counts.with_steps(&chain.joins);
        }
        counts
    }

    /// Returns these counts plus those of the products.
    fn with_products(self, products: &[Product<'_>]) -> Counts
        ensures maps { result.maps ≡ products_maps self.maps products.now }
        ensures keys { result.keys ≡ products_keys self.keys products.now }
        ensures intervals { result.intervals ≡ self.intervals }
    {
        let mut counts = self;
        for product in products {
            counts = counts.with(product.equality, product.key);
        }
        counts
    }
}

/// Returns 1 if the access path is by values, with a period or without. Otherwise returns 0.
fn key_count(sought: Option<Sought<'_>>) -> usize
    ensures { result ≡ (if is_by_key (option_map sought_of sought.entry) then 1 else 0) }
{
    match sought {
        Some(Sought::With(_, _) | Sought::WithIn(_, _, _, _, _)) => 1,
        _ => 0,
    }
}

/// Returns 1 if the access path is by the application period alone. Otherwise returns 0.
fn interval_count(sought: Option<Sought<'_>>) -> usize
    ensures { result ≡ (if is_by_period (option_map sought_of sought.entry) then 1 else 0) }
{
    match sought {
        Some(Sought::Holding(_, _, _) | Sought::Sharing(_, _, _)) => 1,
        _ => 0,
    }
}

impl<'a> Plan<'a> {
    /// Returns the number of places of this plan that can avoid reading and comparing all rows.
    pub fn counts(&self) -> Counts
        ensures maps { result.maps ≡ maps_of self.now }
        ensures keys { result.keys ≡ keys_of self.now }
        ensures intervals { result.intervals ≡ intervals_of self.now }
    {
        let sought = self.access.sought();
        let first = Counts {
            maps: 0,
            keys: key_count(sought),
            intervals: interval_count(sought),
        };
        first
            .with_chains(&self.chains)
            .with_products(&self.products)
            .with(self.equality, self.key)
    }
}
