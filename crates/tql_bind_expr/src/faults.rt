//! The faults found so far. Only the first in the order of report is kept.
ghost use Rattle.std.specs.Prelude.{◌≡◌, Some, None, [], ◌∷◌, option_map};
ghost use Rattle.tql_spec.specs.Creation as creation;
ghost use Rattle.tql_spec.specs.Names.{refuse_if};
ghost use Rattle.tql_value.specs.Refusals.{refusal_of};
ghost use Rattle.tql_bind_expr.specs.Gathered.{after, Gathers};

use crate::about::{About, Cause};
use std::marker::Model;
use tql_value::refusal::Refusal;

/// The first fault so far, its cause and place, and the byte offset of the aggregate that was bound last. Contracts see
/// only the refusal.
#[derive(Drop)]
pub struct Faults {
    least: Option<Refusal>,
    about: About,
    aggregate: u32,
}

impl Model for Faults {
    ghost use Rattle.std.specs.Prelude.{Option, option_map};
    ghost use Rattle.tql_spec.specs.Refusal.{Refusal};
    ghost use Rattle.tql_value.specs.Refusals.{refusal_of};

    ghost Value = { Option Refusal };

    ghost view = { λ f. option_map refusal_of f.least };
}

/// Returns the one of two faults that is reported first; the first may be missing.
#[tactic(auto, unfolding(crate::specs::Gathered::after))]
fn earlier(least: Option<Refusal>, refusal: Refusal) -> Refusal
    ensures { Some (refusal_of result) ≡ after (option_map refusal_of least) (refusal_of refusal ∷ []) }
{
    match least {
        Some(least) => least.earlier(refusal),
        None => refusal,
    }
}

impl Faults {
    /// Returns an empty collection.
    pub fn none() -> Faults
        ensures { result ≡ None }
    {
        Faults {
            least: None,
            about: About::unknown(),
            aggregate: 0,
        }
    }

    /// Returns the cause and place of the first fault after this one is added.
    fn first_about(&self, refusal: Refusal, about: About) -> About {
        match self.least {
            Some(least) if least.place() <= refusal.place() => self.about,
            _ => about,
        }
    }

    /// Adds a fault with its cause and place, if it is present.
    #[tactic(auto, using(crate::proofs::Gathering::gathering))]
    pub fn refuse_if(&mut self, is_present: bool, refusal: Refusal, about: About)
        ensures { Gathers (refuse_if is_present (refusal_of refusal)) self.old self.new tt }
    {
        if is_present {
            self.about = self.first_about(refusal, about);
            self.least = Some(earlier(self.least, refusal));
        }
    }

    /// Notes the byte offset of a bound aggregate.
    pub fn see_aggregate(&mut self, at: u32)
        ensures { self.new ≡ self.old }
    {
        self.aggregate = at;
    }

    /// Returns the cause and place of a forbidden aggregate: the one that was bound last.
    pub fn of_aggregate(&self) -> About {
        About::at(Cause::AggregateHere, self.aggregate)
    }

    /// Returns the cause and place of the first fault.
    pub fn about(&self) -> About {
        self.about
    }

    /// Returns the index of a column. If there is none, adds a fault and returns 0, the first column, as a placeholder.
    #[tactic(auto, using(crate::proofs::Gathering::gathering))]
    pub fn or_first(&mut self, number: Option<usize>, about: About) -> usize
        ensures { Gathers (creation.or_first number) self.old self.new result }
    {
        match number {
            Some(number) => number,
            None => {
                self.refuse_if(true, Refusal::NameUnknownAmbiguousOrRepeated, about);
                0
            }
        }
    }

    /// Returns the first fault, if any.
    pub fn least(&self) -> Option<Refusal>
        ensures { option_map refusal_of result ≡ self.now }
    {
        self.least
    }
}
