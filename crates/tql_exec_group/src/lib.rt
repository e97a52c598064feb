//! GROUP BY, HAVING, aggregates and the values of the select list.
#![tactic(auto)]

mod direct;
pub mod distinct;
pub mod grouping;
pub mod listing;
mod on_group;
pub mod packing;
mod places;
pub mod steps;
