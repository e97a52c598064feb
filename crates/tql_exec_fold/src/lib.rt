//! Aggregates over rows that are taken one at a time: accumulators, and their steps.
#![tactic(auto)]

mod aggregates;
pub mod fold;
