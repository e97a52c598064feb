//! The rows that an INSERT adds, and which row of a change fails by itself.
#![tactic(auto)]

pub mod failures;
pub mod insertion;
mod spread;
mod values;
