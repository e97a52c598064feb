//! Finds the row of a refused change that fails in a key or a reference.
#![tactic(auto)]

pub mod failures;
