//! Reads at a pin, a moment of the past that a reader keeps: the query that the current store is asked instead, and how
//! its versions are shown.
#![tactic(auto)]

pub mod asking;
