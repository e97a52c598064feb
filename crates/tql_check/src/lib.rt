//! Checks scripts over the whole grammar without running them.
#![tactic(auto)]

pub mod check;
