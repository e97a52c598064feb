//! Periods, the predicates on them, the parts into which a portion cuts them, and coverage.
#![tactic(auto)]

pub mod coverage;
pub mod period;
pub mod pieces;
pub mod predicates;
