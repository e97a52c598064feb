//! Details of a refused statement, in addition to the refusal itself.
#![tactic(auto)]

pub mod detail;
pub mod place;
pub mod shown;
