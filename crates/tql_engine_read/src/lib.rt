//! What an engine answers without changing anything.
#![tactic(auto)]

pub mod held;
pub mod sense;
