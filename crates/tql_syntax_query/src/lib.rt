//! Parsing queries, and the clauses that they share with other statements.
#![tactic(auto)]

pub mod clauses;
pub mod queries;
