//! Parsing predicates: one test, or an expression that does not continue as a test.
#![tactic(auto)]

pub mod predicates;
