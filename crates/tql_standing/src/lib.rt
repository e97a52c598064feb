//! Which rows stand where in the indexes of a table, and what follows from it. This crate has no executable code.
#![tactic(auto)]
