//! The binder: from the syntax tree of a statement to a bound statement, with names resolved and types checked.
#![tactic(auto)]

pub mod binder;
mod drop_table;
mod insertions;
pub mod limits;
mod queries;
