//! Rows of a table, packed into bytes. A short row takes no memory but its own.
#![tactic(auto)]

mod cell;
pub mod row;
pub mod tuple;
mod writing;
