//! The statement that makes a table: its CREATE TABLE, as a prompt prints it.
#![tactic(auto)]

mod columns;
mod conditions;
mod constraints;
pub mod names;
pub mod schema;
