//! Name binding of INSERT, UPDATE and DELETE. Every fault is collected, and the first in the order of report is kept.
#![tactic(auto)]

mod columns;
pub mod delete;
pub mod insert;
pub mod insert_query;
mod portion;
mod sets;
mod tuples;
pub mod update;
