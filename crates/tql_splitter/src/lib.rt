//! Splits a script, which arrives in parts, into statements.
#![tactic(auto)]

mod columns;
mod pending;
pub mod piece;
mod ready;
pub mod scan_state;
pub mod splitter;
