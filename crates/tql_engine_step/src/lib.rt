//! The engine: its state, and its reply to a statement.
#![tactic(auto)]

pub mod engine;
mod lending;
