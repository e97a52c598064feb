//! Runs and sessions over an engine, and their guarantees.
#![tactic(auto)]

pub mod engine;
pub mod points;
pub mod readers;
pub mod runner;
pub mod sessions;
