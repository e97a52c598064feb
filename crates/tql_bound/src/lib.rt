//! Bound statements: the output of the binder, and the input of the engine.
#![tactic(auto)]

pub mod bound;
pub mod change;
pub mod query;
pub mod reader;
pub mod reference;
