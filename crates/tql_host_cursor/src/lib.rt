//! The last answer of an engine, whose parts a host reads one by one, and a script that the host feeds in parts.
#![tactic(auto)]

pub mod cursor;
mod details;
mod json;
mod parts;
pub mod statement;
