//! Other formats of answers, pushed into a sink: comma-separated values, JSON, and JSON Lines.
#![tactic(auto)]

pub mod csv;
mod escape;
pub mod json;
mod json_rows;
pub mod jsonl;
