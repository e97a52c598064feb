//! Tables at a terminal: in a box if it is wide enough, and otherwise as records; the highest moment as `-`.
#![tactic(auto)]

pub mod form;
mod layout;
mod lines;
mod records;
pub mod table;
