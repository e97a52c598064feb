//! Pushes a table as aligned columns with a border into a sink, for people who read it in a terminal.
#![tactic(auto)]

pub mod box_table;
pub mod layout;
pub mod lines;
pub mod shown;
