//! The rows that key and reference checks read after a change to the rows of one table.
#![tactic(auto)]

pub mod change;
pub mod coming;
pub mod finding;
pub mod keeping;
pub mod ranks;
pub mod reading;
