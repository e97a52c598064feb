//! Key checks after a change to the rows of one table.
#![tactic(auto)]

pub mod keys;
pub mod rivals;
