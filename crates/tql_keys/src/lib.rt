//! Key and reference checks after a change to the rows of one table.
#![tactic(auto)]

pub mod check;
pub mod laws;
pub mod references;
