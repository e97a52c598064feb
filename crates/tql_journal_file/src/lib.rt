//! Journals in files: opened, tested, run at a start, and gone on with.
#![tactic(auto)]

pub mod fault;
pub mod opening;
pub mod reading;
pub mod replay;
