//! Details of refused statements in words: about their rows, and about the state of transactions and readers.
#![tactic(auto)]

pub mod calculations;
pub mod cells;
pub mod checks;
pub mod constraints;
pub mod faults;
pub mod horizon;
pub mod keys;
pub mod references;
pub mod state;
