//! The balanced tree of runs of entries, an index of periods.
#![tactic(auto)]

mod balance;
mod edit;
mod search;
mod tree;
pub mod tree_index;
