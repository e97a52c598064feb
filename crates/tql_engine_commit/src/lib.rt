//! The changes that an engine makes of its store: in the open transaction, or in one of their own.
#![tactic(auto)]

pub mod committing;
