//! Runs query plans over a snapshot of the store.
#![tactic(auto)]

mod counting;
mod pushing;
pub mod running;
