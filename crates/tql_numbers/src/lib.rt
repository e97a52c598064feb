//! Lists of numbers in little memory.
#![tactic(auto)]

pub mod numbers;
