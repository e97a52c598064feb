//! Parts of a bound query in words: the columns of its rows, and the calculations of its conditions.
#![tactic(auto)]

pub mod calculations;
pub mod columns;
