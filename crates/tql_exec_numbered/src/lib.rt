//! Rows that are kept once each: the keys of GROUP BY, and the rows of DISTINCT.
#![tactic(auto)]

mod cells;
pub mod numbered;
mod rows;
mod runs;
