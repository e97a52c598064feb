//! The printed order of rows: ORDER BY and DISTINCT.
#![tactic(auto)]

mod rank;
pub mod sorting;
