//! What a host is told: records of numbers that C can pass, texts, cells, and blocks of the cells of a column.
#![tactic(auto)]

pub mod block;
pub mod cells;
pub mod requests;
pub mod texts;
