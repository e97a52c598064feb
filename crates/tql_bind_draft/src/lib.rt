//! The parts of a CREATE TABLE: its columns, names, periods, lists of columns and keys, by the numbers of its columns.
//! Every fault is collected, and the first in the order of report is kept.
#![tactic(auto)]

pub mod columns;
pub mod constraint_names;
pub mod draft;
pub mod keys;
pub mod lists;
pub mod names;
pub mod period_names;
pub mod periods;
