//! UPDATE and DELETE: the rows that a change removes and adds, and the tests of each new row.
#![tactic(auto)]

mod assignment;
pub mod draft;
pub mod faults;
pub mod modification;
mod periods;
