//! The description of a plan: the access path of each table reference of a query, and of the table of a change.
#![tactic(auto)]

pub mod changes;
mod columns;
mod periods;
mod references;
pub mod told;
