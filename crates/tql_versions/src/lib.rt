//! Row versions: which of them a query selects, which a horizon keeps, and what a change, a commit and a rollback do to
//! them.
#![tactic(auto)]

pub mod heap;
pub mod horizon;
pub mod kept;
pub mod readings;
pub mod version;
