//! Access paths: which rows of a table have to be looked at for a list of conjuncts. These are all rows, or those of a
//! key, of a period, of both, or of a range of a key.
#![tactic(auto)]

pub mod access;
pub mod alternatives;
pub mod choices;
pub mod choosing;
mod given;
pub mod limits;
mod ranges;
pub mod safe;
mod said;
mod singles;
