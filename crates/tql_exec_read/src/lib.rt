//! Reads the rows of a table through a snapshot of the store: all rows of a scan, those that pass conjuncts, and those
//! that a key or a period finds. The rows of one scan that pass WHERE are also handed to a sink, and so are the pairs
//! of its rows with the inner rows of a join.
#![tactic(auto)]

pub mod alternatives;
pub mod changing;
pub mod finding;
pub mod near;
pub mod pushing;
pub mod reading;
pub mod sampling;
