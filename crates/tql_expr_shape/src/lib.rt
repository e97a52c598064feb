//! What bound expressions look like: the shape of an expression, and the first calculation of a condition.
#![tactic(auto)]

pub mod calculations;
pub mod shape;
