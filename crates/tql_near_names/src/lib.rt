//! The words at an offset of a statement's text, and the name that was probably meant by one that does not exist.
#![tactic(auto)]

mod distance;
pub mod nearest;
pub mod piece;
