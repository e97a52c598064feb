//! Statements with values: a `?` in the text of a statement is the place of a value, whose literal is written there.
#![tactic(auto)]

pub mod passed;
pub mod places;
