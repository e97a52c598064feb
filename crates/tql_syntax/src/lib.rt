//! The parser: from the tokens of a statement to its tree.
#![tactic(auto)]

pub mod ending;
pub mod parse;
pub mod stop;
pub mod text;
