//! The parser's lower half: the token cursor, lists, and expressions.
#![tactic(auto)]

mod alone;
pub mod cursor;
pub mod expressions;
pub mod lists;
