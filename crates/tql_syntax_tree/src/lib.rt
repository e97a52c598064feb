//! The syntax trees of statements, which the parser builds and the binder reads, and checks on a tree alone.
#![tactic(auto)]

mod boxed;
pub mod condition;
pub mod expression;
pub mod name;
pub mod statement;
pub mod tree;
pub mod width;
