//! The lexer: splits a statement into tokens.
#![tactic(auto)]

mod extent;
pub mod folding;
pub mod front;
mod reserved;
pub mod scan;
pub mod token;
pub mod tokenizer;
pub mod words;
