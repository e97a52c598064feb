//! What is typed at a prompt: commands and their values, the state of the script, titles in it, and the line of a fault
//! with a caret.
#![tactic(auto)]

pub mod caret;
pub mod command;
pub mod titles;
pub mod typed;
pub mod values;
