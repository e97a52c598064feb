//! The command line of the program: which options, texts and scripts its words say.
#![tactic(auto)]

pub mod joining;
pub mod options;
pub mod seals;
pub mod sizes;
