//! Runs a script: reads statements, passes them to a responder, and writes the answers.
#![tactic(auto)]

pub mod complaint;
pub mod device;
pub mod form;
pub mod laws;
pub mod listener;
pub mod note;
pub mod notes;
mod piece;
pub mod pushed;
pub mod responder;
mod run_splitter;
pub mod runner;
pub mod session;
pub mod silence;
pub mod slice_source;
pub mod std_source;
mod unkept;
