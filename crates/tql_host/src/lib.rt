//! An engine with its last answer, for hosts that hold it by a handle and ask for the parts of an answer one by one.
#![tactic(auto)]

pub mod host;
mod kinds;
mod values;
