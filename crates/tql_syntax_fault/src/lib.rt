//! The detail of a text that is not a statement: where reading stopped and what to write instead, or what is left open.
#![tactic(auto)]

mod hints;
mod literals;
mod matching;
mod places;
mod slips;
pub mod told;
pub mod unfinished;
