//! The message of a statement that is refused during name binding.
#![tactic(auto)]

mod literals;
pub mod message;
pub mod names;
mod slips;
mod wording;
