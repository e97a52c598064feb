//! What takes part in a run of the program besides the engine: the prompt and its commands, what they set, where
//! replies go, and the lines on the standard error.
#![tactic(auto)]

pub mod complaints;
pub mod engine;
pub mod orders;
pub mod paced;
pub mod progress;
pub mod prompts;
pub mod script;
pub mod settings;
pub mod shown;
pub mod told;
