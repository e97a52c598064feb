//! Tests of the store by its own calls: the versions that its readings find in a history, the versions that a horizon
//! leaves, and memory that runs out in the middle.
#![tactic(auto)]

#[cfg(test)]
mod tests;
