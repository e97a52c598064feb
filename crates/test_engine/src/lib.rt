//! Tests of the engine that no script can make: memory that has run out, and devices that fail.
#![tactic(auto)]

#[cfg(test)]
mod tests;
