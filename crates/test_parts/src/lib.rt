//! Tests that cannot be written as data: devices that fail, reads that are interrupted, memory that runs out in the
//! middle, and texts of a million bytes.
#![tactic(auto)]

#[cfg(test)]
mod tests;
