//! Parsing conditions: tests, combined by AND, OR, NOT and parentheses.
#![tactic(auto)]

pub mod conditions;
