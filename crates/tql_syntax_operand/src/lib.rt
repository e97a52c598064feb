//! Parsing periods as operands, and the tests that may follow an expression or a period.
#![tactic(auto)]

pub mod operands;
