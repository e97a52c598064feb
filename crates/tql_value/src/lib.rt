//! Values with their comparison, order, arithmetic and calendar, the versions that a query can read, and the refusals
//! of statements.
#![tactic(auto)]

pub mod arithmetic;
pub mod calendar;
pub mod comparison;
pub mod laws;
pub mod literal;
pub mod refusal;
pub mod table;
pub mod text;
pub mod truth;
pub mod value;
pub mod when;
