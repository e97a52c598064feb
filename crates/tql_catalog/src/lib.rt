//! The catalog of existing tables, and their definitions.
#![tactic(auto)]

mod assignable;
pub mod catalog;
pub mod constraint;
mod definable;
pub mod definition;
mod referring;
mod sought;
pub mod table_def;
