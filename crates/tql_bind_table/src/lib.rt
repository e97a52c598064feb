//! Binding of CREATE TABLE: from the syntax tree to the definition that it gives, or its first fault.
#![tactic(auto)]

mod check_names;
mod checks;
pub mod create;
mod parent_keys;
mod parents;
mod references;
