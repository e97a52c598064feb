//! Parsing statements: CREATE TABLE, DROP TABLE, INSERT, UPDATE, DELETE and all others but queries.
#![tactic(auto)]

pub mod changes;
pub mod creates;
pub mod statements;
