//! Bound expressions and conditions as flat nodes: the trees that they represent, searches in them, and their
//! evaluation.
#![tactic(auto)]

mod chains;
pub mod columns;
pub mod constants;
pub mod equality;
mod evaluation;
pub mod node;
pub mod row;
mod safety;
mod scalar;
pub mod search;
pub mod stored;
pub mod terms;
pub mod values;
