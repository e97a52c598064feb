//! Binding of conditions. Bound conditions are nodes in the arena of the statement (`Terms`). A fault does not stop
//! binding, and of all faults the first in the order of report is kept.
#![tactic(auto)]

mod comparisons;
pub mod conditions;
pub mod conjuncts;
mod membership;
mod periods;
mod relations;
mod signs;
pub mod sole_names;
