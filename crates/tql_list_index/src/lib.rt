//! An index of periods that is a plain list, against which other indexes are tested.
#![tactic(auto)]

pub mod list_index;
