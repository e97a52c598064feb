//! The engine of the program.
use tql_tree_index::tree_index::TreeIndex;

/// The engine. Balanced trees keep its closed versions and find rows by their values and periods.
pub type Engine = tql_engine::engine::Engine<TreeIndex>;
