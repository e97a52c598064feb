//! Tests beyond contracts and scripts: COMMIT and ROLLBACK without memory, an index whose lookups all fail, devices
//! that fail at each of their calls, and scripts that are cut at each byte.
use tql_tree_index::tree_index::TreeIndex;

mod cuts;
mod devices;
mod failures;
mod faults;
mod plans;
mod scripts;
mod steps;

/// The engine that the program uses.
type Engine = tql_engine::engine::Engine<TreeIndex>;
