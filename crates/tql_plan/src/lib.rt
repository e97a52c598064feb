//! Plans: which versions are read, by which access path, and how they are joined, and the choice of each. A plan does
//! not depend on the contents of the store.
#![tactic(auto)]

pub mod accesses;
pub mod counts;
pub mod keys;
mod marks;
pub mod plan;
pub mod products;
pub mod stored;
pub mod widths;
