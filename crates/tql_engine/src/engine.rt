//! The engine, which answers statements in the order in which they are given.

pub use tql_engine_step::engine::Engine;
