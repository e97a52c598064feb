//! The printed text of replies and answers, pushed into a sink.
#![tactic(auto)]

pub mod answer;
pub mod cell;
pub mod device;
mod heading;
pub mod number;
pub mod pieces;
pub mod point;
pub mod print;
pub mod quoted;
pub mod reply;
pub mod sink;
pub mod std_sink;
pub mod table;
pub mod vec_sink;
