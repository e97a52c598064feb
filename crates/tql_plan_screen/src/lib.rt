//! Screens: tests of stored columns against literals, made once from conjuncts. A row that fails one of them fails the
//! conjuncts, so these are evaluated on fewer rows, or on none.
#![tactic(auto)]

mod compared;
mod parts;
pub mod screen;
pub mod screening;
mod sets;
