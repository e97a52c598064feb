//! Binding of the CHECK constraints of a new table, in an arena (`Terms`) of their own. A fault does not stop binding,
//! and of all faults the first in the order of report is kept.
#![tactic(auto)]

pub mod checks;
