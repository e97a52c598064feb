//! Name binding of SELECT. Every fault is collected, and the first in the order of report is kept.
#![tactic(auto)]

mod clauses;
mod from;
mod grouping;
mod headings;
mod joins;
mod ordering;
mod outputs;
pub mod query;
mod reference_names;
mod references;
mod scopes;
mod sorted_headings;
mod sources;
