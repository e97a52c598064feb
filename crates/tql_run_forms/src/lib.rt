//! Output formats of a run: comma-separated values, JSON, JSON Lines, boxes, and plain text without refusals.
#![tactic(auto)]

pub mod accepted_form;
pub mod box_form;
pub mod csv_form;
pub mod json_form;
pub mod jsonl_form;
pub mod kinds;
