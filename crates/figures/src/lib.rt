//! Totals of tables, and of amounts known within a range.
#![tactic(auto)]

pub mod entry;
pub mod range;
pub mod table;
