//! One total in several formats, totals within an allowance of passes, and the contribution that
//! reaches a wanted total.
#![tactic(auto)]

pub mod contribution;
pub mod entry;
pub mod entry_contribution;
pub mod entry_within;
pub mod estimate;
mod kept;
mod rank;
pub mod several;
