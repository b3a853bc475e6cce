// The total of a list that is accepted: a scan, and then passes at lower and lower edges until one
// of them decides.
#![tactic(auto)]

pub mod allowance;
pub mod extended;
pub mod lists;
pub mod numbers;
pub mod pass;
pub mod scan;
pub mod terms;
pub mod total;
pub mod walk;
