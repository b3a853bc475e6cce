// The three promises on calls: each function here calls the library, and its contract says of the
// call, or of two calls, what is promised of every one.
#![tactic(auto)]

pub mod career_pages;
pub mod contributions;
pub mod entries;
pub mod order;
pub mod passes;
pub mod pence;
pub mod ranges;
pub mod refusals;
pub mod rounded;
pub mod several_formats;
pub mod tables;
pub mod told;
pub mod within;
pub mod within_entries;
