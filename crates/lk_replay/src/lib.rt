//! Written sections, tested: each line by the test of its rule, on the lines before it, and at the end the parts of a good
//! unit. No question is asked, and nothing is kept from one section for the next.
#![tactic(auto)]

mod body;
mod laws;
mod lines;
mod reduction;
mod section;
mod unit;

pub use unit::replay_unit;
