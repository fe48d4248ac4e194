//! A meter of questions: what is left of a budget, how much work was done, and the last unit that was looked at.
#![tactic(auto)]

pub mod meter;

pub use meter::{Meter, Spent};
