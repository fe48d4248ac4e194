//! What it rests on that two terms are the same by literals: an operation on numbers that is computed, or a number
//! beside zero or a successor.
#![tactic(auto)]

mod literals;
mod numbers;
mod reduced;

pub use literals::by_literals;
