//! What it rests on that two terms are the same by unfolding: the row of `Same` where one of them unfolds, or both do, or their
//! heads are one constant and their arguments are the same.
#![tactic(auto)]

mod alike;
mod arguments;
mod lazy;
mod reduced;
mod steps;

pub use lazy::by_unfolding;
