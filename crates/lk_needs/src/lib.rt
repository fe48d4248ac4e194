//! The closure of a unit: the numbers of the units on which its verdict rests. They are found by a
//! search over units, names and trees: each leads to others, is marked as it is found, and is looked
//! through once.
#![tactic(auto)]

pub mod builtins;
pub mod closing;
mod endings;
pub mod followers;
pub mod listing;
pub mod needs;
pub mod opening;
pub mod thing;

pub use closing::closure;
