//! The recursors of a block's shape, made as terms of a store: first what they all share, then one type or the value of
//! one rule at a time, since each value is as long as all minor premises.
#![tactic(auto)]

mod between;
mod binders;
mod bounds;
pub mod comparing;
mod counts;
pub mod front;
pub mod heads;
mod levels;
mod minors;
mod own;
mod recursive;
pub mod recursor;
mod renaming;
pub mod rules;
mod telescope;

pub use recursor::{by_k, recursor_type};
