//! Whether two terms are the same: what `Same` asks, step by step, as the table says it.
#![tactic(auto)]

pub mod irrelevance;
pub mod lines;
pub mod parts;
pub mod same;
pub mod shape;
pub mod sheet;

pub use same::{SameNext, begin, resume_term, resume_truth};
