//! `Same` by eta: of functions, of structures both ways, and of types with one value, in this order. Each is a line of `Same` that
//! asks, and may give no answer; where none of them gives one, what comes behind them is asked of the two terms.
#![tactic(auto)]

pub mod arguments;
pub mod constructor;
mod eta;
pub mod fields;
pub mod function;
pub mod sheet;
mod structure;
pub mod unit;
mod ways;

pub use eta::{EtaLine, begin, resume_term, resume_truth};
