//! Whether two terms are the same by unfolding: what is asked, step by step, as the table says it. Also what compares two
//! terms part by part: lists of levels, and spines taken apart in pairs.
#![tactic(auto)]

pub mod heads;
pub mod lazy;
pub mod levels;
pub mod rank;
pub mod sheet;
pub mod spines;

pub use lazy::{LazyNext, begin, resume};
