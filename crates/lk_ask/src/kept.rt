//! An answer that is kept.

use crate::query::Answer;

/// The answer of a question, what it cost, and the last unit that was looked at for it (the greatest number).
#[derive(Clone, Copy)]
pub struct Kept {
    pub answer: Answer<u64>,
    pub cost: u128,
    pub top: Option<u32>,
}
