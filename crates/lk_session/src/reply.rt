//! What callers are told.

use crate::mark::Mark;
use lk_verdict::Verdict;

/// What is told of a text that was added: the number of its first unit in the list, and a verdict
/// for each of its units.
#[derive(Drop)]
pub struct Reply {
    pub first: u32,
    pub verdicts: Vec<Verdict>,
}

/// What is told of the list: each of its submissions, and of how many of them the pass's library
/// has the units, which is of all of them unless memory was wanting.
#[derive(Drop)]
pub struct History {
    pub marks: Vec<Mark>,
    pub read: usize,
}
