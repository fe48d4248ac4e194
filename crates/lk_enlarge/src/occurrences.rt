//! The nested occurrences of a block, as far as they were met.

use crate::visited::Visited;
use lk_auxiliary::auxiliary::Auxiliary;
use lk_nested::swap::Pair;

/// The nested occurrences that were met so far.
#[derive(Drop)]
pub struct Occurrences {
    /// The auxiliary types, in order.
    pub auxs: Vec<Auxiliary>,
    /// Each occurrence, with what takes its place.
    pub pairs: Vec<Pair>,
    /// What was found of the terms that were visited.
    pub visited: Visited,
}
