//! What a line states.

/// How a line relates its two trees.
#[derive(Clone, Copy, PartialEq)]
pub enum Relation {
    Typing,
    Reduction,
    Equality,
}

/// What a line states of two trees, which are numbers of a store.
#[derive(Clone, Copy)]
pub struct Claim {
    pub relation: Relation,
    pub left: u64,
    pub right: u64,
}
