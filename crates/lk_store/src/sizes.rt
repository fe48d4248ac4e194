//! How much a store has of each kind.

/// How many rows there are of each kind.
#[derive(Clone, Copy)]
pub struct Sizes {
    pub numbers: u64,
    pub names: u64,
    pub texts: u64,
    pub levels: u64,
    pub lists: u64,
    pub terms: u64,
}
