//! How many things there are.

/// How many units, names and trees there are.
#[derive(Clone, Copy)]
pub(crate) struct Counts {
    pub units: u32,
    pub names: u32,
    pub trees: u32,
}
