//! What is told of a submission.

/// A submission of the list: its tag, the number of its first unit, and how many units it has.
#[derive(Clone, Copy)]
pub struct Mark {
    pub tag: u64,
    pub first: u32,
    pub count: u32,
}
