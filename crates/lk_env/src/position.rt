//! Where a library gives a name.

/// A member of a unit. Of a block the types come first, then their constructors, then the recursors.
#[derive(Clone, Copy)]
pub struct Position {
    pub unit: u32,
    pub member: u32,
}
