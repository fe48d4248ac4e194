//! What comes of the section of a unit.

/// What comes of the section of a unit.
#[derive(Clone, Copy)]
pub enum Outcome {
    /// It holds.
    Ok,
    /// The first of its lines that is at fault, by its number in the file.
    Bad { line: u64 },
    /// The unit has no section.
    None,
    /// The unit is a block, of which nothing is written.
    Block,
}
