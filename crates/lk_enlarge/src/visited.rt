//! What was found of a block's terms while its occurrences are replaced, so that what they share is looked through once.

use lk_mentions::part::Met;
use lk_nested::marks::Mark;
use lk_rows::table::Table;

/// The terms of a block that were visited, and what was found of them.
#[derive(Drop)]
pub struct Visited {
    /// Whether they mention a type of the block.
    pub marks: Table<Mark>,
    /// Those that hold no Local but the parameters.
    pub own: Table<Met>,
}
