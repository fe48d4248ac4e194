//! What the walk for nested occurrences knows of a block.

use lk_mentions::names::Names;

/// The names of a block's types, the names of its level parameters, the list of these as levels, and the Locals of its
/// parameters.
#[derive(Clone, Copy)]
pub struct Setting<'a> {
    pub names: &'a Names,
    pub levels: &'a [u64],
    pub own_levels: u64,
    pub parameters: &'a [u64],
}
