//! What the checks of a block's constructors know of it.

use lk_env::unit::BlockType;
use lk_mentions::names::Names;

/// What the checks of a block's types fix: the list of its level parameters as levels, the Locals of its parameters, the
/// level of its types' sort, the names of its types, and its types. All numbers are those of one store.
#[derive(Drop)]
pub struct Frame<'a> {
    pub levels: u64,
    pub parameters: &'a [u64],
    pub sort: u64,
    pub names: Names,
    pub types: &'a [BlockType],
}
